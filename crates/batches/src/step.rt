// A step of equation (3) of document 001 over a batch of sixteen lanes: as plain::step::step, lane by lane.
ghost use Rattle.std.specs.Prelude.{◌≡◌, length, ℕ, ◌+◌, ◌*◌, ◌<◌, ◌≤◌};
ghost use Rattle.numbers.specs.Value.{prime, IsModulus};
ghost use Rattle.roots.specs.Table.{table_root, RootTable};
ghost use Rattle.plain.specs.Plain.{Splits};
ghost use Rattle.batches.specs.Reduction.{ShiftedTable};
ghost use Rattle.batches.specs.Lanes.{UpTo, Apart, FirstStep, SteppedLanes, LaneParts};
ghost use Rattle.batches.specs.Copying.{PlacedSums};

use butterflies::twiddle::Places;

// The B outer sums of one 𝐚, at their places. y is lent for the work.
fn outer_sums<'a>(
    m: u32,
    re: &'a [u32; 2880],
    im: &'a [u32; 2880],
    sre: &'a [u32; 2880],
    sim: &'a [u32; 2880],
    outer: usize,
    at: Places,
    from: &[u32],
    to: &mut [u32],
    y: &mut [u32; 160],
)
    requires modulus { IsModulus m
        × RootTable m re.now im.now
        × ShiftedTable m re.now im.now sre.now sim.now }
    requires le_outer { (2 ≤ outer) × (outer ≤ 5) × Apart outer at from.now × UpTo 1073741823 from.now
        × (length y.old ≡ 160) }
    requires gap_nonzero { (0 < at.gap) × (32 * (at.base + outer * at.gap) + 32 ≤ length to.old + 32 * at.gap)
        × (at.gap ≡ 1 → FirstStep m at from.now) }
    ensures { PlacedSums m (table_root m re.now im.now) outer at from.now
        to.old to.new
        × (length y.new ≡ 160) }
{
    if at.gap == 1 {
        crate::radix::sums::<true>(m, re, im, sre, sim, outer, at, from, y);
    } else {
        crate::radix::sums::<false>(m, re, im, sre, sim, outer, at, from, y);
    }
    crate::copying::put_blocks(y, outer, to, at.base, at.gap);
}

// All butterflies of a step, in the order and with the letters of plain::step::step. The numbers grow by no more than
// 32 p.
pub fn step<'a>(
    m: u32,
    re: &'a [u32; 2880],
    im: &'a [u32; 2880],
    sre: &'a [u32; 2880],
    sim: &'a [u32; 2880],
    inner: usize,
    outer: usize,
    lines: usize,
    from: &[u32],
    to: &mut [u32],
)
    requires modulus { IsModulus m
        × RootTable m re.now im.now
        × ShiftedTable m re.now im.now sre.now sim.now }
    requires splits { Splits inner outer lines × (length from.now ≡ 32 * (inner * outer * lines))
        × (length to.old ≡ 32 * (inner * outer * lines)) }
    requires up_to { UpTo 1073741823 from.now × (inner ≡ 1 → UpTo (8 * prime m) from.now) }
    ensures stepped_lanes { SteppedLanes m (table_root m re.now im.now) inner outer lines
        from.now to.new }
    ensures by_index { (X : ℕ) → UpTo X from.now → UpTo (X + 32 * prime m) to.new }
    ensures lane_parts { LaneParts m (table_root m re.now im.now) inner outer lines
        from.now to.new }
{
    let stride = lines * inner;
    let skip = outer * inner - inner;
    let exponent = 2880 / (inner * outer);
    let mut y = [0u32; 160];
    let mut a = 0;
    let mut base = 0;
    let mut k = 0;
    for first in 0..stride {
        let at = Places {
            first,
            stride,
            k,
            base,
            gap: inner,
        };
        outer_sums(m, re, im, sre, sim, outer, at, from, to, &mut y);
        a += 1;
        base += 1;
        k += exponent;
        if a == inner {
            a = 0;
            base += skip;
            k = 0;
        }
    }
}
