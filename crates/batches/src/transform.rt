// The transforms of sixteen lines by a factor list: as plain::transform, lane by lane. The numbers grow by no more
// than 32 p with each step.
ghost use Rattle.std.specs.Prelude.{◌≡◌, length, ℕ, ◌+◌, ◌*◌, ◌/◌, ◌%◌};
ghost use Rattle.numbers.specs.Value.{prime, IsModulus};
ghost use Rattle.roots.specs.Table.{table_root, RootTable};
ghost use Rattle.lengths.specs.Admitted.{Factored};
ghost use Rattle.lengths.specs.Stages.{points, after, Ahead};
ghost use Rattle.batches.specs.Reduction.{ShiftedTable};
ghost use Rattle.batches.specs.Lanes.{UpTo, SteppedLanes};
ghost use Rattle.batches.specs.Transforms.{TransformedLanes};

use lengths::stage::Stage;

// The steps go to and fro between the batch and the work slice; after an odd number of them the result is copied back.
pub fn transform<'a>(
    m: u32,
    re: &'a [u32; 2880],
    im: &'a [u32; 2880],
    sre: &'a [u32; 2880],
    sim: &'a [u32; 2880],
    factors: u32,
    n: usize,
    line: &mut [u32],
    work: &mut [u32],
)
    requires modulus { IsModulus m
        × RootTable m re.now im.now
        × ShiftedTable m re.now im.now sre.now sim.now }
    requires factored { Factored factors n × (n * (2880 / n) ≡ 2880) }
    requires line_len { (length line.old ≡ 32 * n)
        × (length work.old ≡ 32 * n)
        × UpTo (8 * prime m) line.old }
    ensures { TransformedLanes m (table_root m re.now im.now) factors n
        line.old line.new }
{
    let mut at = Stage {
        left: factors,
        inner: 1,
        lines: n,
    };
    // While two factors or more are left: a stage says what is left, and nothing is counted.
    while 8 <= at.left {
        at = next_step(m, re, im, sre, sim, at, line, work);
        at = next_step(m, re, im, sre, sim, at, work, line);
    }
    if at.left != 0 {
        next_step(m, re, im, sre, sim, at, line, work);
        slices::copy(work, line, 16 * n);
    }
}

// The next step.
fn next_step<'a>(
    m: u32,
    re: &'a [u32; 2880],
    im: &'a [u32; 2880],
    sre: &'a [u32; 2880],
    sim: &'a [u32; 2880],
    at: Stage,
    from: &[u32],
    to: &mut [u32],
) -> Stage
    requires modulus { IsModulus m
        × RootTable m re.now im.now
        × ShiftedTable m re.now im.now sre.now sim.now }
    requires ahead { Ahead at × (length from.now ≡ 32 * points at) × (length to.old ≡ 32 * points at) }
    requires up_to { UpTo 1073741823 from.now × (at.inner ≡ 1 → UpTo (8 * prime m) from.now) }
    ensures value { result ≡ after at }
    ensures stepped_lanes { SteppedLanes m (table_root m re.now im.now) at.inner (at.left % 8)
        (at.lines / (at.left % 8)) from.now to.new
        × ((X : ℕ) → UpTo X from.now → UpTo (X + 32 * prime m) to.new) }
{
    let next = lengths::stage::next(at);
    crate::step::step(
        m,
        re,
        im,
        sre,
        sim,
        at.inner,
        (at.left % 8) as usize,
        next.lines,
        from,
        to,
    );
    next
}
