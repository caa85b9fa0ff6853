// Each place t of a batch of packed Hermitian lines with its mate, the place B - t: what the line's fold does before
// the short transform of synthesis, and after that of analysis.
//
// With e = e(t/N) synthesis makes (1 + i e) X(t) + (1 - i e) conj X(B - t), and analysis 2 N X(t) = (1 - i e) Y(t) +
// (1 + i e) conj Y(B - t). At place 0 the two reals of the pair go to their sum and their difference.
ghost use Rattle.std.specs.Prelude.{◌≡◌, length, ◌+◌, ◌*◌, ◌<◌};
ghost use Rattle.algebra.specs.ring.Ring.{pow};
ghost use Rattle.numbers.specs.Value.{prime, IsModulus, Value, Residue, field};
ghost use Rattle.roots.specs.Table.{table_root, RootTable};
ghost use Rattle.fold_formulas.specs.FoldFormulas.{stride, line_root, Frame};
ghost use Rattle.batches.specs.Reduction.{ShiftedTable, Holds};
ghost use Rattle.batches.specs.Lanes.{UpTo};
ghost use Rattle.folded_batches.specs.HermitianLanes.{end_for, own_factor, mate_factor, ComplexMix, EndMix};
ghost use Rattle.folded_batches.specs.HermitianLanes.{MatedPlace, MatedLanes};

use crate::mixing::Mix;

pub fn mate_places<'a>(
    m: u32,
    direction: u32,
    re: &'a [u32; 2880],
    im: &'a [u32; 2880],
    sre: &'a [u32; 2880],
    sim: &'a [u32; 2880],
    b: usize,
    from: &[u32],
    to: &mut [u32],
)
    requires frame { Frame m b re.now im.now × ShiftedTable m re.now im.now sre.now sim.now
        × (direction < 2) }
    requires from_len { (length from.now ≡ 32 * b) × (length to.old ≡ 32 * b) × UpTo 1073741823 from.now }
    ensures { MatedLanes m direction b (line_root m b re.now im.now) from.now b
        to.new }
{
    let step = 1440 / b;
    let mut y = [0u32; 32];
    for t in 0..b {
        mate_place(m, direction, re, im, sre, sim, step, b, t, from, &mut y);
        crate::mixing::put_place(&y, to, t);
    }
}

// One place.
fn mate_place<'a>(
    m: u32,
    direction: u32,
    re: &'a [u32; 2880],
    im: &'a [u32; 2880],
    sre: &'a [u32; 2880],
    sim: &'a [u32; 2880],
    step: usize,
    b: usize,
    t: usize,
    from: &[u32],
    y: &mut [u32; 32],
)
    requires frame { Frame m b re.now im.now × ShiftedTable m re.now im.now sre.now sim.now
        × (direction < 2) }
    requires step_value { (step ≡ stride b) × (t < b) × (length from.now ≡ 32 * b) × UpTo 1073741823 from.now
        × (length y.old ≡ 32) }
    ensures { MatedPlace m direction b (line_root m b re.now im.now) from.now t
        y.new }
{
    if t == 0 {
        let k = end_mix(m, direction);
        crate::mixing::mixed_alone(m, k, from, 0, y);
    } else {
        let k = mates_mix(m, direction, re, im, sre, sim, step * t);
        crate::mixing::mixed(m, k, from, t, b - t, y);
    }
}

// The coefficients of a place and of its mate, where e is the power k of the root.
fn mates_mix<'a>(
    m: u32,
    direction: u32,
    re: &'a [u32; 2880],
    im: &'a [u32; 2880],
    sre: &'a [u32; 2880],
    sim: &'a [u32; 2880],
    k: usize,
) -> Mix
    requires { IsModulus m × RootTable m re.now im.now
        × ShiftedTable m re.now im.now sre.now sim.now × (direction < 2) × (k < 2880) }
    ensures { ComplexMix m
        (own_factor m direction (pow (field m) (table_root m re.now im.now) k))
        (mate_factor m direction (pow (field m) (table_root m re.now im.now) k)) result }
{
    let one = batches::residues::shift(m);
    let x = sre[k];
    let y = sim[k];
    let less = numbers::neg(m, x);
    let up = numbers::sub(m, one, y);
    let down = numbers::add(m, one, y);
    if direction == 0 {
        complex_mix(m, up, x, down, less)
    } else {
        complex_mix(m, down, less, up, x)
    }
}

// The coefficients of a complex factor c + d i, and of another, u + v i, for a conjugate.
fn complex_mix(m: u32, c: u32, d: u32, u: u32, v: u32) -> Mix
    requires { IsModulus m × (c < prime m) × (d < prime m) × (u < prime m) × (v < prime m) }
    ensures { (α β : Value m) → Holds m c α.0 → Holds m d α.1 → Holds m u β.0 → Holds m v β.1
        → ComplexMix m α β result }
{
    Mix {
        a1: c,
        a2: numbers::neg(m, d),
        a3: d,
        a4: c,
        b1: u,
        b2: v,
        b3: v,
        b4: numbers::neg(m, u),
    }
}

// The coefficients of place 0: once or twice the sum and the difference of its two reals.
fn end_mix(m: u32, direction: u32) -> Mix
    requires { IsModulus m × (direction < 2) }
    ensures { EndMix m (end_for m direction) result }
{
    let one = batches::residues::shift(m);
    if direction == 0 {
        sum_mix(m, one)
    } else {
        sum_mix(m, numbers::add(m, one, one))
    }
}

fn sum_mix(m: u32, c: u32) -> Mix
    requires { IsModulus m × (c < prime m) }
    ensures { (z : Residue m) → Holds m c z → EndMix m z result }
{
    Mix {
        a1: c,
        a2: c,
        a3: c,
        a4: numbers::neg(m, c),
        b1: 0,
        b2: 0,
        b3: 0,
        b4: 0,
    }
}
