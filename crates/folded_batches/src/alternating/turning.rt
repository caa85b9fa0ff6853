// Kind 3, the alternating line, sixteen lanes at a time: each place of the batch turned by the angle of e(s/N).
//
// After the forward transform the place s holds Y^(s) = u + i v, and X^(s) is (u + v cot) + i v csc; a line that is
// stored times i is divided by it, (x, y) to (y, -x). On the way back it holds X^(s) = E + i b, and the short line is
// E - i (E cot + b csc): the half tangents that are lent then are those of the opposite angle.
ghost use Rattle.std.specs.Prelude.{◌≡◌, ◌*◌, ◌<◌, length};
ghost use Rattle.numbers.specs.Value.{IsModulus};
ghost use Rattle.fold_formulas.specs.FoldFormulas.{stride, Tangents};
ghost use Rattle.batches.specs.Lanes.{UpTo};
ghost use Rattle.folded_batches.specs.AlternatingLanes.{Filled, of_one, Angled, Angle, Coefficients};

use crate::mixing::Mix;
use numbers::Pair;

// Each place by its angle.
pub fn turn_places(
    m: u32,
    direction: u32,
    rotated: bool,
    tan: &[u32; 1440],
    a: usize,
    fold: &mut [u32],
)
    requires modulus { IsModulus m × Tangents m tan.now × (0 < a) × (a * stride a ≡ 1440) }
    requires fold_len { (length fold.old ≡ 32 * a) × UpTo 1073741823 fold.old }
    ensures { Filled (Angled m direction rotated a tan.now fold.old) a
        fold.new }
{
    let step = 1440 / a;
    let mut y = [0u32; 32];
    for s in 0..a {
        let k = coefficients(m, direction, rotated, tan, step, a, s);
        crate::mixing::mixed_alone(m, k, fold, s, &mut y);
        crate::mixing::put_place(&y, fold, s);
    }
}

// Forward, u + v cot and v csc of the parts u and v, or v csc and -(u + v cot), which is that over i. Back, u and
// -(u cot + v csc), or that of i (u + i v).
fn coefficients(
    m: u32,
    direction: u32,
    rotated: bool,
    tan: &[u32; 1440],
    step: usize,
    a: usize,
    s: usize,
) -> Mix
    requires modulus { IsModulus m × Tangents m tan.now }
    requires step_value { (step ≡ stride a) × (a * step ≡ 1440) × (s < a) }
    ensures { Coefficients m direction rotated a tan.now s result }
{
    let w = angle(m, tan, step, a, s);
    let one = batches::residues::shift(m);
    if direction == 0 {
        if rotated {
            of_one(0, w.im, numbers::neg(m, one), numbers::neg(m, w.re))
        } else {
            of_one(one, w.re, 0, w.im)
        }
    } else if rotated {
        of_one(0, numbers::neg(m, one), numbers::neg(m, w.im), w.re)
    } else {
        of_one(one, 0, numbers::neg(m, w.re), numbers::neg(m, w.im))
    }
}

// The coefficients of one place alone.
fn of_one(a1: u32, a2: u32, a3: u32, a4: u32) -> Mix
    ensures { result ≡ of_one a1 a2 a3 a4 }
{
    Mix {
        a1,
        a2,
        a3,
        a4,
        b1: 0,
        b2: 0,
        b3: 0,
        b4: 0,
    }
}

// The cotangent and the cosecant of the angle of e(s/N), times 2^32, as the parts of a pair: from its half tangent
// tau(s) and tau(A - s) = 1/tau(s). At s = 0 the two parts of X^(0) are apart already, and 0 and 1 stand for them.
fn angle(m: u32, tan: &[u32; 1440], step: usize, a: usize, s: usize) -> Pair
    requires modulus { IsModulus m × Tangents m tan.now }
    requires step_value { (step ≡ stride a) × (a * step ≡ 1440) × (s < a) }
    ensures { Angle m a tan.now s result }
{
    let one = batches::residues::shift(m);
    if s == 0 {
        Pair { re: 0, im: one }
    } else {
        let near = tan[step * s];
        let far = tan[step * (a - s)];
        let half = numbers::halve(m, one);
        Pair {
            re: numbers::mul(m, half, numbers::sub(m, far, near)),
            im: numbers::mul(m, half, numbers::add(m, near, far)),
        }
    }
}
