// Symmetric and antisymmetric lines side by side, after the transform of their short lines: in each lane twice the
// transform at the places that are stored. With y the short transform and tau the half tangent of the place (see crate
// folds, mirror/after.rt) 2 X^(s) = (1 + i tau) y(s) + sigma (1 - i tau) y(A - s).
ghost use Rattle.std.specs.Prelude.{◌≡◌, length, get_or, ℕ, ◌+◌, ◌*◌, ◌-◌, ◌<◌, ◌≤◌};
ghost use Rattle.numbers.specs.Value.{prime, IsModulus, Value, value_of};
ghost use Rattle.batches.specs.Lanes.{lane_at, UpTo};
ghost use Rattle.fold_formulas.specs.FoldFormulas.{stride, Tangents};
ghost use Rattle.folded_batches.specs.MirrorLanes.{Numbers, BlockOf, Places, twice_finished, MirrorMix};

use crate::mixing::Mix;

// The pass after the transform.
pub fn finish<'a>(
    m: u32,
    tan: &'a [u32; 1440],
    first: usize,
    a: usize,
    odds: &[u32; 32],
    fold: &[u32],
    line: &mut [u32],
)
    requires modulus { IsModulus m × Tangents m tan.now × (first ≤ 1) × (0 < a) × (a * stride a ≡ 1440) }
    requires up_to { UpTo (1440 * prime m) odds.now × UpTo (360 * prime m) fold.now × (length fold.now ≡ 32 * a)
        × (length line.old ≡ 32 * (a + 1)) }
    ensures { (o : ℕ → Value m)
        → (first ≡ 0 → (v : ℕ) → v < 16 → value_of m (lane_at odds.now 0 v) ≡ o v)
        → Places m 2147483647 (twice_finished m a first tan.now fold.now o)
        first (a + 1 - first) line.new }
{
    let mut y = [0u32; 32];
    for s in first..a + 1 - first {
        finish_place(m, tan, first, a, odds, fold, s, &mut y);
        crate::mixing::put_place(&y, line, s);
    }
}

// Place s. An antisymmetric line asks for neither end.
#[tactic(auto, using(batches::proofs::DrivingLanes::up_as, numbers::proofs::Primes::prime_most))]
fn finish_place<'a>(
    m: u32,
    tan: &'a [u32; 1440],
    first: usize,
    a: usize,
    odds: &[u32; 32],
    fold: &[u32],
    s: usize,
    y: &mut [u32; 32],
)
    requires modulus { IsModulus m × Tangents m tan.now × (first ≤ 1) × (0 < a) × (a * stride a ≡ 1440) }
    requires up_to { UpTo (1440 * prime m) odds.now × UpTo (360 * prime m) fold.now × (length fold.now ≡ 32 * a)
        × (length y.old ≡ 32) }
    requires first_le_s { (first ≤ s) × (s < a + 1 - first) }
    ensures { (length y.new ≡ 32)
        × ((o : ℕ → Value m)
        → (first ≡ 0 → (v : ℕ) → v < 16 → value_of m (lane_at odds.now 0 v) ≡ o v)
        → BlockOf m 2147483647
        (λ v. twice_finished m a first tan.now fold.now o v s) y.new) }
{
    // e = 1: the sum of the line, which is that of the short line.
    if s == 0 {
        crate::mirror::places::add_places(fold, 0, 0, y);
        return;
    }
    // e = -1: the odd places count negatively, so twice their sum goes off.
    if s == a {
        middle(m, odds, fold, y);
        return;
    }
    let k = coefficients(m, first, tan[1440 / a * s]);
    crate::mixing::mixed(m, k, fold, s, a - s, y);
}

// Twice the sum of the line with its odd places negative.
fn middle(m: u32, odds: &[u32; 32], fold: &[u32], y: &mut [u32; 32])
    requires { IsModulus m × UpTo (1440 * prime m) odds.now × UpTo (360 * prime m) fold.now
        × (32 ≤ length fold.now) × (length y.old ≡ 32) }
    ensures { Numbers (λ u. 2 * (get_or fold.now u 0
        + (2880 * prime m - 2 * get_or odds.now u 0))) 32 y.new }
{
    let o = 2880 * numbers::modulus(m);
    for u in 0..32 {
        y[u] = 2 * (fold[u] + (o - 2 * odds[u]));
    }
}

// The coefficients of a place between the ends: 1 + i tau, and 1 - i tau or its negative.
fn coefficients(m: u32, first: usize, tau: u32) -> Mix
    requires { IsModulus m × (first ≤ 1) × (tau < prime m) }
    ensures { MirrorMix m first tau result }
{
    let one = batches::residues::shift(m);
    let minus_one = numbers::modulus(m) - one;
    let turn = numbers::mul(m, one, tau);
    let minus_turn = numbers::modulus(m) - turn;
    if first == 0 {
        Mix {
            a1: one,
            a2: minus_turn,
            a3: turn,
            a4: one,
            b1: one,
            b2: turn,
            b3: minus_turn,
            b4: one,
        }
    } else {
        Mix {
            a1: one,
            a2: minus_turn,
            a3: turn,
            a4: one,
            b1: minus_one,
            b2: minus_turn,
            b3: turn,
            b4: minus_one,
        }
    }
}
