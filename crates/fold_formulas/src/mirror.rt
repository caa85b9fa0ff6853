// Symmetric and antisymmetric lines: a place of the transform from two places of the short transform.
ghost use Rattle.std.specs.Prelude.{◌≡◌, ◌<◌, ◌≤◌};
ghost use Rattle.algebra.specs.ring.Ring.{Ops};
ghost use Rattle.algebra.specs.lines.Folds.{mirror_value};
ghost use Rattle.numbers.specs.Value.{prime, IsModulus, field, i, real, half, value_of, pair_of};
ghost use Rattle.numbers.specs.Bounds.{res, Small};
ghost use Rattle.fold_formulas.specs.FoldFormulas.{sigma};

use numbers::Pair;

// The transform at a place s between 0 and A, from y and z at the places s and A - s of the short one: sigma tells which of their
// sum and difference is multiplied by i tau.
pub fn finish_between(m: u32, first: usize, tau: u32, y: Pair, z: Pair) -> Pair
    requires { IsModulus m × (first ≤ 1) × (tau < prime m) × Small (prime m) y × Small (prime m) z }
    ensures { result
        ≡ pair_of
        (mirror_value (field m) (real m (half m)) (sigma (field m) first) ((field m).mul (i m) (real m (res m tau)))
        (value_of m y)
        (value_of m z)) }
{
    if first == 0 {
        let apart = numbers::difference(m, y, z);
        half_sum(m, tau, y, z, apart)
    } else {
        let both = numbers::sum(m, y, z);
        half_sum(m, tau, y, numbers::negated(m, z), both)
    }
}

// (x + w + i tau d)/2.
fn half_sum(m: u32, tau: u32, x: Pair, w: Pair, d: Pair) -> Pair
    requires { IsModulus m × (tau < prime m) × Small (prime m) x × Small (prime m) w × Small (prime m) d }
    ensures { result ≡ pair_of ((field m).mul (real m (half m))
        ((field m).add ((field m).add (value_of m x) (value_of m w))
        ((field m).mul (i m) ((field m).mul (real m (res m tau)) (value_of m d))))) }
{
    let i_tau = Pair { re: 0, im: tau };
    numbers::halved(m, numbers::unreduced::plus_product(m, x, w, i_tau, d))
}
