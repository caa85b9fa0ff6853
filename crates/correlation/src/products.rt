// The product of two volumes of factors, pair by pair: that of the first one's conjugate with the second and a residue.
ghost use Rattle.std.specs.Prelude.{◌≡◌, ◌*◌, ◌<◌, length};
ghost use Rattle.algebra.specs.ring.Ring.{Ops};
ghost use Rattle.numbers.specs.Value.{prime, IsModulus, field, conj, real, value_of, pair_of};
ghost use Rattle.numbers.specs.Bounds.{res, Small};
ghost use Rattle.slices.specs.Pairs.{Below, list_of};
ghost use Rattle.correlation.specs.Steps.{correlated};

use numbers::Pair;

// c times the conjugate of x, times y.
fn correlate_pair(m: u32, c: u32, x: Pair, y: Pair) -> Pair
    requires { IsModulus m × (c < prime m) × Small (prime m) x × Small (prime m) y }
    ensures { result
        ≡ pair_of ((field m).mul (real m (res m c)) ((field m).mul (conj m (value_of m x)) (value_of m y))) }
{
    let product = numbers::unreduced::product(m, numbers::conjugate(m, x), y);
    numbers::scaled(m, c, numbers::reduced_below(m, product))
}

// The first of two volumes of n pairs becomes their product, the second stays.
pub fn correlate_pairs(m: u32, c: u32, n: usize, first: &mut [u32], second: &[u32])
    requires modulus { IsModulus m × (c < prime m) }
    requires first_len { (length first.old ≡ 2 * n) × (length second.now ≡ 2 * n) }
    requires below { Below (prime m) first.old × Below (prime m) second.now }
    ensures { first.new ≡ list_of n (correlated m c first.old second.now) }
{
    for j in 0..n {
        let x = slices::get(first, j);
        let y = slices::get(second, j);
        slices::store(first, j, correlate_pair(m, c, x, y));
    }
}
