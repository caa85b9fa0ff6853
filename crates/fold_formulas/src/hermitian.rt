// Hermitian lines: two values of the line folded to one of the short line, and one of the line from two of the short line.
//
// x and y are X(t) and X(A + t), e is e(t/N); at t = 0 both are reals, which share a pair. On the way back x and y are Y(t) and
// conj Y(A - t) of the short line, and e is e(-t/N).
ghost use Rattle.std.specs.Prelude.{◌≡◌, ℕ};
ghost use Rattle.algebra.specs.lines.Folds as Folds;
ghost use Rattle.numbers.specs.Value.{prime, IsModulus, conj, i, value_of, pair_of, on_values};
ghost use Rattle.numbers.specs.Bounds.{Small};
ghost use Rattle.fold_formulas.specs.FoldFormulas.{sum_and_difference, to_hermitian_value};

use numbers::Pair;

// x + y and x - y of the two reals that share a pair: again two reals that share a pair.
pub fn sum_and_difference(m: u32, v: Pair) -> Pair
    requires { IsModulus m × Small (prime m) v }
    ensures { result ≡ pair_of (sum_and_difference m (value_of m v)) }
{
    Pair {
        re: numbers::add(m, v.re, v.im),
        im: numbers::sub(m, v.re, v.im),
    }
}

// R + i S, where R = x + y and S = e (x - y).
pub fn fold_pair(m: u32, e: Pair, x: Pair, y: Pair) -> Pair
    requires { IsModulus m × Small (prime m) e × Small (prime m) x × Small (prime m) y }
    ensures { (A : ℕ) →
        result ≡ pair_of (on_values m Folds.hermitian_point A (value_of m e) (value_of m x) (value_of m y)) }
{
    let rotated = numbers::times_i(m, numbers::difference(m, x, y));
    numbers::unreduced::plus_product(m, x, y, e, rotated)
}

// R + e S, where R = (x + y)/2 and i S = (x - y)/2.
pub fn unfold_pair(m: u32, e: Pair, x: Pair, y: Pair) -> Pair
    requires { IsModulus m × Small (prime m) e × Small (prime m) x × Small (prime m) y }
    ensures { (A : ℕ) →
        result ≡ pair_of (on_values m Folds.hermitian_value A (value_of m e) (value_of m x) (value_of m y)) }
{
    let rotated = numbers::times_i(m, numbers::difference(m, y, x));
    numbers::halved(m, numbers::unreduced::plus_product(m, x, y, e, rotated))
}

// -i v, the value of the Hermitian line of which an antihermitian one is i times; a Hermitian line's own value as it is.
pub fn to_hermitian(m: u32, anti: bool, v: Pair) -> Pair
    requires { IsModulus m × Small (prime m) v }
    ensures { result ≡ pair_of (to_hermitian_value m anti (value_of m v)) }
{
    if anti {
        numbers::negated(m, numbers::times_i(m, v))
    } else {
        v
    }
}
