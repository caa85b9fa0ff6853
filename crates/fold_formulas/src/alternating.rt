// Alternating lines: the value in the middle.
ghost use Rattle.std.specs.Prelude.{◌≡◌, ℕ, ◌<◌};
ghost use Rattle.algebra.specs.ring.Ring.{Ops};
ghost use Rattle.algebra.specs.lines.Kinds.{unit};
ghost use Rattle.numbers.specs.Value.{prime, field, conj, real, pair_of, on_values};
ghost use Rattle.numbers.specs.Bounds.{res};

use numbers::Pair;

// The middle of an alternating line from its one number x: X(A) = (-1)^A conj X(A) is real for an even A, and imaginary for an odd one.
pub fn middle(a: usize, x: u32) -> Pair
    ensures { (m : ℕ) → x < prime m →
        result ≡ pair_of ((field m).mul (on_values m unit a a) (real m (res m x))) }
{
    if a % 2 == 0 {
        Pair { re: x, im: 0 }
    } else {
        Pair { re: 0, im: x }
    }
}
