// The quarter turn of a difference that is not reduced yet: times i, or times the power of a table's root that is i or -i.
ghost use Rattle.std.specs.Prelude.{ℕ};
ghost use Rattle.algebra.specs.ring.Ring.{Ops, pow};
ghost use Rattle.numbers.specs.Value.{IsModulus, field, i};
ghost use Rattle.numbers.specs.Unreduced.{Accumulated, meant, Room};
ghost use Rattle.roots.specs.Table.{table_root, RootTable};

use numbers::Accumulator;

// i (x - y) of two products: 418,031,539,216 is 16 times the product of both primes, so that the result is no larger than four products.
pub fn difference_times_i(x: Accumulator, y: Accumulator) -> Accumulator
    requires { Room 182890310402 x × Room 182890310402 y }
    ensures { (m : ℕ) → IsModulus m →
        Accumulated m 4 result ((field m).mul (i m) ((field m).add (meant m x) ((field m).neg (meant m y)))) }
{
    Accumulator {
        re: y.im + (418031539216 - x.im),
        im: x.re + (418031539216 - y.re),
    }
}

// W^720 (x - y): that power is i or -i.
pub fn difference_times_quarter<'a>(
    m: u32,
    re: &'a [u32; 2880],
    im: &'a [u32; 2880],
    x: Accumulator,
    y: Accumulator,
) -> Accumulator
    requires modulus { IsModulus m × RootTable m re.now im.now }
    requires room { Room 182890310402 x × Room 182890310402 y }
    ensures { Accumulated m 4 result
        ((field m).mul (pow (field m) (table_root m re.now im.now) 720)
        ((field m).add (meant m x) ((field m).neg (meant m y)))) }
{
    if roots::root_at(re, im, 720).im == 1 {
        difference_times_i(x, y)
    } else {
        difference_times_i(y, x)
    }
}
