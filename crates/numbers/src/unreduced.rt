// Sums that are not reduced yet: products, sums and differences. 64 bits hold any that a butterfly needs.
//
// One product of two values is at most 182,890,310,402 in either part; `Accumulated` counts in this unit. For a difference the second
// is taken from a number that stands for 0 at either modulus, a multiple of the product of both primes. The bounds that `sum` and
// `apart` ask for keep every result below 2^60.
ghost use Rattle.std.specs.Prelude.{◌≡◌, ℕ, ◌+◌, ◌*◌, ◌≤◌};
ghost use Rattle.algebra.specs.ring.Ring.{Ops};
ghost use Rattle.numbers.specs.Value.{prime, IsModulus, Value, field, real, value_of, pair_of};
ghost use Rattle.numbers.specs.Bounds.{res, Small};
ghost use Rattle.numbers.specs.Unreduced.{Accumulated, meant, Room};

use crate::{Accumulator, Pair};

// A value as a sum of one.
pub fn of_pair(v: Pair) -> Accumulator
    requires { Small 302399 v }
    ensures { Room 182890310402 result × ((m : ℕ) → meant m result ≡ value_of m v) }
{
    Accumulator {
        re: v.re as u64,
        im: v.im as u64,
    }
}

// x y, not reduced.
pub fn product(m: u32, x: Pair, y: Pair) -> Accumulator
    requires { IsModulus m × Small (prime m) x × Small (prime m) y }
    ensures { Room 182890310402 result × (meant m result ≡ (field m).mul (value_of m x) (value_of m y)) }
{
    let p = crate::modulus(m);
    Accumulator {
        re: crate::whole(x.re, y.re) + crate::whole(x.im, p - y.im),
        im: crate::whole(x.re, y.im) + crate::whole(x.im, y.re),
    }
}

// x + y.
pub fn sum(x: Accumulator, y: Accumulator) -> Accumulator
    requires { Room 500000000000000000 x × Room 444158510417000000 y }
    ensures { (m n k : ℕ) (a b : Value m) →
        Accumulated m n x a → Accumulated m k y b →
        Accumulated m (n + k) result ((field m).add a b) }
{
    Accumulator {
        re: x.re + y.re,
        im: x.im + y.im,
    }
}

// x - y: 444,158,510,417,000,000 is 17,000,000 times the product of both primes, and less than 2,428,552 products.
pub fn apart(x: Accumulator, y: Accumulator) -> Accumulator
    requires { Room 500000000000000000 x × Room 444158510417000000 y }
    ensures { (m n k : ℕ) (a b : Value m) → IsModulus m → Accumulated m n x a
        → Accumulated m k y b → Accumulated m (n + 2428552) result ((field m).add a ((field m).neg b)) }
{
    Accumulator {
        re: x.re + (444158510417000000 - y.re),
        im: x.im + (444158510417000000 - y.im),
    }
}

// The residue c times x, of four products at most.
pub fn scaled(c: u32, x: Accumulator) -> Accumulator
    requires { (c ≤ 302399) × Room 731561241608 x }
    ensures { (m n : ℕ) (a : Value m) →
        Accumulated m n x a →
        Accumulated m (302399 * n) result ((field m).mul (real m (res m c)) a) }
{
    Accumulator {
        re: (c as u64) * x.re,
        im: (c as u64) * x.im,
    }
}

// x + y, reduced.
pub fn total(m: u32, x: Accumulator, y: Accumulator) -> Pair
    requires modulus { IsModulus m }
    requires room { Room 500000000000000000 x × Room 444158510417000000 y }
    ensures { (n k : ℕ) (a b : Value m) →
        Accumulated m n x a → Accumulated m k y b →
        result ≡ pair_of ((field m).add a b) }
{
    crate::reduced_below(m, sum(x, y))
}

// x - y, reduced.
pub fn rest(m: u32, x: Accumulator, y: Accumulator) -> Pair
    requires modulus { IsModulus m }
    requires room { Room 500000000000000000 x × Room 444158510417000000 y }
    ensures { (n k : ℕ) (a b : Value m) →
        Accumulated m n x a → Accumulated m k y b →
        result ≡ pair_of ((field m).add a ((field m).neg b)) }
{
    crate::reduced_below(m, apart(x, y))
}

// x + y + e d, reduced once.
pub fn plus_product(m: u32, x: Pair, y: Pair, e: Pair, d: Pair) -> Pair
    requires { IsModulus m × Small (prime m) x × Small (prime m) y × Small (prime m) e × Small (prime m) d }
    ensures { result
        ≡ pair_of
        ((field m).add ((field m).add (value_of m x) (value_of m y)) ((field m).mul (value_of m e) (value_of m d))) }
{
    total(m, sum(of_pair(x), of_pair(y)), product(m, e, d))
}
