// Residues modulo one of two primes, and values a + b i over them.
//
// Every function takes the modulus number m: 1 for 86,399 and 2 for 302,399. Contracts speak of the residues and
// values that the numbers stand for. Products are formed in 64 bits and reduced once.
#![tactic(auto)]

pub mod reciprocals; // reciprocals.rt
pub mod unreduced; // unreduced.rt
pub mod division; // division.rt

ghost use Rattle.std.specs.Prelude.{◌≡◌, ℕ, ◌*◌, ◌<◌, ◌≤◌};
ghost use Rattle.algebra.specs.ring.Ring.{Ops, Res};
ghost use Rattle.numbers.specs.Value.{prime, is_modulus, IsModulus, ring, field, conj, i, value, half, real};
ghost use Rattle.numbers.specs.Value.{value_of, pair_of};
ghost use Rattle.numbers.specs.Bounds.{res, Small};
ghost use Rattle.numbers.specs.Unreduced.{Accumulated};

// A value of the paper: re + im i.
#[derive(Clone, Copy, Debug, PartialEq, Eq)]
pub struct Pair {
    pub re: u32,
    pub im: u32,
}

// Sums that are not reduced yet.
#[derive(Clone, Copy)]
pub struct Accumulator {
    pub re: u64,
    pub im: u64,
}

// A modulus number is 1 or 2.
pub fn is_modulus(m: u32) -> bool
    ensures { result ≡ is_modulus m }
{
    m == 1 || m == 2
}

pub fn modulus(m: u32) -> u32
    requires { IsModulus m }
    ensures { (result ≡ prime m) × (86399 ≤ result) × (result ≤ 302399) }
{
    if m == 1 { 86399 } else { 302399 }
}

// The residue of x. The divisors are constants: twice as fast as a division by a variable.
pub fn reduce(m: u32, x: u64) -> u32
    requires { IsModulus m }
    ensures { result ≡ (res m x).val }
{
    if m == 1 {
        (x % 86399) as u32
    } else {
        (x % 302399) as u32
    }
}

// The residue of an x below 2^60, by multiplications alone. `quotient` holds for no greater x, so that `reduce` stands beside this for those.
pub fn reduce_below(m: u32, x: u64) -> u32
    requires { IsModulus m × (x < 1152921504606846976) }
    ensures { result ≡ (res m x).val }
{
    (x - crate::division::quotient(m, x) * (modulus(m) as u64)) as u32
}

// The sum is compared and reduced by what b lacks of the prime. Both results are ready with the comparison then, and the compiler chooses
// between them; of a + b less 0 or p, where the prime is chosen at run time, it makes a jump that depends on the numbers.
pub fn add(m: u32, a: u32, b: u32) -> u32
    requires { IsModulus m × (a < prime m) × (b < prime m) }
    ensures { result ≡ ((ring m).add (res m a) (res m b)).val }
{
    let rest = modulus(m) - b;
    if a < rest { a + b } else { a - rest }
}

pub fn sub(m: u32, a: u32, b: u32) -> u32
    requires { IsModulus m × (a < prime m) × (b < prime m) }
    ensures { result ≡ ((ring m).add (res m a) ((ring m).neg (res m b))).val }
{
    let p = modulus(m);
    if b <= a { a - b } else { a + (p - b) }
}

pub fn neg(m: u32, a: u32) -> u32
    requires { IsModulus m × (a < prime m) }
    ensures { result ≡ ((ring m).neg (res m a)).val }
{
    let p = modulus(m);
    if a == 0 { 0 } else { p - a }
}

// The whole product of two residues.
pub fn whole(a: u32, b: u32) -> u64
    requires { (a ≤ 302399) × (b ≤ 302399) }
    ensures { (result ≡ a * b) × (result ≤ 91445155201) }
{
    (a as u64) * (b as u64)
}

pub fn mul(m: u32, a: u32, b: u32) -> u32
    requires { IsModulus m × (a < prime m) × (b < prime m) }
    ensures { result ≡ ((ring m).mul (res m a) (res m b)).val }
{
    reduce_below(m, whole(a, b))
}

// Half of a residue: an odd one is made even by the odd prime.
pub fn halve(m: u32, a: u32) -> u32
    requires { IsModulus m × (a < prime m) }
    ensures { result ≡ ((ring m).mul (half m) (res m a)).val }
{
    let p = modulus(m);
    if a % 2 == 0 { a / 2 } else { (a + p) / 2 }
}

pub fn sum(m: u32, a: Pair, b: Pair) -> Pair
    requires { IsModulus m × Small (prime m) a × Small (prime m) b }
    ensures { result ≡ pair_of ((field m).add (value_of m a) (value_of m b)) }
{
    Pair {
        re: add(m, a.re, b.re),
        im: add(m, a.im, b.im),
    }
}

pub fn difference(m: u32, a: Pair, b: Pair) -> Pair
    requires { IsModulus m × Small (prime m) a × Small (prime m) b }
    ensures { result ≡ pair_of ((field m).add (value_of m a) ((field m).neg (value_of m b))) }
{
    Pair {
        re: sub(m, a.re, b.re),
        im: sub(m, a.im, b.im),
    }
}

pub fn negated(m: u32, a: Pair) -> Pair
    requires { IsModulus m × Small (prime m) a }
    ensures { result ≡ pair_of ((field m).neg (value_of m a)) }
{
    Pair {
        re: neg(m, a.re),
        im: neg(m, a.im),
    }
}

pub fn conjugate(m: u32, a: Pair) -> Pair
    requires { IsModulus m × Small (prime m) a }
    ensures { result ≡ pair_of (conj m (value_of m a)) }
{
    Pair {
        re: a.re,
        im: neg(m, a.im),
    }
}

pub fn times_i(m: u32, a: Pair) -> Pair
    requires { IsModulus m × Small (prime m) a }
    ensures { result ≡ pair_of ((field m).mul (i m) (value_of m a)) }
{
    Pair {
        re: neg(m, a.im),
        im: a.re,
    }
}

// Over i: minus i times.
pub fn over_i(m: u32, a: Pair) -> Pair
    requires { IsModulus m × Small (prime m) a }
    ensures { result ≡ pair_of ((field m).mul ((field m).neg (i m)) (value_of m a)) }
{
    negated(m, times_i(m, a))
}

// A value times the residue c.
pub fn scaled(m: u32, c: u32, a: Pair) -> Pair
    requires { IsModulus m × (c < prime m) × Small (prime m) a }
    ensures { result ≡ pair_of ((field m).mul (real m (res m c)) (value_of m a)) }
{
    Pair {
        re: mul(m, c, a.re),
        im: mul(m, c, a.im),
    }
}

pub fn halved(m: u32, a: Pair) -> Pair
    requires { IsModulus m × Small (prime m) a }
    ensures { result ≡ pair_of ((field m).mul (real m (half m)) (value_of m a)) }
{
    Pair {
        re: halve(m, a.re),
        im: halve(m, a.im),
    }
}

// The empty sum, at either modulus.
pub fn zero_accumulator() -> Accumulator
    ensures { (m : ℕ) → Accumulated m 0 result (field m).zer }
{
    Accumulator { re: 0, im: 0 }
}

// The sum, reduced once.
pub fn reduced(m: u32, a: Accumulator) -> Pair
    requires { IsModulus m }
    ensures { result ≡ pair_of (value m a.re a.im) }
{
    Pair {
        re: reduce(m, a.re),
        im: reduce(m, a.im),
    }
}

// The same of sums below 2^60, where `reduce_below` does.
pub fn reduced_below(m: u32, a: Accumulator) -> Pair
    requires { IsModulus m × (a.re < 1152921504606846976) × (a.im < 1152921504606846976) }
    ensures { result ≡ pair_of (value m a.re a.im) }
{
    Pair {
        re: reduce_below(m, a.re),
        im: reduce_below(m, a.im),
    }
}
