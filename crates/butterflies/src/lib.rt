// The butterflies of equation (3) of document 001: the outer sums of B values, for B of 2, 3, 4 and 5.
//
// They are functions of values: a step of the transform (module `radix`) says where those stand. A butterfly takes values that are not
// reduced, such as products with their factors e(b𝐚/AB), adds in 64 bits, and reduces each of its results once.
//
// e(1/2) is -1 and e(1/4) is i or -i, so that radix 2 and 4 need no product. At radix 3 and 5 the powers of w = e(1/B) come in conjugate
// pairs, w^(B - k) = c - i s where w^k = c + i s: the values a and b that they multiply enter every sum as c (a + b) and s i (a - b), and
// the sums 1 and B - 1, or 2 and 3, differ in the sign of the second.
#![tactic(auto)]

pub mod quarter_turn; // quarter_turn.rt
pub mod twiddle; // twiddle.rt
pub mod radix; // radix.rt

ghost use Rattle.std.specs.Prelude.{◌≡◌, ℕ, ◌+◌, ◌*◌, ◌≤◌};
ghost use Rattle.algebra.specs.ring.Ring.{Ops, pow};
ghost use Rattle.numbers.specs.Value.{IsModulus, Value, field, real, pair_of};
ghost use Rattle.numbers.specs.Bounds.{res};
ghost use Rattle.numbers.specs.Unreduced.{Accumulated, meant, Room};
ghost use Rattle.roots.specs.Table.{table_root, RootTable};
ghost use Rattle.butterflies.specs.Equation3.{EquationThree};
ghost use Rattle.butterflies.specs.Butterflies.{of_two, of_three, of_four, of_five, of_two_sums, of_three_sums};
ghost use Rattle.butterflies.specs.Butterflies.{of_four_sums, of_five_sums, AllRoom, Butterfly, even_part, odd_part};

use numbers::{Accumulator, Pair};

// What a butterfly takes: values that are not reduced. Each count has its own butterfly, whose formula names them one by one: an array with
// the count as a parameter would share nothing but the reading.
#[derive(Clone, Copy)]
pub struct TwoSums {
    pub x0: Accumulator,
    pub x1: Accumulator,
}

#[derive(Clone, Copy)]
pub struct ThreeSums {
    pub x0: Accumulator,
    pub x1: Accumulator,
    pub x2: Accumulator,
}

#[derive(Clone, Copy)]
pub struct FourSums {
    pub x0: Accumulator,
    pub x1: Accumulator,
    pub x2: Accumulator,
    pub x3: Accumulator,
}

#[derive(Clone, Copy)]
pub struct FiveSums {
    pub x0: Accumulator,
    pub x1: Accumulator,
    pub x2: Accumulator,
    pub x3: Accumulator,
    pub x4: Accumulator,
}

// What it gives. Radix 3 to 5 give pairs of sums that differ in one sign: those of 3 and 5 belong to conjugate powers.
#[derive(Clone, Copy)]
pub struct TwoPairs {
    pub x0: Pair,
    pub x1: Pair,
}

// The sum 0, and the sums 1 and 2.
#[derive(Clone, Copy)]
pub struct ThreePairs {
    pub x0: Pair,
    pub mates: TwoPairs,
}

// The sums 0 and 2, and the sums 1 and 3.
#[derive(Clone, Copy)]
pub struct FourPairs {
    pub near: TwoPairs,
    pub far: TwoPairs,
}

// The sum 0, the sums 1 and 4, and the sums 2 and 3.
#[derive(Clone, Copy)]
pub struct FivePairs {
    pub x0: Pair,
    pub near: TwoPairs,
    pub far: TwoPairs,
}

// Radix 2.
pub fn two(m: u32, v: TwoSums) -> TwoPairs
    requires { IsModulus m × AllRoom 2 (of_two_sums v) }
    ensures { (W : Value m) →
        pow (field m) W 1440 ≡ (field m).neg (field m).one →
        Butterfly m W 2 (λ b. meant m (of_two_sums v b)) (of_two result) }
{
    both_ways(m, v.x0, v.x1)
}

// x + y and x - y, reduced.
fn both_ways(m: u32, x: Accumulator, y: Accumulator) -> TwoPairs
    requires modulus { IsModulus m }
    requires room { Room 500000000000000000 x × Room 444158510417000000 y }
    ensures { (n k : ℕ) (a b : Value m) →
        Accumulated m n x a → Accumulated m k y b →
        (result.x0 ≡ pair_of ((field m).add a b))
        × (result.x1 ≡ pair_of ((field m).add a ((field m).neg b))) }
{
    TwoPairs {
        x0: numbers::unreduced::total(m, x, y),
        x1: numbers::unreduced::rest(m, x, y),
    }
}

// Radix 3: w = e(1/3).
pub fn three<'a>(m: u32, re: &'a [u32; 2880], im: &'a [u32; 2880], v: ThreeSums) -> ThreePairs
    requires modulus { IsModulus m × RootTable m re.now im.now }
    requires all_room { AllRoom 3 (of_three_sums v) }
    ensures { Butterfly m (table_root m re.now im.now) 3
        (λ b. meant m (of_three_sums v b)) (of_three result) }
{
    let w = roots::root_at(re, im, 960);
    let t = numbers::unreduced::sum(v.x1, v.x2);
    let even = numbers::unreduced::sum(v.x0, numbers::unreduced::scaled(w.re, t));
    let odd = numbers::unreduced::scaled(w.im, crate::quarter_turn::difference_times_i(v.x1, v.x2));
    ThreePairs {
        x0: numbers::unreduced::total(m, v.x0, t),
        mates: both_ways(m, even, odd),
    }
}

// Radix 4.
pub fn four<'a>(m: u32, re: &'a [u32; 2880], im: &'a [u32; 2880], v: FourSums) -> FourPairs
    requires modulus { IsModulus m × RootTable m re.now im.now }
    requires all_room { AllRoom 4 (of_four_sums v) }
    ensures { Butterfly m (table_root m re.now im.now) 4 (λ b. meant m (of_four_sums v b))
        (of_four result) }
{
    let near = both_ways(
        m,
        numbers::unreduced::sum(v.x0, v.x2),
        numbers::unreduced::sum(v.x1, v.x3),
    );
    let far = both_ways(
        m,
        numbers::unreduced::apart(v.x0, v.x2),
        crate::quarter_turn::difference_times_quarter(m, re, im, v.x1, v.x3),
    );
    FourPairs { near, far }
}

// Radix 5: w = e(1/5), z = e(2/5). In the sums 2 and 3 they change places, since e(4/5) is the conjugate of w.
pub fn five<'a>(m: u32, re: &'a [u32; 2880], im: &'a [u32; 2880], v: FiveSums) -> FivePairs
    requires modulus { IsModulus m × RootTable m re.now im.now }
    requires all_room { AllRoom 5 (of_five_sums v) }
    ensures { Butterfly m (table_root m re.now im.now) 5 (λ b. meant m (of_five_sums v b))
        (of_five result) }
{
    let w = roots::root_at(re, im, 576);
    let z = roots::root_at(re, im, 1152);
    let all = numbers::unreduced::sum(v.x0, numbers::unreduced::sum(v.x1, v.x4));
    FivePairs {
        x0: numbers::unreduced::total(m, all, numbers::unreduced::sum(v.x2, v.x3)),
        near: conjugates(m, w, z, v.x0, v.x1, v.x2, v.x3, v.x4),
        far: conjugates(m, z, w, v.x0, v.x1, v.x3, v.x2, v.x4),
    }
}

// a + w b + z c + z' d + w' e, where w' and z' are the conjugates of w and z, and the same with these exchanged for w and z.
fn conjugates(
    m: u32,
    w: Pair,
    z: Pair,
    a: Accumulator,
    b: Accumulator,
    c: Accumulator,
    d: Accumulator,
    e: Accumulator,
) -> TwoPairs
    requires modulus { IsModulus m
        × (w.re ≤ 302399)
        × (w.im ≤ 302399)
        × (z.re ≤ 302399)
        × (z.im ≤ 302399) }
    requires room { Room 182890310402 a
        × Room 182890310402 b
        × Room 182890310402 c
        × Room 182890310402 d
        × Room 182890310402 e }
    ensures { (result.x0
        ≡ pair_of ((field m).add (even_part m w z (meant m a) (meant m b) (meant m c) (meant m d) (meant m e))
        (odd_part m w z (meant m b) (meant m c) (meant m d) (meant m e))))
        × (result.x1 ≡ pair_of ((field m).add (even_part m w z (meant m a) (meant m b) (meant m c) (meant m d) (meant m e))
        ((field m).neg (odd_part m w z (meant m b) (meant m c) (meant m d) (meant m e))))) }
{
    let even = numbers::unreduced::sum(
        a,
        weighed(
            w.re,
            numbers::unreduced::sum(b, e),
            z.re,
            numbers::unreduced::sum(c, d),
        ),
    );
    let odd = weighed(
        w.im,
        crate::quarter_turn::difference_times_i(b, e),
        z.im,
        crate::quarter_turn::difference_times_i(c, d),
    );
    both_ways(m, even, odd)
}

// c t + d s.
fn weighed(c: u32, t: Accumulator, d: u32, s: Accumulator) -> Accumulator
    requires { (c ≤ 302399) × (d ≤ 302399) × Room 731561241608 t × Room 731561241608 s }
    ensures { (m n k : ℕ) (x y : Value m) → Accumulated m n t x → Accumulated m k s y
        → Accumulated m (302399 * n + 302399 * k) result
        ((field m).add ((field m).mul (real m (res m c)) x) ((field m).mul (real m (res m d)) y)) }
{
    numbers::unreduced::sum(
        numbers::unreduced::scaled(c, t),
        numbers::unreduced::scaled(d, s),
    )
}

// Equation (3): the inner sum, the factor and the outer sum together are the direct sum.
pub fn three_parts()
    ensures { EquationThree }
{}
