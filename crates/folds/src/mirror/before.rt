// Kinds 4 and 5, the symmetric and the antisymmetric line, before their transform: the whole line read from its stored half, the short line, and
// the sum of its odd places.
//
// Both are one piece of code, told apart by the place `first` of the first value that is stored: 0 for a symmetric line, which stores
// the places 0 .. A, and 1 for an antisymmetric one, which is zero at 0 and A and stores 1 .. A - 1. The short line is Y(t) = X(2 t) + X(2 t + 1).
ghost use Rattle.std.specs.Prelude.{◌≡◌, ℕ, ◌+◌, ◌-◌, ◌*◌, ◌<◌, ◌≤◌, length};
ghost use Rattle.algebra.specs.ring.Ring.{Ops, sum};
ghost use Rattle.algebra.specs.lines.Packings.{unfold5};
ghost use Rattle.algebra.specs.lines.Folds.{mirror_point};
ghost use Rattle.numbers.specs.Value.{prime, IsModulus, Value, field, half, value_of, pair_of, on_values};
ghost use Rattle.numbers.specs.Unreduced.{Accumulated};
ghost use Rattle.slices.specs.Pairs.{Below, values_of, list_of};
ghost use Rattle.folds.specs.FoldedLines.{stored_count, whole_line};

use numbers::{Accumulator, Pair};

// The short line.
pub fn short_line(m: u32, first: usize, a: usize, line: &[u32], fold: &mut [u32])
    requires modulus { IsModulus m × (first ≤ 1) }
    requires line_len { (length line.now ≡ 2 * stored_count a first) × (length fold.old ≡ 2 * a) }
    requires below { Below (prime m) line.now }
    ensures { fold.new
        ≡ list_of a (mirror_point (field m) (whole_line m a first line.now)) }
{
    for t in 0..a {
        slices::store(fold, t, short_at(m, first, a, line, t));
    }
}

// The sum of the line's odd places. In an antisymmetric line they cancel in pairs, as the mirror image of an odd place is odd.
pub fn odd_sum(m: u32, first: usize, a: usize, line: &[u32]) -> Pair
    requires modulus { IsModulus m × (first ≤ 1) × (0 < a) × (a ≤ 1440) }
    requires line_len { length line.now ≡ 2 * stored_count a first }
    requires below { Below (prime m) line.now }
    ensures { result ≡ pair_of (sum (field m) a (λ t. whole_line m a first line.now (2 * t + 1))) }
{
    if first == 1 {
        return Pair { re: 0, im: 0 };
    }
    let mut s = numbers::zero_accumulator();
    for t in 0..a {
        s = plus(s, value_at(m, first, a, line, 2 * t + 1));
    }
    numbers::reduced(m, s)
}

// The short line at place t: X(2 t) + X(2 t + 1).
fn short_at(m: u32, first: usize, a: usize, line: &[u32], t: usize) -> Pair
    requires modulus { IsModulus m × (first ≤ 1) × (t < a) }
    requires line_len { length line.now ≡ 2 * stored_count a first }
    requires below { Below (prime m) line.now }
    ensures { result ≡ pair_of (mirror_point (field m) (whole_line m a first line.now) t) }
{
    let even = value_at(m, first, a, line, 2 * t);
    let odd = value_at(m, first, a, line, 2 * t + 1);
    numbers::sum(m, even, odd)
}

// The value at place j of the whole line.
fn value_at(m: u32, first: usize, a: usize, line: &[u32], j: usize) -> Pair
    requires modulus { IsModulus m × (first ≤ 1) × (0 < a) × (j < 2 * a) }
    requires line_len { length line.now ≡ 2 * stored_count a first }
    requires below { Below (prime m) line.now }
    ensures { result ≡ pair_of (whole_line m a first line.now j) }
{
    if first == 0 {
        // the second half of a symmetric line is the first read backwards
        if j <= a {
            slices::get(line, j)
        } else {
            slices::get(line, 2 * a - j)
        }
    } else {
        antisymmetric_at(m, a, line, j)
    }
}

// The value at place j of an antisymmetric line: zero at the two places that are their own mirror images.
fn antisymmetric_at(m: u32, a: usize, line: &[u32], j: usize) -> Pair
    requires modulus { IsModulus m }
    requires a_nonzero { (0 < a) × (j < 2 * a) × (length line.now ≡ 2 * (a - 1)) }
    requires below { Below (prime m) line.now }
    ensures { result ≡ pair_of (on_values m unfold5 a (λ t. values_of m line.now (t - 1)) j) }
{
    if j == 0 {
        return Pair { re: 0, im: 0 };
    }
    if j == a {
        return Pair { re: 0, im: 0 };
    }
    if j < a {
        return slices::get(line, j - 1);
    }
    numbers::negated(m, slices::get(line, 2 * a - j - 1))
}

// One value more in a sum that is not reduced.
fn plus(s: Accumulator, x: Pair) -> Accumulator
    requires re_bound { (x.re ≤ 302399) × (x.im ≤ 302399) }
    requires re_bound_2 { (s.re ≤ 1000000000000000000) × (s.im ≤ 1000000000000000000) }
    ensures { (m n : ℕ) (z : Value m) →
        Accumulated m n s z →
        Accumulated m (n + 1) result ((field m).add z (value_of m x)) }
{
    Accumulator {
        re: s.re + x.re as u64,
        im: s.im + x.im as u64,
    }
}
