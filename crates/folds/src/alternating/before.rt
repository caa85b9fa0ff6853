// Kind 3, the alternating line, before its forward transform: the whole line read from its packed pairs, and the short line.
//
// Pair t is X(t) for 0 < t < A, and pair 0 has the one number of X(0) and the one of X(A) that can differ from 0. The rule
// X(2A - t) = (-1)^t conj X(t) gives all the others.
ghost use Rattle.std.specs.Prelude.{◌≡◌, ◌+◌, ◌*◌, ◌<◌, ◌≤◌, length};
ghost use Rattle.algebra.specs.ring.Ring.{sum};
ghost use Rattle.algebra.specs.lines.Kinds.{im};
ghost use Rattle.algebra.specs.lines.Packings.{unfold_b3};
ghost use Rattle.algebra.specs.lines.Folds.{alternating_point};
ghost use Rattle.numbers.specs.Value.{prime, IsModulus, field, conj, i, real, pair_of, on_values};
ghost use Rattle.numbers.specs.Bounds.{res};
ghost use Rattle.slices.specs.Pairs.{Below, values_of, list_of};

use numbers::Pair;

// The short line, before its transform: X(2t) + i X(2t + 1).
pub fn short_line(m: u32, a: usize, line: &[u32], fold: &mut [u32])
    requires modulus { IsModulus m }
    requires line_len { (length line.now ≡ 2 * a) × Below (prime m) line.now }
    requires fold_len { length fold.old ≡ 2 * a }
    ensures { fold.new
        ≡ list_of a (alternating_point (field m) (i m) (on_values m unfold_b3 a (values_of m line.now))) }
{
    for t in 0..a {
        slices::store(fold, t, short_at(m, a, line, t));
    }
}

// b(0) of X^(0) = E(0) + i b(0): the sum of the imaginary parts at the odd places. The short transform at s = 0 is
// E(0) - b(0) and does not tell the two apart.
pub fn odd_imaginary_sum(m: u32, a: usize, line: &[u32]) -> u32
    requires modulus { IsModulus m × (a ≤ 1440) }
    requires line_len { (length line.now ≡ 2 * a) × Below (prime m) line.now }
    ensures { (result < prime m) × (real m (res m result)
        ≡ sum (field m) a
        (λ t. on_values m im (on_values m unfold_b3 a (values_of m line.now) (2 * t + 1)))) }
{
    let mut s: u64 = 0;
    for t in 0..a {
        s += value_at(m, a, line, 2 * t + 1).im as u64;
    }
    numbers::reduce(m, s)
}

// One value of the short line.
fn short_at(m: u32, a: usize, line: &[u32], t: usize) -> Pair
    requires modulus { IsModulus m × (t < a) }
    requires line_len { (length line.now ≡ 2 * a) × Below (prime m) line.now }
    ensures { result
        ≡ pair_of (alternating_point (field m) (i m) (on_values m unfold_b3 a (values_of m line.now)) t) }
{
    let even = value_at(m, a, line, 2 * t);
    let odd = value_at(m, a, line, 2 * t + 1);
    numbers::sum(m, even, numbers::times_i(m, odd))
}

// The value at place j of the whole line.
fn value_at(m: u32, a: usize, line: &[u32], j: usize) -> Pair
    requires modulus { IsModulus m × (j < 2 * a) }
    requires line_len { (length line.now ≡ 2 * a) × Below (prime m) line.now }
    ensures { result ≡ pair_of (on_values m unfold_b3 a (values_of m line.now) j) }
{
    if j == 0 {
        // X(0) = conj X(0): the first number of pair 0 is all of it
        let v = slices::get(line, 0);
        Pair { re: v.re, im: 0 }
    } else if j < a {
        slices::get(line, j)
    } else if j == a {
        // X(A) = (-1)^A conj X(A): the second number of pair 0 is all of it
        let v = slices::get(line, 0);
        fold_formulas::alternating::middle(a, v.im)
    } else {
        // X(j) = (-1)^u conj X(u), u = 2A - j, and u is even where j is
        let v = numbers::conjugate(m, slices::get(line, 2 * a - j));
        if j % 2 == 0 {
            v
        } else {
            numbers::negated(m, v)
        }
    }
}
