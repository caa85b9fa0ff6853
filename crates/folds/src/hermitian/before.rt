// Kinds 1 and 2, the Hermitian and the antihermitian lines, before their forward transform: the short line.
//
// A packed line has A pairs: pair 0 holds the two reals X(0) and X(A), the others are X(1) .. X(A - 1). The value at t of the short line is
// R(t) + i S(t) with R = X(t) + X(A + t) and S = e(t/N)(X(t) - X(A + t)), where X(A + t) = conj X(A - t). Its transform of A points
// has the N = 2 A real results in order, two in a pair: those of R at even places, of S at odd.
ghost use Rattle.std.specs.Prelude.{◌≡◌, ◌+◌, ◌*◌, ◌<◌, length};
ghost use Rattle.algebra.specs.lines.Folds.{fold1};
ghost use Rattle.numbers.specs.Value.{prime, IsModulus, pair_of, on_values};
ghost use Rattle.slices.specs.Pairs.{Below, values_of, list_of};
ghost use Rattle.fold_formulas.specs.FoldFormulas.{stride, line_root, Frame};
ghost use Rattle.folds.specs.FoldedLines.{to_hermitian};

use numbers::Pair;

// The short line.
pub fn short_line<'a>(
    m: u32,
    re: &'a [u32; 2880],
    im: &'a [u32; 2880],
    anti: bool,
    a: usize,
    line: &[u32],
    out: &mut [u32],
)
    requires frame { Frame m a re.now im.now }
    requires line_len { (length line.now ≡ 2 * a) × (length out.old ≡ 2 * a) }
    requires below { Below (prime m) line.now }
    ensures { out.new ≡ list_of a
        (on_values m fold1 a (line_root m a re.now im.now)
        (to_hermitian m anti (values_of m line.now))) }
{
    let step = 1440 / a;
    for t in 0..a {
        slices::store(out, t, short_at(m, re, im, anti, step, a, t, line));
    }
}

// One value of it.
fn short_at<'a>(
    m: u32,
    re: &'a [u32; 2880],
    im: &'a [u32; 2880],
    anti: bool,
    step: usize,
    a: usize,
    t: usize,
    line: &[u32],
) -> Pair
    requires frame { Frame m a re.now im.now × (step ≡ stride a) × (t < a) }
    requires line_len { length line.now ≡ 2 * a }
    requires below { Below (prime m) line.now }
    ensures { result ≡ pair_of (on_values m fold1 a (line_root m a re.now im.now)
        (to_hermitian m anti (values_of m line.now)) t) }
{
    let x = hermitian_at(m, anti, t, line);
    if t == 0 {
        // The mate of X(0) is X(A), which shares its pair: R(0) and S(0) are their sum and difference, since e(0) is 1.
        fold_formulas::hermitian::sum_and_difference(m, x)
    } else {
        let y = numbers::conjugate(m, hermitian_at(m, anti, a - t, line));
        fold_formulas::hermitian::fold_pair(m, roots::root_at(re, im, step * t), x, y)
    }
}

// The pair at place t of the Hermitian line that is worked.
fn hermitian_at(m: u32, anti: bool, t: usize, line: &[u32]) -> Pair
    requires modulus { IsModulus m × (2 * t + 1 < length line.now) }
    requires below { Below (prime m) line.now }
    ensures { result ≡ pair_of (to_hermitian m anti (values_of m line.now) t) }
{
    let v = slices::get(line, t);
    if t == 0 {
        // The two numbers of pair 0 are reals of the Hermitian line as they are.
        v
    } else {
        fold_formulas::hermitian::to_hermitian(m, anti, v)
    }
}
