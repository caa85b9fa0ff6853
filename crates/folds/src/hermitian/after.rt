// Kinds 1 and 2, the Hermitian and the antihermitian lines, after the transform of the way back: R and S apart, and the line from them.
ghost use Rattle.std.specs.Prelude.{◌≡◌, ◌+◌, ◌*◌, ◌<◌, length};
ghost use Rattle.algebra.specs.lines.Folds.{back1};
ghost use Rattle.numbers.specs.Value.{prime, conj, real, pair_of, on_values};
ghost use Rattle.numbers.specs.Bounds.{res};
ghost use Rattle.slices.specs.Pairs.{Below, values_of, list_of};
ghost use Rattle.fold_formulas.specs.FoldFormulas.{stride, line_root, Frame};
ghost use Rattle.folds.specs.FoldedLines.{from_hermitian};

use numbers::Pair;

// The pass after the transform of the way back: the line from the short line, divided by N, c = 1/N.
pub fn unfold<'a>(
    m: u32,
    re: &'a [u32; 2880],
    im: &'a [u32; 2880],
    anti: bool,
    c: u32,
    a: usize,
    fold: &[u32],
    out: &mut [u32],
)
    requires frame { Frame m a re.now im.now × (c < prime m) }
    requires fold_len { (length fold.now ≡ 2 * a) × (length out.old ≡ 2 * a) }
    requires below { Below (prime m) fold.now }
    ensures { out.new ≡ list_of a
        (from_hermitian m anti
        (on_values m back1 a (real m (res m c)) (conj m (line_root m a re.now im.now))
        (values_of m fold.now))) }
{
    let step = 1440 / a;
    for t in 0..a {
        slices::store(out, t, unfold_at(m, re, im, anti, c, step, a, t, fold));
    }
}

// One pair of the line.
fn unfold_at<'a>(
    m: u32,
    re: &'a [u32; 2880],
    im: &'a [u32; 2880],
    anti: bool,
    c: u32,
    step: usize,
    a: usize,
    t: usize,
    fold: &[u32],
) -> Pair
    requires frame { Frame m a re.now im.now × (c < prime m) × (step ≡ stride a) × (t < a) }
    requires fold_len { length fold.now ≡ 2 * a }
    requires below { Below (prime m) fold.now }
    ensures { result ≡ pair_of (from_hermitian m anti
        (on_values m back1 a (real m (res m c)) (conj m (line_root m a re.now im.now))
        (values_of m fold.now)) t) }
{
    let x = slices::get(fold, t);
    if t == 0 {
        // The mate of pair 0 is pair 0 itself: R(0) = (x + conj x)/2 is its real part and S(0) its imaginary part, so that the
        // halves are taken already, and X(0) and X(A) are their sum and difference.
        numbers::scaled(m, c, fold_formulas::hermitian::sum_and_difference(m, x))
    } else {
        let y = numbers::conjugate(m, slices::get(fold, a - t));
        let v = numbers::scaled(
            m,
            c,
            fold_formulas::hermitian::unfold_pair(m, roots::root_at(re, im, step * t), x, y),
        );
        if anti { numbers::times_i(m, v) } else { v }
    }
}
