// Kind 3, the alternating line: X(2A - t) = (-1)^t conj X(t).
//
// The line is lent packed: pair t is X(t) for 0 < t < A. The rule makes X(0) real, and X(A) real for an even A and imaginary for an
// odd one, so each of the two has one number that can differ from 0, and they share pair 0. After the transform the pairs are
// X^(0), .., X^(A - 1), and X^(A + s) = conj X^(s).
//
// Forward, the short line is Y(t) = X(2t) + i X(2t + 1). By the rule the even places transform to a real E(s), and the odd ones to
// i e(-s/N) b(s) with a real b(s), so that X^(s) = E(s) + i b(s) and Y^(s) = E(s) - e(-s/N) b(s): its imaginary part is b(s) times the
// sine and its real part E(s) less b(s) times the cosine of the angle of e(s/N). The sine is 0 at s = 0 alone, where b is summed apart.
pub mod before; // alternating/before.rt
pub mod after; // alternating/after.rt

ghost use Rattle.std.specs.Prelude.{◌≡◌, ◌*◌, length};
ghost use Rattle.algebra.specs.lines.Kinds.{Kind, Kind.alternating, slots};
ghost use Rattle.numbers.specs.Value.{prime};
ghost use Rattle.slices.specs.Pairs.{Below, values_of, list_of};
ghost use Rattle.lengths.specs.Admitted.{Factored};
ghost use Rattle.fold_formulas.specs.FoldFormulas.{Frame, Tangents, folded};

// The forward transform: the line becomes X^(0), .., X^(A - 1). The tables are those of the root and of its half tangents.
pub fn forward<'a>(
    m: u32,
    re: &'a [u32; 2880],
    im: &'a [u32; 2880],
    tan: &'a [u32; 1440],
    factors: u32,
    a: usize,
    line: &mut [u32],
    fold: &mut [u32],
    work: &mut [u32],
)
    requires frame { Frame m a re.now im.now × Tangents m tan.now × Factored factors a }
    requires line_len { (length line.old ≡ 2 * a) × Below (prime m) line.old }
    requires fold_len { (length fold.old ≡ 2 * a) × (length work.old ≡ 2 * a) }
    ensures { line.new ≡ list_of (slots alternating a)
        (folded m 0 a re.now im.now tan.now alternating
        (values_of m line.old)) }
{
    let odd = crate::alternating::before::odd_imaginary_sum(m, a, line);
    crate::alternating::before::short_line(m, a, line, fold);
    plain::transform(m, re, im, factors, a, fold, work);
    crate::alternating::after::finish(m, tan, a, odd, fold, line);
}

// The inverse. The tables are those of the root's conjugate and of its half tangents, which are the negated ones: the root of the line is the conjugate
// of the lent one, and its half tangents are the lent ones negated.
pub fn inverse<'a>(
    m: u32,
    re: &'a [u32; 2880],
    im: &'a [u32; 2880],
    tan: &'a [u32; 1440],
    factors: u32,
    a: usize,
    line: &mut [u32],
    fold: &mut [u32],
    work: &mut [u32],
)
    requires frame { Frame m a re.now im.now × Tangents m tan.now × Factored factors a }
    requires line_len { (length line.old ≡ 2 * a) × Below (prime m) line.old }
    requires fold_len { (length fold.old ≡ 2 * a) × (length work.old ≡ 2 * a) }
    ensures { line.new ≡ list_of (slots alternating a)
        (folded m 1 a re.now im.now tan.now alternating
        (values_of m line.old)) }
{
    let share = fold_formulas::share(m, a);
    let twice = crate::alternating::after::twice_sum(m, line);
    crate::alternating::after::inverse_short_line(m, tan, a, line, fold);
    plain::transform(m, re, im, factors, a, fold, work);
    crate::alternating::after::pack(m, share, twice, a, fold, line);
}
