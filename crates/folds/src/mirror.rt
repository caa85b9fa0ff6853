// Kinds 4 and 5: the symmetric and the antisymmetric line.
//
// Both are one piece of code, told apart by the place `first` of the first value that is stored: 0 for a symmetric line, which stores
// the places 0 .. A, and 1 for an antisymmetric one, which is zero at 0 and A and stores 1 .. A - 1. No two values share a pair, before
// the transform or after it: the transform has the rule of its line, and the way back is the way forward with the other root, divided by N.
pub mod before; // mirror/before.rt
pub mod after; // mirror/after.rt

ghost use Rattle.std.specs.Prelude.{◌≡◌, ◌*◌, ◌≤◌, length};
ghost use Rattle.algebra.specs.lines.Kinds.{slots};
ghost use Rattle.numbers.specs.Value.{prime};
ghost use Rattle.slices.specs.Pairs.{Below, values_of, list_of};
ghost use Rattle.lengths.specs.Admitted.{Factored};
ghost use Rattle.fold_formulas.specs.FoldFormulas.{Frame, Tangents, folded};
ghost use Rattle.folds.specs.FoldedLines.{mirror_kind};

// The transform of a line, from the packed half to the packed half.
pub fn forward<'a>(
    m: u32,
    re: &'a [u32; 2880],
    im: &'a [u32; 2880],
    tan: &[u32; 1440],
    factors: u32,
    first: usize,
    a: usize,
    line: &mut [u32],
    fold: &mut [u32],
    work: &mut [u32],
)
    requires frame { Frame m a re.now im.now × Tangents m tan.now × Factored factors a × (first ≤ 1) }
    requires line_len { (length line.old ≡ 2 * slots (mirror_kind first) a)
        × (length fold.old ≡ 2 * a)
        × (length work.old ≡ 2 * a) }
    requires below { Below (prime m) line.old }
    ensures { line.new ≡ list_of (slots (mirror_kind first) a)
        (folded m 0 a re.now im.now tan.now (mirror_kind first)
        (values_of m line.old)) }
{
    let odds = crate::mirror::before::odd_sum(m, first, a, line);
    crate::mirror::before::short_line(m, first, a, line, fold);
    plain::transform(m, re, im, factors, a, fold, work);
    crate::mirror::after::finish(m, tan, first, a, odds, fold, line);
}

// The inverse of a line, divided by N: lent are the tables of the conjugate root and the half tangents of that, which are the negated ones.
// So e(1/N) is the conjugate of the lent root's, and tau the lent half tangent negated.
pub fn inverse<'a>(
    m: u32,
    re: &'a [u32; 2880],
    im: &'a [u32; 2880],
    tan: &[u32; 1440],
    factors: u32,
    first: usize,
    a: usize,
    line: &mut [u32],
    fold: &mut [u32],
    work: &mut [u32],
)
    requires frame { Frame m a re.now im.now × Tangents m tan.now × Factored factors a × (first ≤ 1) }
    requires line_len { (length line.old ≡ 2 * slots (mirror_kind first) a)
        × (length fold.old ≡ 2 * a)
        × (length work.old ≡ 2 * a) }
    requires below { Below (prime m) line.old }
    ensures { line.new ≡ list_of (slots (mirror_kind first) a)
        (folded m 1 a re.now im.now tan.now (mirror_kind first)
        (values_of m line.old)) }
{
    let c = fold_formulas::share(m, a);
    let n = a + 1 - 2 * first;
    forward(m, re, im, tan, factors, first, a, line, fold, work);
    plain::scale::scale(m, c, n, line);
}
