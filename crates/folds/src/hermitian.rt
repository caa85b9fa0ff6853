// Kinds 1 and 2: the Hermitian lines, X(-t) = conj X(t), and the antihermitian ones, X(-t) = -conj X(t), which are i times those.
//
// A packed line has A pairs: pair 0 holds the two reals X(0) and X(A), the others are X(1) .. X(A - 1). The transform of the short line
// has the N = 2 A real results in order, two in a pair; the way back transforms these, and has the line from that.
pub mod before; // hermitian/before.rt
pub mod after; // hermitian/after.rt

ghost use Rattle.std.specs.Prelude.{◌≡◌, List, ℕ, ◌*◌, length};
ghost use Rattle.algebra.specs.lines.Kinds.{slots};
ghost use Rattle.numbers.specs.Value.{prime};
ghost use Rattle.slices.specs.Pairs.{Below, values_of, list_of};
ghost use Rattle.lengths.specs.Admitted.{Factored};
ghost use Rattle.fold_formulas.specs.FoldFormulas.{Frame, folded};
ghost use Rattle.folds.specs.FoldedLines.{hermitian_kind};

// The transform of a packed line of either kind, antihermitian where `anti` says so. `fold` and `work` are lent for the work.
#[tactic(auto, using(fold_formulas::proofs::Frames::half_divides))]
pub fn forward<'a>(
    m: u32,
    re: &'a [u32; 2880],
    im: &'a [u32; 2880],
    anti: bool,
    factors: u32,
    a: usize,
    line: &mut [u32],
    fold: &mut [u32],
    work: &mut [u32],
)
    requires frame { Frame m a re.now im.now × Factored factors a }
    requires line_len { (length line.old ≡ 2 * a) × (length fold.old ≡ 2 * a) × (length work.old ≡ 2 * a) }
    requires below { Below (prime m) line.old }
    ensures { (tan : List ℕ) → line.new
        ≡ list_of (slots (hermitian_kind anti) a)
        (folded m 0 a re.now im.now tan (hermitian_kind anti)
        (values_of m line.old)) }
{
    crate::hermitian::before::short_line(m, re, im, anti, a, line, fold);
    plain::transform(m, re, im, factors, a, fold, work);
    slices::copy(fold, line, a);
}

// The way back, with the tables of the conjugate root lent.
#[tactic(auto, using(fold_formulas::proofs::Frames::half_divides))]
pub fn inverse<'a>(
    m: u32,
    re: &'a [u32; 2880],
    im: &'a [u32; 2880],
    anti: bool,
    factors: u32,
    a: usize,
    line: &mut [u32],
    fold: &mut [u32],
    work: &mut [u32],
)
    requires frame { Frame m a re.now im.now × Factored factors a }
    requires line_len { (length line.old ≡ 2 * a) × (length fold.old ≡ 2 * a) × (length work.old ≡ 2 * a) }
    requires below { Below (prime m) line.old }
    ensures { (tan : List ℕ) → line.new
        ≡ list_of (slots (hermitian_kind anti) a)
        (folded m 1 a re.now im.now tan (hermitian_kind anti)
        (values_of m line.old)) }
{
    let c = fold_formulas::share(m, a);
    slices::copy(line, fold, a);
    plain::transform(m, re, im, factors, a, fold, work);
    crate::hermitian::after::unfold(m, re, im, anti, c, a, fold, line);
}
