// A line of any kind, transformed in place with the tables that are lent: forward with those of the root, direction 0, and back with
// those of its conjugate, direction 1, divided by N. This is called for every line, of the line's own call and of a volume's.
//
// A plain line is transformed over its N = 2 A points, by the list of twice the length; every other kind over A points, by its fold.
ghost use Rattle.std.specs.Prelude.{◌≡◌, ◌*◌, ◌<◌, ◌≤◌, length};
ghost use Rattle.numbers.specs.Value.{prime, IsModulus};
ghost use Rattle.slices.specs.Pairs.{Below};
ghost use Rattle.lengths.specs.Lengths.{pair_count, octal_digits};
ghost use Rattle.line.specs.Line.{transformed};
ghost use Rattle.line.specs.EverySplit.{plain_work};
ghost use Rattle.line.specs.Tables.{TablesOf, LineTables};
ghost use Rattle.lengths.specs.Admitted.{AdmittedLength, FactorList};

use folds::{alternating, hermitian, mirror};

// The slices `fold` and `work` are lent for the work, and left with anything, but that of a plain line `work` tells the list by which it
// went. A plain line uses neither the half tangents nor `fold`.
pub fn transform<'a>(
    m: u32,
    kind: u32,
    direction: u32,
    re: &'a [u32; 2880],
    im: &'a [u32; 2880],
    tan: &'a [u32; 1440],
    factors: u32,
    a: usize,
    line: &mut [u32],
    fold: &mut [u32],
    work: &mut [u32],
)
    requires modulus { IsModulus m
        × (kind < 6)
        × (direction < 2)
        × LineTables m kind direction re.now im.now tan.now }
    requires admitted_length { AdmittedLength (2 * a) × FactorList (2 * a) factors }
    requires line_len { (length line.old ≡ 2 * pair_count kind (2 * a)) × Below (prime m) line.old }
    requires a_in_bounds { (2 * a ≤ length fold.old) × (4 * a ≤ length work.old) }
    ensures line_after { line.new ≡ transformed m kind direction (2 * a) line.old }
    ensures work_after { kind ≡ 0 →
        work.new ≡ plain_work m direction a (octal_digits factors) line.old work.old }
{
    if kind == 0 {
        let n = 2 * a;
        let size = 2 * n;
        let list = lengths::stage::doubled(factors);
        let points = &mut work[..size];
        if direction == 0 {
            plain::transform(m, re, im, list, n, line, points);
        } else {
            plain::inverse(m, re, im, list, n, line, points);
        }
    } else {
        let size = 2 * a;
        folded(
            m,
            kind,
            direction,
            re,
            im,
            tan,
            factors,
            a,
            line,
            &mut fold[..size],
            &mut work[..size],
        );
    }
}

// The kinds that are folded to A points.
fn folded<'a>(
    m: u32,
    kind: u32,
    direction: u32,
    re: &'a [u32; 2880],
    im: &'a [u32; 2880],
    tan: &'a [u32; 1440],
    factors: u32,
    a: usize,
    line: &mut [u32],
    fold: &mut [u32],
    work: &mut [u32],
)
    requires modulus { IsModulus m
        × (0 < kind)
        × (kind < 6)
        × (direction < 2)
        × TablesOf m direction re.now im.now tan.now }
    requires admitted_length { AdmittedLength (2 * a) × FactorList (2 * a) factors }
    requires line_len { (length line.old ≡ 2 * pair_count kind (2 * a)) × Below (prime m) line.old }
    requires fold_len { (length fold.old ≡ 2 * a) × (length work.old ≡ 2 * a) }
    ensures { line.new ≡ transformed m kind direction (2 * a) line.old }
{
    if kind < 3 {
        if direction == 0 {
            hermitian::forward(m, re, im, kind == 2, factors, a, line, fold, work);
        } else {
            hermitian::inverse(m, re, im, kind == 2, factors, a, line, fold, work);
        }
    } else if kind == 3 {
        if direction == 0 {
            alternating::forward(m, re, im, tan, factors, a, line, fold, work);
        } else {
            alternating::inverse(m, re, im, tan, factors, a, line, fold, work);
        }
    } else {
        let first = (kind - 4) as usize;
        if direction == 0 {
            mirror::forward(m, re, im, tan, factors, first, a, line, fold, work);
        } else {
            mirror::inverse(m, re, im, tan, factors, first, a, line, fold, work);
        }
    }
}
