// Kinds 4 and 5, the symmetric and the antisymmetric line, after the transform of their short line: a place of the line's from two places of it.
//
// Let sigma be 1 for a symmetric line and -1 for an antisymmetric one, so that X(-t) = sigma X(t); the code is told it by the place `first`
// of the first value that is stored, 0 or 1. The short line is Y(t) = X(2 t) + X(2 t + 1). With E and O the short transforms of the even and the
// odd places, and e = e(s/N), the transform is X^(s) = E(s) + e O(s), and that of the short line Y^ = E + O. The rule of the line says
// sigma E(A - s) = E(s) and sigma O(A - s) = e^2 O(s), and the half tangent of e is tau with i tau = (e - 1)/(e + 1). So
// (Y^(s) + sigma Y^(A - s)) + i tau (Y^(s) - sigma Y^(A - s)) = 2 E(s) + (1 + e^2) O(s) - (1 - e)^2 O(s) = 2 X^(s).
ghost use Rattle.std.specs.Prelude.{◌≡◌, ◌+◌, ◌*◌, ◌<◌, ◌≤◌, length};
ghost use Rattle.numbers.specs.Value.{prime, IsModulus, value_of, pair_of};
ghost use Rattle.numbers.specs.Bounds.{Small};
ghost use Rattle.slices.specs.Pairs.{Below, list_of};
ghost use Rattle.fold_formulas.specs.FoldFormulas.{stride, Tangents};
ghost use Rattle.folds.specs.FoldedLines.{stored_count, finished};

use numbers::Pair;

// The pass after the transform.
pub fn finish(
    m: u32,
    tan: &[u32; 1440],
    first: usize,
    a: usize,
    o: Pair,
    fold: &[u32],
    line: &mut [u32],
)
    requires modulus { IsModulus m × Tangents m tan.now × (first ≤ 1) × Small (prime m) o }
    requires a_nonzero { (0 < a) × (a * stride a ≡ 1440) }
    requires fold_len { (length fold.now ≡ 2 * a) × (length line.old ≡ 2 * stored_count a first) }
    requires below { Below (prime m) fold.now }
    ensures { line.new ≡ list_of (stored_count a first)
        (λ p. finished m a first tan.now fold.now (value_of m o) (first + p)) }
{
    let step = 1440 / a;
    for p in 0..a + 1 - 2 * first {
        slices::store(
            line,
            p,
            finish_at(m, tan, step, first, a, o, fold, first + p),
        );
    }
}

// The transform at the place s, up to A. An antisymmetric line asks for neither end: it is zero at both, and they are not stored.
fn finish_at(
    m: u32,
    tan: &[u32; 1440],
    step: usize,
    first: usize,
    a: usize,
    o: Pair,
    fold: &[u32],
    s: usize,
) -> Pair
    requires modulus { IsModulus m × Tangents m tan.now × (first ≤ 1) × Small (prime m) o }
    requires a_nonzero { (0 < a) × (step ≡ stride a) × (a * stride a ≡ 1440) × (s ≤ a) }
    requires fold_len { length fold.now ≡ 2 * a }
    requires below { Below (prime m) fold.now }
    ensures { result ≡ pair_of (finished m a first tan.now fold.now (value_of m o) s) }
{
    // e = 1: the sum of the line, which is that of the short line.
    if s == 0 {
        return slices::get(fold, 0);
    }
    // e = -1: the odd places count negatively, so twice their sum goes off. No half tangent is there to tell it from Y^.
    if s == a {
        let odds = numbers::sum(m, o, o);
        return numbers::difference(m, slices::get(fold, 0), odds);
    }
    let tau = tan[step * s];
    let y = slices::get(fold, s);
    let z = slices::get(fold, a - s);
    fold_formulas::mirror::finish_between(m, first, tau, y, z)
}
