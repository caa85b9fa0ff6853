// A step of equation (3) of document 001, for all the interleaved lines at once (specs/Plain.antt).
//
// `inner` is the paper's A, the length of the inner sums that the slice `from` holds, `outer` its B, the factor of the step, and `lines`
// the number M of lines. Each inner sum is multiplied by its factor e(b𝐚/AB), where 𝐚 is the index of the transform, and the products are
// summed over b into the slice `to`, all B sums of one 𝐚 by one butterfly (crate `butterflies`), which does not reduce them before.
//
// The roots are lent as tables of the powers of W: those of r, or those of its conjugate for the other direction.
ghost use Rattle.std.specs.Prelude.{◌≡◌, ℕ, ◌*◌, length};
ghost use Rattle.numbers.specs.Value.{prime, IsModulus, Value, field};
ghost use Rattle.roots.specs.Table.{table_root, RootTable};
ghost use Rattle.slices.specs.Pairs.{Below, list_of};
ghost use Rattle.plain.specs.Plain.{inner_sums, step_of, StepParts, Splits};

use butterflies::twiddle::Places;

// Place q A B + (𝐚 + 𝐛 A) of `to` becomes the outer sum for 𝐛, over b, of the value at place (b M + q) A + 𝐚 of `from` times its factor.
// `a` is the 𝐚 of the transform; q A + 𝐚 is the place that is read for b = 0, q A B + 𝐚 the one that 𝐛 = 0 goes to, and W^k is e(𝐚/AB),
// the factor of b = 1.
pub fn step<'a>(
    m: u32,
    re: &'a [u32; 2880],
    im: &'a [u32; 2880],
    inner: usize,
    outer: usize,
    lines: usize,
    from: &[u32],
    to: &mut [u32],
)
    requires modulus { IsModulus m × RootTable m re.now im.now }
    requires splits { Splits inner outer lines }
    requires from_len { (length from.now ≡ 2 * (inner * outer * lines))
        × (length to.old ≡ 2 * (inner * outer * lines)) }
    requires below { Below (prime m) from.now }
    ensures to_after { to.new
        ≡ step_of m (table_root m re.now im.now) inner outer lines from.now }
    ensures by_index { (X : ℕ → Value m) → from.now
        ≡ list_of (inner * outer * lines)
        (inner_sums (field m) (table_root m re.now im.now) inner (lines * outer) X)
        → StepParts m (table_root m re.now im.now) inner outer lines X from.now
        to.new }
{
    let width = inner * outer;
    let exponent = 2880 / width;
    for q in 0..lines {
        for a in 0..inner {
            let at = Places {
                first: q * inner + a,
                stride: lines * inner,
                k: exponent * a,
                base: q * width + a,
                gap: inner,
            };
            butterflies::radix::outer_sums(m, re, im, outer, at, from, to);
        }
    }
}
