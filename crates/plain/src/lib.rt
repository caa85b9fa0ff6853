// The plain transform of a factor list, by equation (3) of document 001.
//
// A line has n pairs, where n divides 2,880 and is the product of the list's factors. Each factor is a step, and a step does the
// transforms of A B points that (3) makes of transforms of A points, for all the interleaved lines at once:
// `inner` is the paper's A, the product of the factors before, `outer` its B, the factor of the step, and `lines` the number of lines.
// The inner sums are what the slice that is read holds already. The steps go to and fro between the line and the work slice,
// and after an odd number of them the result is copied into the line. It is in its natural order after any number of steps.
//
// The roots are lent as tables of the powers of W: those of r, or those of its conjugate for the other direction.
#![tactic(auto)]

pub mod step; // step.rt
pub mod scale; // scale.rt

ghost use Rattle.std.specs.Prelude.{◌≡◌, ◌*◌, ◌/◌, ◌%◌, length};
ghost use Rattle.algebra.specs.ring.Ring.{Ops, pow, dft};
ghost use Rattle.numbers.specs.Value.{prime, IsModulus, field, part, real};
ghost use Rattle.roots.specs.Table.{table_root, RootTable};
ghost use Rattle.lengths.specs.Lengths.{octal_digits};
ghost use Rattle.lengths.specs.Admitted.{Factored};
ghost use Rattle.lengths.specs.Stages.{points, after, Ahead};
ghost use Rattle.slices.specs.Pairs.{Below, values_of, list_of};
ghost use Rattle.plain.specs.Plain.{step_of, after_steps, work_after};

use lengths::stage::Stage;

// The transform of the line, in its natural order, by the steps of the list, one after the other.
pub fn transform<'a>(
    m: u32,
    re: &'a [u32; 2880],
    im: &'a [u32; 2880],
    factors: u32,
    n: usize,
    line: &mut [u32],
    work: &mut [u32],
)
    requires modulus { IsModulus m × RootTable m re.now im.now }
    requires factored { Factored factors n × (n * (2880 / n) ≡ 2880) }
    requires line_len { (length line.old ≡ 2 * n) × (length work.old ≡ 2 * n) }
    requires below { Below (prime m) line.old }
    ensures line_after { line.new ≡ list_of n
        (dft (field m) n (pow (field m) (table_root m re.now im.now) (2880 / n))
        (values_of m line.old)) }
    ensures line_after_2 { line.new
        ≡ after_steps m (table_root m re.now im.now) (octal_digits factors)
        (length (octal_digits factors))
        line.old }
    ensures work_after { work.new
        ≡ work_after m (table_root m re.now im.now) (octal_digits factors)
        (length (octal_digits factors))
        line.old work.old }
{
    let mut at = Stage {
        left: factors,
        inner: 1,
        lines: n,
    };
    // A turn takes two factors off the packed list: there is nothing that is counted.
    while 8 <= at.left {
        at = next_step(m, re, im, at, line, work);
        at = next_step(m, re, im, at, work, line);
    }
    if at.left != 0 {
        next_step(m, re, im, at, line, work);
        slices::copy(work, line, n);
    }
}

// The transform divided by n: with the tables of the conjugate root, the inverse.
pub fn inverse<'a>(
    m: u32,
    re: &'a [u32; 2880],
    im: &'a [u32; 2880],
    factors: u32,
    n: usize,
    line: &mut [u32],
    work: &mut [u32],
)
    requires modulus { IsModulus m × RootTable m re.now im.now }
    requires factored { Factored factors n × (n * (2880 / n) ≡ 2880) }
    requires line_len { (length line.old ≡ 2 * n) × (length work.old ≡ 2 * n) }
    requires below { Below (prime m) line.old }
    ensures line_after { line.new ≡ list_of n
        (λ t. (field m).mul (real m (part m n))
        (dft (field m) n (pow (field m) (table_root m re.now im.now) (2880 / n))
        (values_of m line.old) t)) }
    ensures work_after { work.new
        ≡ work_after m (table_root m re.now im.now) (octal_digits factors)
        (length (octal_digits factors))
        line.old work.old }
{
    transform(m, re, im, factors, n, line, work);
    crate::scale::divide(m, n, line);
}

// The next step: inner sums of length A, with B times as many lines, become inner sums of length A B.
fn next_step<'a>(
    m: u32,
    re: &'a [u32; 2880],
    im: &'a [u32; 2880],
    at: Stage,
    from: &[u32],
    to: &mut [u32],
) -> Stage
    requires modulus { IsModulus m × RootTable m re.now im.now }
    requires ahead { Ahead at }
    requires from_len { (length from.now ≡ 2 * points at) × (length to.old ≡ 2 * points at) }
    requires below { Below (prime m) from.now }
    ensures value { result ≡ after at }
    ensures to_after { to.new
        ≡ step_of m (table_root m re.now im.now) at.inner (at.left % 8)
        (at.lines / (at.left % 8))
        from.now }
{
    let next = lengths::stage::next(at);
    crate::step::step(
        m,
        re,
        im,
        at.inner,
        (at.left % 8) as usize,
        next.lines,
        from,
        to,
    );
    next
}
