// The correlation of two combined maps, which is the paper's overlay: at each shift the sum over all points of the products of their
// numbers, exactly. It is computed modulo each of the two primes by transforms, and refusal 28 keeps it within what both together tell.
#![tactic(auto)]

pub mod check; // check.rt: the refusals
pub mod magnitudes; // magnitudes.rt: the largest magnitude of a map and the sum of all
pub mod modulo; // modulo.rt: the correlation modulo one prime
pub mod products; // products.rt: the product of two volumes of factors
pub mod residues; // residues.rt: a map's numbers modulo a prime

ghost use Rattle.std.specs.Prelude.{◌≡◌, ◌*◌, ◌≤◌, length, replicate};
ghost use Rattle.algebra.specs.cells.Cell.{P1};
ghost use Rattle.lengths.specs.Lengths.{scratch_length, cleared};
ghost use Rattle.cell.specs.Volume.{volume_length};
ghost use Rattle.combined.specs.CombinedMap.{limit};
ghost use Rattle.correlation.specs.Correlation.{magnitudes, largest, correlation, header_of, correlation_step};
ghost use Rattle.correlation.specs.Steps.{axes_halves, SoundAxes};
ghost use Rattle.correlation.specs.Answers.{buffers, correlation_outcome};
ghost use Rattle.correlation.specs.Demands.{Sensitive, SensitiveRound, WithinRange};
ghost use Rattle.correlation.specs.Demands.{SelfAtZero, GreatestAtZero, RowEndsUnread};

use crate::modulo::Axes;
use refusals::Refusal;

// At each shift the sum over all points of a(u) b(u + s), in the layout of the maps. The answer is how many numbers there are, or a
// refusal, which leaves every buffer as it was. An accepted call leaves the work volumes zero.
pub fn correlate(
    n1: u32,
    n2: u32,
    n3: u32,
    f1: &[u8],
    f2: &[u8],
    f3: &[u8],
    a: &[i64],
    b: &[i64],
    output: &mut [i64],
    work1: &mut [u32],
    work2: &mut [u32],
    work3: &mut [u32],
    scratch: &mut [u32],
) -> Result<usize, Refusal>
    ensures { correlation_outcome result
        (buffers output.new work1.new work2.new work3.new scratch.new)
        ≡ correlation_step (header_of (n1, n2, n3) f1.now f2.now f3.now)
        a.now b.now
        (buffers output.old work1.old work2.old work3.old
        scratch.old) }
{
    let count = output.len();
    crate::check::check_correlation(
        n1,
        n2,
        n3,
        f1,
        f2,
        f3,
        a,
        b,
        count,
        work1.len(),
        work2.len(),
        work3.len(),
        scratch.len(),
    )?;
    let axes = Axes {
        n1,
        n2,
        n3,
        f1: lengths::packed(f1),
        f2: lengths::packed(f2),
        f3: lengths::packed(f3),
    };
    correlate_sound(axes, a, b, output, work1, work2, work3, scratch);
    Ok(count)
}

// The work of a call that no test refuses: the correlation modulo each prime, and both combined.
fn correlate_sound(
    axes: Axes,
    a: &[i64],
    b: &[i64],
    output: &mut [i64],
    work1: &mut [u32],
    work2: &mut [u32],
    work3: &mut [u32],
    scratch: &mut [u32],
)
    requires sound_axes { SoundAxes axes
        × (magnitudes (axes_halves axes) a.now * largest (axes_halves axes) b.now ≤ limit)
        × (scratch_length ≤ length scratch.old) }
    requires a_len { (length a.now ≡ volume_length P1 (axes_halves axes))
        × (length b.now ≡ volume_length P1 (axes_halves axes))
        × (length output.old ≡ volume_length P1 (axes_halves axes)) }
    requires work1_len { (length work1.old ≡ volume_length P1 (axes_halves axes))
        × (length work2.old ≡ volume_length P1 (axes_halves axes))
        × (length work3.old ≡ volume_length P1 (axes_halves axes)) }
    ensures { (output.new ≡ correlation (axes_halves axes) a.now b.now)
        × (work1.new ≡ replicate (volume_length P1 (axes_halves axes)) 0)
        × (work2.new ≡ replicate (volume_length P1 (axes_halves axes)) 0)
        × (work3.new ≡ replicate (volume_length P1 (axes_halves axes)) 0)
        × (scratch.new ≡ cleared scratch.old) }
{
    crate::modulo::correlate_modulo(1, axes, a, b, work1, work2, scratch);
    crate::modulo::correlate_modulo(2, axes, a, b, work3, work2, scratch);
    combined::chinese::combine_all(&work1[..], &work3[..], output);
    slices::buffers::zero(work1);
    slices::buffers::zero(work2);
    slices::buffers::zero(work3);
}

// If one count of a at u changes by d and both calls are accepted, the value at s moves by exactly d b(u + s). The
// function does nothing: it is there for its promise, as those below.
pub fn sensitive()
    ensures { Sensitive }
{}

// The same, where u + s is said without a remainder.
pub fn sensitive_round()
    ensures { SensitiveRound }
{}

// The value at every shift is within the range of a combined map.
pub fn within_range()
    ensures { WithinRange }
{}

// Of a map with itself the value at no shift is the sum of the squares, and no shift has a greater magnitude.
pub fn with_itself()
    ensures { SelfAtZero × GreatestAtZero }
{}

// No number behind a row is read.
pub fn row_ends_unread()
    ensures { RowEndsUnread }
{}
