// The correlation modulo one prime: both maps analysed, the conjugate of the first one's factors times the second's and the number of
// points, and one synthesis.
ghost use Rattle.std.specs.Prelude.{◌≡◌, ◌<◌, ◌≤◌, length};
ghost use Rattle.algebra.specs.ring.Ring.{Res};
ghost use Rattle.algebra.specs.cells.Cell.{P1};
ghost use Rattle.numbers.specs.Value.{prime, IsModulus};
ghost use Rattle.numbers.specs.Bounds.{res};
ghost use Rattle.lengths.specs.Lengths.{scratch_length, cleared};
ghost use Rattle.cell.specs.Volume.{volume_length, pack_map, pack_factors, factors_of};
ghost use Rattle.correlation.specs.Steps.{residue_cell, count_cell, correlation_cell, point_count, axes_halves};
ghost use Rattle.correlation.specs.Steps.{SoundAxes, plan_of};

use cell::operations::UnitCell;
use volume_transform::plan::Plan;

// Three lengths and the factor lists of their halves in octal digits.
#[derive(Clone, Copy)]
pub struct Axes {
    pub n1: u32,
    pub n2: u32,
    pub n3: u32,
    pub f1: u32,
    pub f2: u32,
    pub f3: u32,
}

fn plan_of(m: u32, direction: u32, axes: Axes) -> Plan
    ensures { result ≡ plan_of m direction axes }
{
    Plan {
        m,
        direction,
        cell: UnitCell {
            group: 0,
            n1: axes.n1,
            n2: axes.n2,
            n3: axes.n3,
        },
        f1: axes.f1,
        f2: axes.f2,
        f3: axes.f3,
    }
}

// How many points the cell has, modulo the prime.
fn point_count(m: u32, axes: Axes) -> u32
    requires { IsModulus m × SoundAxes axes }
    ensures { (result ≡ (res m (point_count (axes_halves axes))).val) × (result < prime m) }
{
    let n1 = axes.n1 as u64;
    let n2 = axes.n2 as u64;
    let n3 = axes.n3 as u64;
    numbers::reduce(m, n1 * n2 * n3)
}

// The factors of a map modulo the prime.
fn analyse(m: u32, axes: Axes, map: &[i64], volume: &mut [u32], scratch: &mut [u32])
    requires modulus { IsModulus m × SoundAxes axes }
    requires map_len { (length map.now ≡ volume_length P1 (axes_halves axes))
        × (length volume.old ≡ volume_length P1 (axes_halves axes)) }
    requires scratch_length_in_bounds { scratch_length ≤ length scratch.old }
    ensures { (volume.new
        ≡ pack_factors P1 (axes_halves axes) m
        (factors_of m (axes_halves axes) (residue_cell m (count_cell (axes_halves axes) map.now))))
        × (scratch.new ≡ cleared scratch.old) }
{
    let pairs = volume.len() / 2;
    let half = (axes.n2 / 2) as usize;
    crate::residues::fill_residues(m, pairs, half, map, volume);
    volume_transform::transform_volume(plan_of(m, 1, axes), volume, scratch);
}

// The correlation of a and b modulo the prime, in the first of two volumes; the second is left with the factors of b.
pub fn correlate_modulo(
    m: u32,
    axes: Axes,
    a: &[i64],
    b: &[i64],
    first: &mut [u32],
    second: &mut [u32],
    scratch: &mut [u32],
)
    requires modulus { IsModulus m × SoundAxes axes }
    requires a_len { (length a.now ≡ volume_length P1 (axes_halves axes))
        × (length b.now ≡ volume_length P1 (axes_halves axes)) }
    requires first_len { (length first.old ≡ volume_length P1 (axes_halves axes))
        × (length second.old ≡ volume_length P1 (axes_halves axes)) }
    requires scratch_length_in_bounds { scratch_length ≤ length scratch.old }
    ensures { (first.new
        ≡ pack_map P1 (axes_halves axes) m
        (residue_cell m (correlation_cell (axes_halves axes) a.now b.now)))
        × (scratch.new ≡ cleared scratch.old) }
{
    analyse(m, axes, a, first, scratch);
    analyse(m, axes, b, second, scratch);
    let pairs = first.len() / 2;
    crate::products::correlate_pairs(m, point_count(m, axes), pairs, first, &second[..]);
    volume_transform::transform_volume(plan_of(m, 0, axes), first, scratch);
}
