// Whether the numbers that a text prints are residues: the rows of the stored planes, without the two numbers behind each.
ghost use Rattle.std.specs.Prelude.{◌≡◌, ◌<◌};
ghost use Rattle.algebra.specs.cells.Cell.{below};
ghost use Rattle.cell.specs.Volume.{layers};
ghost use Rattle.job.specs.Job.{group_in, halves};
ghost use Rattle.printing.specs.Text.{row_residues, prints_residues};
ghost use Rattle.printing.specs.Printable.{Fitting};

use cell::places;
use job::Job;

// All stored planes.
pub fn prints_residues(job: Job, volume: &[u32]) -> bool
    requires { Fitting job volume.now }
    ensures { result ≡ prints_residues job volume.now }
{
    let planes = places::layer_count(job.unit_cell());
    for z in 0..planes {
        if !plane_residues(job, volume, z) {
            return false;
        }
    }
    true
}

// The rows of the plane z.
fn plane_residues(job: Job, volume: &[u32], z: u32) -> bool
    requires { Fitting job volume.now × (z < layers (group_in job) (halves job)) }
    ensures { result ≡ below job.a.length (λ x. row_residues job volume.now z x) }
{
    for x in 0..job.a.length {
        if !row_residues(job, volume, z, x) {
            return false;
        }
    }
    true
}

// The row at z, x.
fn row_residues(job: Job, volume: &[u32], z: u32, x: u32) -> bool
    requires { Fitting job volume.now × (z < layers (group_in job) (halves job)) × (x < job.a.length) }
    ensures { result ≡ row_residues job volume.now z x }
{
    let n2 = job.b.length;
    let p = numbers::modulus(job.modulus);
    let start = 2 * places::pair_place(job.unit_cell(), z, x, 0);
    crate::row_values::are_residues(p, volume, start, n2 as usize)
}
