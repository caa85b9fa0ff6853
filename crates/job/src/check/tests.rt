// Tests that several calls share.
ghost use Rattle.std.specs.Prelude.{◌≡◌, eqb, length};
ghost use Rattle.numbers.specs.Value.{prime, IsModulus};
ghost use Rattle.slices.specs.Pairs.{all_below};
ghost use Rattle.cell.specs.Operations.{cell_group, cell_lengths, cell_halves, Sizes};
ghost use Rattle.cell.specs.Volume.{volume_length};
ghost use Rattle.job.specs.Job.{within};

use cell::operations::UnitCell;
use header::bytes;

// The numbers of an index, or of a point, are each below the axis length.
pub fn inside(cell: UnitCell, x: u32, y: u32, z: u32) -> bool
    ensures { result ≡ within (cell_lengths cell) (x, y, z) }
{
    (x < cell.n1) & ((y < cell.n2) & (z < cell.n3))
}

// The volume is exactly as long as group and lengths ask for.
pub fn fits(cell: UnitCell, volume: &[u32]) -> bool
    requires { Sizes cell }
    ensures { result ≡ eqb (length volume.now) (volume_length (cell_group cell) (cell_halves cell)) }
{
    (volume.len() as u64) == bytes::volume_length(cell)
}

// Every number of the volume is a residue.
pub fn all_residues(modulus: u32, volume: &[u32]) -> bool
    requires { IsModulus modulus }
    ensures { result ≡ all_below (prime modulus) volume.now }
{
    slices::buffers::all_below(volume, numbers::modulus(modulus))
}
