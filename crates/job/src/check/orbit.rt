// The tests of a record at the images of its index: whether it agrees with itself, and whether its orbit is free in the volume.
//
// Each test is one loop over the operations of the orbit, with a function for what one operation asks. They write nothing.
ghost use Rattle.std.specs.Prelude.{◌≡◌, length};
ghost use Rattle.numbers.specs.Value.{prime, IsModulus, value_of};
ghost use Rattle.numbers.specs.Bounds.{Small};
ghost use Rattle.refusals.specs.Refusals.{first};
ghost use Rattle.refusals.specs.Checks.{checked_number};
ghost use Rattle.cell.specs.Volume.{volume_length};
ghost use Rattle.cell.specs.Consistency.{agrees_with_itself, orbit_free};
ghost use Rattle.cell.specs.Operations.{cell_group, cell_lengths, cell_halves, triple_of, sym_of, Sizes, Within};
ghost use Rattle.job.specs.Job.{orbit_tests};
ghost use Rattle.job.specs.TestSteps.{agrees_under};

use crate::check::tests;
use cell::operations;
use cell::operations::{Index, Operation, UnitCell};
use numbers::Pair;
use refusals::Refusal;

// 6, 24: what the volume holds of the orbit of an index inside the cell.
pub fn check_orbit(cell: UnitCell, at: Index, volume: &[u32]) -> Result<(), Refusal>
    requires { Sizes cell × Within cell at }
    ensures { checked_number result
        ≡ first (orbit_tests cell.group (cell_lengths cell) (triple_of at) volume.now) }
{
    if !tests::fits(cell, volume) {
        return Err(Refusal::BufferLength);
    }
    if !orbit_free(cell, at, volume) {
        return Err(Refusal::Occupied);
    }
    Ok(())
}

// No image of the record falls on its own index with another value.
pub fn agrees(m: u32, cell: UnitCell, j: Index, x: Pair) -> bool
    requires { IsModulus m × Small (prime m) x × Sizes cell × Within cell j }
    ensures { result ≡ agrees_with_itself (cell_group cell) (cell_halves cell) m (triple_of j) (value_of m x) }
{
    let count = operations::operation_count(cell.group);
    for i in 0..count {
        if !agrees_under(m, operations::operation_at(cell.group, i), cell, j, x) {
            return false;
        }
    }
    true
}

// If the image of j is j itself, the implied value is x.
fn agrees_under(m: u32, o: Operation, cell: UnitCell, j: Index, x: Pair) -> bool
    requires modulus { IsModulus m × Small (prime m) x }
    requires sizes { Sizes cell × Within cell j }
    ensures { result ≡ agrees_under (cell_halves cell) m (triple_of j) (value_of m x) (sym_of o) }
{
    if operations::image(o, cell, j) == j {
        operations::implied(m, o, j, x) == x
    } else {
        true
    }
}

// The numbers that hold part of the record's orbit are zero: those of each image are below 1.
fn orbit_free(cell: UnitCell, j: Index, volume: &[u32]) -> bool
    requires sizes { Sizes cell × Within cell j }
    requires volume_len { length volume.now ≡ volume_length (cell_group cell) (cell_halves cell) }
    ensures { result ≡ orbit_free (cell_group cell) (cell_halves cell) volume.now (triple_of j) }
{
    let count = operations::operation_count(cell.group);
    for i in 0..count {
        let o = operations::operation_at(cell.group, i);
        let to = operations::image(o, cell, j);
        if !volume::read::factor_numbers_below(cell, to, 1, volume) {
            return false;
        }
    }
    true
}
