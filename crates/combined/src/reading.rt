// The reading of a point of a combined map: the call, which refuses what is no map of the cell and no point of it.
ghost use Rattle.std.specs.Prelude.{◌≡◌};
ghost use Rattle.refusals.specs.Refusals.{first};
ghost use Rattle.refusals.specs.Checks.{checked_number};
ghost use Rattle.cell.specs.Operations.{cell_lengths, point_of};
ghost use Rattle.combined.specs.Reading.{within, count_tests, count_step, CountsRead};
ghost use Rattle.combined.specs.Answers.{said_count};

use cell::operations::{Point, UnitCell};
use refusals::Refusal;

// The number of a point anywhere in the cell, or why it is not read.
pub fn count(cell: UnitCell, at: Point, map: &[i64]) -> Result<i64, Refusal>
    ensures { said_count result ≡ count_step cell.group (cell_lengths cell) map.now (point_of at) }
{
    check_count(cell, at, map.len())?;
    Ok(crate::count_at(cell, at, map))
}

// 8, 3, 9, 6, 10.
fn check_count(cell: UnitCell, at: Point, length: usize) -> Result<(), Refusal>
    ensures { checked_number result ≡ first (count_tests cell.group (cell_lengths cell) length (point_of at)) }
{
    crate::check_combined_map(cell, length)?;
    if !inside(cell, at) {
        return Err(Refusal::Index);
    }
    Ok(())
}

// Each number of the point is below its axis length.
fn inside(cell: UnitCell, at: Point) -> bool
    ensures { result ≡ within (cell_lengths cell) (point_of at) }
{
    (at.x < cell.n1) & ((at.y < cell.n2) & (at.z < cell.n3))
}

// Of the combined map of a cell every point's number is read, on planes that are not stored too. The function does nothing; its promise is the
// statement.
pub fn counts_read()
    ensures { CountsRead }
{}
