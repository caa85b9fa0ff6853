// The tests of an opening.
ghost use Rattle.std.specs.Prelude.{◌≡◌};
ghost use Rattle.numbers.specs.Value.{IsModulus};
ghost use Rattle.refusals.specs.Refusals.{first};
ghost use Rattle.refusals.specs.Checks.{checked_number};
ghost use Rattle.cell.specs.Operations.{cell_lengths, Sizes};
ghost use Rattle.header.specs.Cells.{cell_header};
ghost use Rattle.job.specs.Job.{volume_tests, open_tests};

use crate::check::{map, tests};
use cell::operations::UnitCell;
use header::bytes;
use refusals::Refusal;

// 6, and for a map 7, 14.
fn check_volume(modulus: u32, cell: UnitCell, kind: u32, volume: &[u32]) -> Result<(), Refusal>
    requires { Sizes cell × IsModulus modulus }
    ensures { checked_number result
        ≡ first (volume_tests modulus cell.group (cell_lengths cell) kind volume.now) }
{
    if !tests::fits(cell, volume) {
        return Err(Refusal::BufferLength);
    }
    if kind != 1 {
        return Ok(());
    }
    map::check_map(modulus, cell, volume)
}

// 8, 26, 2, the header's, the volume's.
pub fn check_open(
    modulus: u32,
    cell: UnitCell,
    kind: u32,
    f1: &[u8],
    f2: &[u8],
    f3: &[u8],
    volume: &[u32],
) -> Result<(), Refusal>
    ensures { checked_number result
        ≡ first
        (open_tests modulus (cell_header cell f1.now f2.now f3.now) kind
        volume.now) }
{
    if 5 <= cell.group {
        return Err(Refusal::Group);
    }
    if !numbers::is_modulus(modulus) {
        return Err(Refusal::Modulus);
    }
    if 2 <= kind {
        return Err(Refusal::Direction);
    }
    bytes::check_header(cell, f1, f2, f3)?;
    check_volume(modulus, cell, kind, volume)
}
