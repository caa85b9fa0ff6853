// The tests of a volume that is a map.
ghost use Rattle.std.specs.Prelude.{◌≡◌};
ghost use Rattle.numbers.specs.Value.{IsModulus};
ghost use Rattle.refusals.specs.Refusals.{first};
ghost use Rattle.refusals.specs.Checks.{checked_number};
ghost use Rattle.cell.specs.Operations.{cell_lengths};
ghost use Rattle.cell.specs.TestSteps.{IsVolume};
ghost use Rattle.job.specs.Job.{map_tests};

use crate::check::tests;
use cell::operations::UnitCell;
use refusals::Refusal;
use volume::consistent::map_test;

// 7, 14: a volume of the right length is a map.
pub fn check_map(modulus: u32, cell: UnitCell, volume: &[u32]) -> Result<(), Refusal>
    requires { IsVolume cell volume.now × IsModulus modulus }
    ensures { checked_number result
        ≡ first (map_tests modulus cell.group (cell_lengths cell) volume.now) }
{
    if !tests::all_residues(modulus, volume) {
        return Err(Refusal::NotResidue);
    }
    if !map_test::consistent_map(cell, volume) {
        return Err(Refusal::Inconsistent);
    }
    Ok(())
}
