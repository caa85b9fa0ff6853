// The tests of an analysis.
ghost use Rattle.std.specs.Prelude.{◌≡◌, true};
ghost use Rattle.numbers.specs.Value.{IsModulus};
ghost use Rattle.refusals.specs.Refusals.{first};
ghost use Rattle.refusals.specs.Checks.{checked_number};
ghost use Rattle.cell.specs.Operations.{cell_lengths, Sizes};
ghost use Rattle.job.specs.Job.{analysis_tests_of};
ghost use Rattle.job.specs.TestSteps.{analysis_tests};

use crate::check::{map, tests};
use crate::{Job, valid};
use cell::operations::UnitCell;
use refusals::Refusal;

// 25, 22, 6, 13, then the map's.
pub fn check_analysis(
    valid: bool,
    state: u32,
    modulus: u32,
    cell: UnitCell,
    volume: &[u32],
    scratch: usize,
) -> Result<(), Refusal>
    requires { valid ≡ true → Sizes cell × IsModulus modulus }
    ensures { checked_number result
        ≡ first
        (analysis_tests_of valid state modulus cell.group (cell_lengths cell) volume.now scratch) }
{
    if !valid {
        return Err(Refusal::ImpossibleJob);
    }
    if state != 2 {
        return Err(Refusal::NoMap);
    }
    if !tests::fits(cell, volume) {
        return Err(Refusal::BufferLength);
    }
    if scratch < 11520 {
        return Err(Refusal::ScratchTooShort);
    }
    map::check_map(modulus, cell, volume)
}

impl Job {
    // Those of the job's own numbers.
    pub fn check_analysis(self, volume: &[u32], scratch: usize) -> Result<(), Refusal>
        ensures { checked_number result ≡ first (analysis_tests self volume.now scratch) }
    {
        let cell = self.unit_cell();
        check_analysis(
            valid::valid_job(self),
            self.state,
            self.modulus,
            cell,
            volume,
            scratch,
        )
    }
}
