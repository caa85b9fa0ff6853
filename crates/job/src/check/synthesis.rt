// The tests of a synthesis.
ghost use Rattle.std.specs.Prelude.{◌≡◌, true};
ghost use Rattle.numbers.specs.Value.{IsModulus};
ghost use Rattle.refusals.specs.Refusals.{first};
ghost use Rattle.refusals.specs.Checks.{checked_number};
ghost use Rattle.cell.specs.Operations.{cell_lengths, Sizes};
ghost use Rattle.cell.specs.TestSteps.{IsVolume};
ghost use Rattle.job.specs.Job.{factors_tests, synthesis_tests_of, valid_job};
ghost use Rattle.job.specs.TestSteps.{synthesis_tests};

use crate::check::tests;
use crate::{Job, valid};
use cell::operations::UnitCell;
use refusals::Refusal;
use volume::consistent::factor_test;

// 7, 14: a volume of the right length is held as factors.
fn check_factors(modulus: u32, cell: UnitCell, volume: &[u32]) -> Result<(), Refusal>
    requires { IsVolume cell volume.now × IsModulus modulus }
    ensures { checked_number result
        ≡ first (factors_tests modulus cell.group (cell_lengths cell) volume.now) }
{
    if !tests::all_residues(modulus, volume) {
        return Err(Refusal::NotResidue);
    }
    if !factor_test::consistent_factors(modulus, cell, volume) {
        return Err(Refusal::Inconsistent);
    }
    Ok(())
}

// 25, 23, 6, 13, then the factors'.
pub fn check_synthesis(
    valid: bool,
    state: u32,
    modulus: u32,
    cell: UnitCell,
    volume: &[u32],
    scratch: usize,
) -> Result<(), Refusal>
    requires { valid ≡ true → Sizes cell × IsModulus modulus }
    ensures { checked_number result
        ≡ first
        (synthesis_tests_of valid state modulus cell.group (cell_lengths cell) volume.now scratch) }
{
    if !valid {
        return Err(Refusal::ImpossibleJob);
    }
    if state == 2 {
        return Err(Refusal::NoFactors);
    }
    if !tests::fits(cell, volume) {
        return Err(Refusal::BufferLength);
    }
    if scratch < 11520 {
        return Err(Refusal::ScratchTooShort);
    }
    check_factors(modulus, cell, volume)
}

impl Job {
    // Those of the job's own numbers.
    pub fn check_synthesis(self, volume: &[u32], scratch: usize) -> Result<(), Refusal>
        ensures { checked_number result ≡ first (synthesis_tests self volume.now scratch) }
    {
        let cell = self.unit_cell();
        check_synthesis(
            valid::valid_job(self),
            self.state,
            self.modulus,
            cell,
            volume,
            scratch,
        )
    }

    // Those of a job that was found valid: 25 is not looked for again.
    pub fn check_valid_synthesis(self, volume: &[u32], scratch: usize) -> Result<(), Refusal>
        requires { valid_job self ≡ true }
        ensures { checked_number result ≡ first (synthesis_tests self volume.now scratch) }
    {
        check_synthesis(
            true,
            self.state,
            self.modulus,
            self.unit_cell(),
            volume,
            scratch,
        )
    }
}
