// The tests of a factor's reading.
ghost use Rattle.std.specs.Prelude.{◌≡◌, true};
ghost use Rattle.numbers.specs.Value.{IsModulus};
ghost use Rattle.refusals.specs.Refusals.{first};
ghost use Rattle.refusals.specs.Checks.{checked_number};
ghost use Rattle.cell.specs.Operations.{cell_lengths, triple_of, Sizes};
ghost use Rattle.job.specs.Job.{factor_tests_of};
ghost use Rattle.job.specs.TestSteps.{factor_tests};

use crate::check::tests;
use crate::{Job, valid};
use cell::operations::{Index, UnitCell};
use refusals::Refusal;

// 25, 23, 10, 6, 7: the last of the numbers that the factor is read from alone.
pub fn check_factor(
    valid: bool,
    state: u32,
    modulus: u32,
    cell: UnitCell,
    at: Index,
    volume: &[u32],
) -> Result<(), Refusal>
    requires { valid ≡ true → Sizes cell × IsModulus modulus }
    ensures { checked_number result
        ≡ first
        (factor_tests_of valid state modulus cell.group (cell_lengths cell) (triple_of at) volume.now) }
{
    if !valid {
        return Err(Refusal::ImpossibleJob);
    }
    if state == 2 {
        return Err(Refusal::NoFactors);
    }
    if !tests::inside(cell, at.h, at.k, at.l) {
        return Err(Refusal::Index);
    }
    if !tests::fits(cell, volume) {
        return Err(Refusal::BufferLength);
    }
    let p = numbers::modulus(modulus);
    if !volume::read::factor_numbers_below(cell, at, p, volume) {
        return Err(Refusal::NotResidue);
    }
    Ok(())
}

impl Job {
    // Those of the job's own numbers.
    pub fn check_factor(self, at: Index, volume: &[u32]) -> Result<(), Refusal>
        ensures { checked_number result ≡ first (factor_tests self (triple_of at) volume.now) }
    {
        let cell = self.unit_cell();
        check_factor(
            valid::valid_job(self),
            self.state,
            self.modulus,
            cell,
            at,
            volume,
        )
    }
}
