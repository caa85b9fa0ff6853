// The tests of a point's reading.
ghost use Rattle.std.specs.Prelude.{◌≡◌, true};
ghost use Rattle.numbers.specs.Value.{IsModulus};
ghost use Rattle.refusals.specs.Refusals.{first};
ghost use Rattle.refusals.specs.Checks.{checked_number};
ghost use Rattle.cell.specs.Operations.{cell_lengths, point_of, Sizes};
ghost use Rattle.job.specs.Job.{point_tests_of};
ghost use Rattle.job.specs.TestSteps.{point_tests};

use crate::check::tests;
use crate::{Job, valid};
use cell::operations::{Point, UnitCell};
use cell::places;
use refusals::Refusal;

// 25, 22, 10, 6, 7: the last of the point's number alone.
pub fn check_point(
    valid: bool,
    state: u32,
    modulus: u32,
    cell: UnitCell,
    at: Point,
    volume: &[u32],
) -> Result<(), Refusal>
    requires { valid ≡ true → Sizes cell × IsModulus modulus }
    ensures { checked_number result
        ≡ first
        (point_tests_of valid state modulus cell.group (cell_lengths cell) (point_of at) volume.now) }
{
    if !valid {
        return Err(Refusal::ImpossibleJob);
    }
    if state != 2 {
        return Err(Refusal::NoMap);
    }
    if !tests::inside(cell, at.x, at.y, at.z) {
        return Err(Refusal::Index);
    }
    if !tests::fits(cell, volume) {
        return Err(Refusal::BufferLength);
    }
    let p = numbers::modulus(modulus);
    let place = places::density_place(cell, at);
    if p <= volume[place] {
        return Err(Refusal::NotResidue);
    }
    Ok(())
}

impl Job {
    // Those of the job's own numbers.
    pub fn check_point(self, at: Point, volume: &[u32]) -> Result<(), Refusal>
        ensures { checked_number result ≡ first (point_tests self (point_of at) volume.now) }
    {
        let cell = self.unit_cell();
        check_point(
            valid::valid_job(self),
            self.state,
            self.modulus,
            cell,
            at,
            volume,
        )
    }
}
