// The tests of a record: the check answers the first refusal of the paper's order, or that there is none.
//
// It takes the job's numbers, an index, a value and the lent volume, and works nothing. What the record's own numbers settle is asked of a cell: a file's too.
ghost use Rattle.std.specs.Prelude.{◌≡◌, true, ◌&&◌, ltb};
ghost use Rattle.numbers.specs.Value.{prime, IsModulus};
ghost use Rattle.refusals.specs.Refusals.{first};
ghost use Rattle.refusals.specs.Checks.{checked_number};
ghost use Rattle.cell.specs.Operations.{cell_lengths, triple_of, Sizes};
ghost use Rattle.job.specs.Job.{own_tests, record_tests_of, record_tests};

use crate::check::{orbit, tests};
use crate::{Job, valid};
use cell::operations::{Index, UnitCell};
use numbers::Pair;
use refusals::Refusal;

// Both numbers of a value are below the prime.
fn residues(modulus: u32, a: u32, b: u32) -> bool
    requires { IsModulus modulus }
    ensures { result ≡ (ltb a (prime modulus) && ltb b (prime modulus)) }
{
    let bound = numbers::modulus(modulus);
    (a < bound) & (b < bound)
}

// 10, 7, 12: what the record's own numbers settle.
pub fn check_own(modulus: u32, cell: UnitCell, at: Index, x: Pair) -> Result<(), Refusal>
    requires { Sizes cell × IsModulus modulus }
    ensures { checked_number result
        ≡ first (own_tests modulus cell.group (cell_lengths cell) (triple_of at) x.re x.im) }
{
    if !tests::inside(cell, at.h, at.k, at.l) {
        return Err(Refusal::Index);
    }
    if !residues(modulus, x.re, x.im) {
        return Err(Refusal::NotResidue);
    }
    if !orbit::agrees(modulus, cell, at, x) {
        return Err(Refusal::Contradiction);
    }
    Ok(())
}

// 25, 21, the record's own, then the volume's.
pub fn check_record(
    valid: bool,
    state: u32,
    modulus: u32,
    cell: UnitCell,
    at: Index,
    x: Pair,
    volume: &[u32],
) -> Result<(), Refusal>
    requires { valid ≡ true → Sizes cell × IsModulus modulus }
    ensures { checked_number result
        ≡ first
        (record_tests_of valid state modulus cell.group (cell_lengths cell) (triple_of at) x.re x.im
        volume.now) }
{
    if !valid {
        return Err(Refusal::ImpossibleJob);
    }
    if state != 0 {
        return Err(Refusal::NotCollecting);
    }
    check_own(modulus, cell, at, x)?;
    orbit::check_orbit(cell, at, volume)
}

impl Job {
    // Those of the job's own numbers.
    pub fn check_record(self, at: Index, x: Pair, volume: &[u32]) -> Result<(), Refusal>
        ensures { checked_number result
            ≡ first (record_tests self (triple_of at) x.re x.im volume.now) }
    {
        let cell = self.unit_cell();
        check_record(
            valid::valid_job(self),
            self.state,
            self.modulus,
            cell,
            at,
            x,
            volume,
        )
    }
}
