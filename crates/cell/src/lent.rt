// A lent volume, and one of residues.
ghost use Rattle.numbers.specs.Value.{prime, IsModulus};
ghost use Rattle.slices.specs.Pairs.{Below};
ghost use Rattle.cell.specs.TestSteps.{IsVolume};

use crate::operations::UnitCell;

// The numbers of a cell, as many as its volume has.
#[derive(Clone, Copy)]
pub struct LentVolume<'a> {
    pub cell: UnitCell,
    pub volume: &'a [u32],
    ghost whole: { IsVolume cell volume.now },
}

// The same, each of them below the prime that m chooses.
#[derive(Clone, Copy)]
pub struct Residues<'a> {
    pub m: u32,
    pub cell: UnitCell,
    pub volume: &'a [u32],
    ghost modulus: { IsModulus m },
    ghost whole: { IsVolume cell volume.now },
    ghost below: { Below (prime m) volume.now },
}
