// Cells of structure factors and maps.
#![tactic(auto)]

pub mod operations; // operations.rt: the groups' operations, the images of an index and of a point, implied values
pub mod places; // places.rt: where factors and points stand in a volume
pub mod lent; // lent.rt: a lent volume, and one of residues

ghost use Rattle.cell.specs.Exactly.{ConsistentExactly};
ghost use Rattle.cell.specs.NumbersRead.{NumbersReadExactly};
ghost use Rattle.cell.specs.OrbitPlace.{SamePlace};

// Refusal 14 in the paper's words: the tests decide whether a whole cell that obeys the group, and Friedel's rule, has these packed
// factors or this map. The function does nothing: it is there for its promise.
pub fn consistent_exactly()
    ensures { ConsistentExactly }
{}

// The numbers that refusals 7 and 24 ask of are exactly those that a factor depends on.
pub fn numbers_read_exactly()
    ensures { NumbersReadExactly }
{}

// Each orbit has a place of its own in a volume.
pub fn same_place()
    ensures { SamePlace }
{}
