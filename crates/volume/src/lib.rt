// A lent volume of a cell: what is read from it, what a record writes, and whether it can be a cell's at all.
#![tactic(auto)]

pub mod stored; // stored.rt: what stands at the stored places
pub mod read; // read.rt: the factor at any index of the cell
pub mod write; // write.rt: a factor at its stored place
pub mod record; // record.rt: the images of a record
pub mod orbit_place; // orbit_place.rt: the place of an orbit
pub mod consistent; // consistent.rt: refusal 14
