// Scripts of calls: a call and its answer as numbers, and the run of a whole script on a job and a volume.
#![tactic(auto)]

pub mod layout; // layout.rt: where a call and its answer stand
pub mod calls; // calls.rt: the calls that transform nothing
pub mod replay; // replay.rt: a script
