// Folded lines side by side: each folded kind of line by a batch's transform of half its length, with a pass over the
// lanes before it and one after it.
#![tactic(auto)]

pub mod mixing; // mixing.rt: two values of every lane with coefficients
pub mod hermitian; // hermitian.rt: kind 1, the rows
pub mod alternating; // alternating.rt: kind 3
pub mod mirror; // mirror.rt: kinds 4 and 5
