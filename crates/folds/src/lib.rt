// The folded kinds of line, each by a plain transform of half its length, with a pass before it and a pass after it.
#![tactic(auto)]

pub mod alternating; // alternating.rt: kind 3
pub mod hermitian; // hermitian.rt: kinds 1 and 2
pub mod mirror; // mirror.rt: kinds 4 and 5
