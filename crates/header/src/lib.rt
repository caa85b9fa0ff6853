// What an opening names besides the volume: group, lengths and factor lists, tested as they come in bytes, and as a job holds them.
#![tactic(auto)]

pub mod bytes; // bytes.rt: the tests of an opening's group, lengths and factor lists
pub mod packed; // packed.rt: the same tests where each list is one number, as in a job
