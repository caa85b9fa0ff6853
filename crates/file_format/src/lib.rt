// The factor file as bytes: where its parts stand, what is refused of its shape, how long it is, and the reader that walks it and hands out
// one record after another.
#![tactic(auto)]

pub mod integers; // integers.rt: its numbers
pub mod places; // places.rt: where its parts stand
pub mod shape; // shape.rt: what is refused of it
pub mod layout; // layout.rt: a record as bytes, and how long the file is
pub mod reader; // reader.rt: the reader

// A record of a file: an index and the two numbers of its value.
#[derive(Clone, Copy)]
pub struct FileRecord {
    pub h: u32,
    pub k: u32,
    pub l: u32,
    pub a: u32,
    pub b: u32,
}
