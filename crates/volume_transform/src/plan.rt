// The lines of a job: what is to be done with a volume, how many lines it has along each axis, and what a line's turn has to know. The
// definitions of what the lines are and of what becomes of them are in specs/; `axis_lines` and `numbering` compute them.
use cell::operations::UnitCell;

// What is to be done with a whole volume: modulus and direction, the cell, and the factor lists of its three lengths.
#[derive(Clone, Copy)]
pub struct Plan {
    pub m: u32,
    pub direction: u32,
    pub cell: UnitCell,
    pub f1: u32,
    pub f2: u32,
    pub f3: u32,
}

// How many lines a job has along each axis.
#[derive(Clone, Copy)]
pub struct Counts {
    pub l: usize,
    pub h: usize,
    pub k: usize,
}

// A packed line of 2 half values, stored times i or not, and its pairs in the volume: count of them, at start, start + stride, ..
#[derive(Clone, Copy)]
pub struct Line {
    pub m: u32,
    pub direction: u32,
    pub kind: u32,
    pub rotated: bool,
    pub factors: u32,
    pub half: usize,
    pub start: usize,
    pub stride: usize,
    pub count: usize,
}

// A line and those that are turned together with it: as many lines as there are lanes, each a place further on than the one before.
#[derive(Clone, Copy)]
pub struct LineGroup {
    pub line: Line,
    pub lanes: usize,
}
