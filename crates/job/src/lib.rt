// A job collects structure factors in a volume that the caller lends, or holds the map that they stand for.
//
// The job is handed in and handed back by value at each call, beside the volume that the caller lends. Each call is a check, which
// answers the first refusal of the paper's order, and then the work. The answer is a `Result`: the refusal, after which the job is as it was
// handed in, or what the call gives. An opening, a record, a synthesis and an analysis give the job as it is from then on; a point of the map
// the density there, the signed whole number next to zero; an index its factor; a power a residue. What a caller holds or hands in by value
// has the layout of C, so that crate exported can pass it on.
#![tactic(auto)]

pub mod check; // check.rt: the refusals of every call
pub mod unit_cell; // unit_cell.rt: the unit cell of a job
pub mod valid; // valid.rt: which jobs an opening or a later call could have made
pub mod open; // open.rt: the opening
pub mod point; // point.rt: the reading of a point
pub mod factor; // factor.rt: the reading of a structure factor
pub mod record; // record.rt: the recording of a structure factor
pub mod synthesis; // synthesis.rt: from the factors to the map
pub mod turn; // turn.rt: one line of a synthesis
pub mod analysis; // analysis.rt: from the map to the factors
pub mod map_power; // map_power.rt: the sum of the squares of the map
pub mod factor_power; // factor_power.rt: the sum of F × conj F
pub mod reply; // reply.rt: the answers as numbers
mod plan; // plan.rt: a job's numbers as the lines of its volume take them

ghost use Rattle.job.specs.PowerKept.{PowerKept};
ghost use Rattle.job.specs.Turns.{TurnsSynthesise};

// The index of a structure factor, in reciprocal space: h, k, l.
#[repr(C)]
#[derive(Clone, Copy)]
pub struct Reflection(pub u32, pub u32, pub u32);

// The index of a point of the map, in real space: x, y, z.
#[repr(C)]
#[derive(Clone, Copy)]
pub struct GridPoint(pub u32, pub u32, pub u32);

// An axis: its length, and its factor list as octal digits, the first factor lowest.
#[repr(C)]
#[derive(Clone, Copy)]
pub struct Axis {
    pub length: u32,
    pub factors: u32,
}

// The modulus is 1 for the prime 86,399 and 2 for 302,399. The state is 0 collecting, 1 factors held, 2 map held.
#[repr(C)]
#[derive(Clone, Copy)]
pub struct Job {
    pub group: u32,
    pub modulus: u32,
    pub a: Axis,
    pub b: Axis,
    pub c: Axis,
    pub state: u32,
}

// Power is kept by every accepted synthesis and by every accepted analysis.
pub fn power_kept()
    ensures { PowerKept }
{}

// The lines of a job, each in a turn of its own, come to what a synthesis leaves.
pub fn turns_synthesise()
    ensures { TurnsSynthesise }
{}
