// The refusals of a job's calls: each check answers the first refusal of the paper's order, or that there is none.
//
// A check takes plain numbers beside the buffers that the call is lent, and works nothing; a method of the job that has its name asks it of the
// job's own numbers. Opening, synthesis and analysis read the whole volume; a record and the two readings look only at the numbers that they are about.
pub mod tests; // check/tests.rt: tests that several calls share
pub mod map; // check/map.rt: a volume that is a map
pub mod open; // check/open.rt: the opening
pub mod synthesis; // check/synthesis.rt: from factors to the map
pub mod analysis; // check/analysis.rt: from the map to its factors
pub mod orbit; // check/orbit.rt: a record at the images of its index
pub mod record; // check/record.rt: a record
pub mod point; // check/point.rt: the reading of a point
pub mod factor; // check/factor.rt: the reading of a structure factor

ghost use Rattle.job.specs.Orders.{JobRefusals};

// The refusals of an opening and of every call of a job stand in the papers' order, and 26 is exactly that of a modulus that is
// neither 1 nor 2.
pub fn refusal_order()
    ensures { JobRefusals }
{}
