// All lines of a job in their turn: the loop of synthesis and of analysis, in the lent volume. `numbering` says what line each number
// stands for, and each is transformed in its place. A line along l or h is gathered into the scratch, transformed there and
// scattered back; a line along k is a row of neighbouring pairs and is worked on as a part of the volume. Lines that stand side by side
// go up to sixteen at a time (`groups`).
//
// Direction 0 is synthesis, with the tables of the root, direction 1 analysis, with those of its conjugate.
#![tactic(auto)]

pub mod plan; // plan.rt: what is to be done, and a line of it
pub mod axis_lines; // axis_lines.rt: the lines along h and k, and how many there are
pub mod numbering; // numbering.rt: all lines by their numbers
pub mod row; // row.rt: the ends of a row along k
pub mod sums; // sums.rt: what all lines come to, the triple sum and its inverse
pub mod one_line; // one_line.rt: one line in a call of its own
mod groups; // groups.rt: neighbouring lines together
mod lines; // lines.rt: one line along l or h
mod rows; // rows.rt: one row along k

ghost use Rattle.std.specs.Prelude.{◌≡◌, ◌<◌, ◌≤◌, length};
ghost use Rattle.lengths.specs.Lengths.{scratch_length, cleared};
ghost use Rattle.line.specs.Tables.{TablesOf};
ghost use Rattle.volume_transform.specs.Lines.{TablesFor, Lent, Kept, Placed, LineBelow, line_turned};
ghost use Rattle.volume_transform.specs.Axes.{line_count};
ghost use Rattle.volume_transform.specs.Plans.{plan_group, plan_halves, Planned, Fitting, plan_turn};
ghost use Rattle.volume_transform.specs.Groups.{RoomForGroups};
ghost use Rattle.volume_transform.specs.Turns.{turns};
ghost use Rattle.volume_transform.specs.RisingPlaces.{RisingPlaces};
ghost use Rattle.volume_transform.specs.AxisSums.{AxisSums};

use crate::plan::{Line, Plan};

// A whole volume. The tables are made once, and lent down. A small volume goes line by line: tables for the batches would cost more than
// they save.
pub fn transform_volume(plan: Plan, volume: &mut [u32], scratch: &mut [u32])
    requires planned { Planned plan }
    requires fitting { Fitting plan volume.old × (scratch_length ≤ length scratch.old) }
    ensures { (volume.new
        ≡ turns (plan_turn plan) 0 (line_count (plan_group plan) (plan_halves plan)) volume.old)
        × (scratch.new ≡ cleared scratch.old) }
{
    let re = roots::powers::real_parts(plan.m);
    let im = line::table::imaginary_parts(plan.m, plan.direction);
    let tan = line::table::half_tangents(plan.m, plan.direction);
    if is_small(volume.len(), plan.cell.n2) {
        let mut fold = [0u32; 5760];
        let mut work = [0u32; 5760];
        turn_volume(
            plan.m, plan, 1, &re, &im, &tan, &re, &im, volume, scratch, &mut fold, &mut work,
        );
    } else {
        turn_groups(plan.m, plan, &re, &im, &tan, volume, scratch);
    }
}

// The volume has few numbers, or no four lines side by side.
fn is_small(length: usize, n2: u32) -> bool {
    length < 8192 || n2 < 6
}

// Every line, in groups of up to sixteen: with the tables of the batches, and room for one.
fn turn_groups<'a>(
    m: u32,
    plan: Plan,
    re: &'a [u32; 2880],
    im: &'a [u32; 2880],
    tan: &'a [u32; 1440],
    volume: &mut [u32],
    scratch: &mut [u32],
)
    requires planned { Planned plan
        × TablesOf plan.m plan.direction re.now im.now tan.now
        × (m ≡ plan.m) }
    requires fitting { Fitting plan volume.old × (scratch_length ≤ length scratch.old) }
    ensures { (volume.new
        ≡ turns (plan_turn plan) 0 (line_count (plan_group plan) (plan_halves plan)) volume.old)
        × (scratch.new ≡ cleared scratch.old) }
{
    let mut sre = [0u32; 2880];
    let mut sim = [0u32; 2880];
    let mut fold = [0u32; 5760];
    let mut work = [0u32; 11520];
    batches::tables::shift_tables(m, re, im, &mut sre, &mut sim);
    turn_volume(
        m, plan, 16, re, im, tan, &sre, &sim, volume, scratch, &mut fold, &mut work,
    );
}

// Every line of the job, one after the other, or `most` neighbouring ones at the most together. The modulus goes down beside the plan
// as a number of its own, so that no loop reads it from memory. Fewer than four lines are sooner done alone. The scratch is cleared of what
// the lines left there.
fn turn_volume<'a>(
    m: u32,
    plan: Plan,
    most: usize,
    re: &'a [u32; 2880],
    im: &'a [u32; 2880],
    tan: &'a [u32; 1440],
    sre: &'a [u32; 2880],
    sim: &'a [u32; 2880],
    volume: &mut [u32],
    scratch: &mut [u32],
    fold: &mut [u32],
    work: &mut [u32],
)
    requires planned { Planned plan
        × TablesOf plan.m plan.direction re.now im.now tan.now
        × (m ≡ plan.m) }
    requires most_nonzero { (0 < most)
        × (most ≤ 16)
        × (1 < most → RoomForGroups m re.now im.now sre.now sim.now work.old) }
    requires fitting { Fitting plan volume.old }
    requires lent { Lent scratch.old fold.old work.old }
    ensures { (volume.new
        ≡ turns (plan_turn plan) 0 (line_count (plan_group plan) (plan_halves plan)) volume.old)
        × (scratch.new ≡ cleared scratch.old) }
{
    let counts = crate::axis_lines::line_counts(plan);
    let count = counts.l + counts.h + counts.k;
    let mut n = 0;
    // each turn goes as many lines on as it finds side by side
    while n < count {
        let group = crate::numbering::group_of_turn(plan, counts, n, most);
        if 3 < group.lanes {
            groups::turn_placed_group(
                m,
                group.line,
                group.lanes,
                re,
                im,
                tan,
                sre,
                sim,
                volume,
                scratch,
                work,
            );
            n += group.lanes;
        } else {
            turn(m, group.line, re, im, tan, volume, scratch, fold, work);
            n += 1;
        }
    }
    slices::buffers::clear(scratch, 11520);
}

// The line of its kind: a Hermitian one is a row, and lent as a part of the volume from its offset on.
fn turn<'a>(
    m: u32,
    line: Line,
    re: &'a [u32; 2880],
    im: &'a [u32; 2880],
    tan: &'a [u32; 1440],
    volume: &mut [u32],
    scratch: &mut [u32],
    fold: &mut [u32],
    work: &mut [u32],
)
    requires placed { Placed (length volume.old) line
        × TablesFor line re.now im.now tan.now
        × (m ≡ line.m) }
    requires line_below { LineBelow line volume.old }
    requires lent { Lent scratch.old fold.old work.old }
    ensures { (volume.new ≡ line_turned line volume.old)
        × Kept scratch.old scratch.new }
{
    if line.kind == 1 {
        let start = 2 * line.start;
        let end = start + 2 * line.count;
        rows::turn_row(m, line, re, im, tan, &mut volume[start..end], fold, work);
    } else {
        lines::turn_gathered(m, line, re, im, tan, volume, scratch, fold, work);
    }
}

// The lines of each axis come by rising place of their pair at index 0.
pub fn rising_places()
    ensures { RisingPlaces }
{}

// The lines along l leave the sums over l of the factors, those along h the sums over h of these.
pub fn axis_sums()
    ensures { AxisSums }
{}
