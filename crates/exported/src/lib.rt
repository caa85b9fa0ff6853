// The recorder as programs in C see it: each function but the version is a public call of crate line, job, factor_file, faults, combined,
// combining, section, mrc, correlation, sliding_window, scheduler or factor_lists under its C name. Crate exported_c hands them out, and
// include/recorder.h declares them again.
//
// A job, a scheduler, an index and a point go in and come back by value; a buffer is a pointer and a length. Every answer has a number: 0, or
// the paper's number of the refusal. What only an accepted call gives is zero in a refused one.
#![tactic(auto)]

pub mod answers; // answers.rt: what the calls answer, as numbers
pub mod cells; // cells.rt: the unit cell of a viewer's file
pub mod lanes; // lanes.rt: what the calls of a scheduler answer, as numbers

ghost use Rattle.std.specs.Prelude.{◌≡◌};
ghost use Rattle.line.specs.Line.{line_step};
ghost use Rattle.refusals.specs.Checks.{checked_number};
ghost use Rattle.job.specs.Job.{open_step, record_step, synthesis_step, analysis_step, point_step, factor_step};
ghost use Rattle.job.specs.Job.{position, map_power_step, factor_power_step};
ghost use Rattle.factor_file.specs.File.{file_step, write_step, length_step};
ghost use Rattle.factor_file.specs.HeaderRead.{header_step};
ghost use Rattle.combined.specs.Reading.{count_step};
ghost use Rattle.factor_lists.specs.Chosen.{list_step};
ghost use Rattle.faults.specs.Faults.{faults_in};
ghost use Rattle.combining.specs.Combining.{combine_step};
ghost use Rattle.section.specs.Section.{section_step};
ghost use Rattle.mrc.specs.Mrc.{mrc_step};
ghost use Rattle.correlation.specs.Correlation.{header_of, correlation_step};
ghost use Rattle.correlation.specs.Answers.{buffers};
ghost use Rattle.sliding_window.specs.Window.{window_step};
ghost use Rattle.scheduler.specs.Scheduler.{new_scheduler, next_step, enter_step, turn_step, withdraw_step};
ghost use Rattle.exported.specs.Answers.{open_coded, file_coded, faults_coded, record_coded, work_coded, point_coded};
ghost use Rattle.exported.specs.Answers.{factor_coded, power_coded, write_coded, combine_coded, correlation_coded};
ghost use Rattle.exported.specs.Answers.{line_coded, window_coded, header_coded, length_coded, count_coded, version};
ghost use Rattle.exported.specs.Cells.{parameters_of};
ghost use Rattle.exported.specs.Lanes.{next_coded, lane_coded, enter_coded, turn_coded};

use crate::answers::{
    CountCoded, FactorCoded, FaultsCoded, FileCoded, HeaderCoded, JobCoded, LengthCoded,
    PointCoded, PowerCoded, WriteCoded,
};
use crate::cells::CellCoded;
use crate::lanes::{LaneCoded, NextCoded, TurnCoded};
use cell::operations::{Point, UnitCell};
use combined::reading;
use factor_file::{file_header, open_file};
use job::{GridPoint, Job, Reflection};
use mrc::parameters::CellParameters;
use refusals::Refusal;
use scheduler::Scheduler;

// The version of the calls, which RECORDER_VERSION of the header is too.
pub fn recorder_version() -> u32
    ensures { result ≡ version }
{
    20200
}

// The factor list of a length that comes without one.
pub fn recorder_factor_list(length: u32, out: &mut [u8]) -> WriteCoded
    ensures { (result, out.new) ≡ write_coded (list_step length out.old) }
{
    WriteCoded::from(factor_lists::factor_list(length, out))
}

// Opens a job. A refused opening gives a job of zeros, which every call refuses.
pub fn recorder_open(
    group: u32,
    modulus: u32,
    kind: u32,
    n1: u32,
    n2: u32,
    n3: u32,
    f1: &[u8],
    f2: &[u8],
    f3: &[u8],
    volume: &mut [u32],
) -> JobCoded
    ensures { (result, volume.new) ≡ open_coded (open_step modulus (record {
      group = group;
      lengths = (n1, n2, n3);
      list1 = f1.now;
      list2 = f2.now;
      list3 = f3.now;
    }) kind volume.old) }
{
    JobCoded::from(job::open::open(group, modulus, kind, n1, n2, n3, f1, f2, f3, volume))
}

// Opens a job by a factor file. A refused file gives a job of zeros, which every call refuses.
pub fn recorder_open_file(file: &[u8], volume: &mut [u32]) -> FileCoded
    ensures { (result, volume.new) ≡ file_coded (file_step file.now volume.old) }
{
    FileCoded::from(open_file::open_file(file, volume))
}

// What the header of a factor file names.
pub fn recorder_file_header(file: &[u8]) -> HeaderCoded
    ensures { result ≡ header_coded (header_step file.now) }
{
    HeaderCoded::from(file_header::file_header(file))
}

// The fewest records at fault of a factor file.
pub fn recorder_file_faults(file: &[u8]) -> FaultsCoded
    ensures { result ≡ faults_coded (faults_in file.now) }
{
    FaultsCoded::from(faults::file_faults(file))
}

// How long the factor file of a job that holds factors is.
pub fn recorder_file_length(held: Job, volume: &[u32]) -> LengthCoded
    ensures { result ≡ length_coded (length_step held volume.now) }
{
    LengthCoded::from(factor_file::writer::file_length(held, volume))
}

// Writes the factor file of a job that holds factors.
pub fn recorder_write_file(held: Job, volume: &[u32], out: &mut [u8]) -> WriteCoded
    ensures { (result, out.new)
        ≡ write_coded (write_step held volume.now out.old) }
{
    WriteCoded::from(factor_file::writer::write_file(held, volume, out))
}

// Records the structure factor a + b i at an index.
pub fn recorder_record(held: Job, at: Reflection, a: u32, b: u32, volume: &mut [u32]) -> JobCoded
    ensures { (result, volume.new) ≡ record_coded (record_step held at a b volume.old) }
{
    JobCoded::answered(held, held.record(at, a, b, volume))
}

// From factors to the map.
pub fn recorder_synthesis(held: Job, volume: &mut [u32], scratch: &mut [u32]) -> JobCoded
    ensures { (result, volume.new, scratch.new)
        ≡ work_coded (synthesis_step held volume.old scratch.old) }
{
    JobCoded::answered(held, held.synthesis(volume, scratch))
}

// From the map to its factors.
pub fn recorder_analysis(held: Job, volume: &mut [u32], scratch: &mut [u32]) -> JobCoded
    ensures { (result, volume.new, scratch.new)
        ≡ work_coded (analysis_step held volume.old scratch.old) }
{
    JobCoded::answered(held, held.analysis(volume, scratch))
}

// Reads a point of the map.
pub fn recorder_point(held: Job, at: GridPoint, volume: &[u32]) -> PointCoded
    ensures { result ≡ point_coded (point_step held at volume.now).answer }
{
    PointCoded::from(held.point(at, volume))
}

// Reads a structure factor.
pub fn recorder_factor(held: Job, at: Reflection, volume: &[u32]) -> FactorCoded
    ensures { result ≡ factor_coded (factor_step held at volume.now).answer }
{
    FactorCoded::from(held.factor(at, volume))
}

// The power of a map: the sum of its squares over the whole cell, modulo the prime.
pub fn recorder_map_power(held: Job, volume: &[u32]) -> PowerCoded
    ensures { result ≡ power_coded (map_power_step held volume.now).answer }
{
    PowerCoded::from(held.map_power(volume))
}

// The power of factors: the sum of F times its conjugate over the whole cell, modulo the prime.
pub fn recorder_factor_power(held: Job, volume: &[u32]) -> PowerCoded
    ensures { result ≡ power_coded (factor_power_step held volume.now).answer }
{
    PowerCoded::from(held.factor_power(volume))
}

// Combines two maps of one cell, one for each prime.
pub fn recorder_combine(
    first: Job,
    first_map: &[u32],
    second: Job,
    second_map: &[u32],
    output: &mut [i64],
) -> WriteCoded
    ensures { (result, output.new)
        ≡ combine_coded
        (combine_step first first_map.now second second_map.now
        output.old) }
{
    WriteCoded::from(combining::combine_maps(first, first_map, second, second_map, output))
}

// Reads a point of a combined map.
pub fn recorder_combined_point(
    group: u32,
    n1: u32,
    n2: u32,
    n3: u32,
    map: &[i64],
    at: GridPoint,
) -> CountCoded
    ensures { result ≡ count_coded (count_step group (n1, n2, n3) map.now (position at)) }
{
    let unit = UnitCell { group, n1, n2, n3 };
    let point = Point {
        x: at.0,
        y: at.1,
        z: at.2,
    };
    CountCoded::from(reading::count(unit, point, map))
}

// A plane of a combined map as a page of text.
pub fn recorder_section(
    group: u32,
    n1: u32,
    n2: u32,
    n3: u32,
    map: &[i64],
    z: u32,
    out: &mut [u8],
) -> WriteCoded
    ensures { (result, out.new)
        ≡ write_coded (section_step group (n1, n2, n3) map.now z out.old) }
{
    WriteCoded::from(section::section_text(group, n1, n2, n3, map, z, out))
}

// The whole cell of a combined map as a file in the format MRC2014.
pub fn recorder_mrc(
    group: u32,
    n1: u32,
    n2: u32,
    n3: u32,
    map: &[i64],
    cell: CellCoded,
    out: &mut [u8],
) -> WriteCoded
    ensures { (result, out.new)
        ≡ write_coded
        (mrc_step (record { group = group; n1 = n1; n2 = n2; n3 = n3 }) map.now (parameters_of cell)
        out.old) }
{
    let unit = UnitCell { group, n1, n2, n3 };
    WriteCoded::from(mrc::mrc_map(unit, map, CellParameters::from(cell), out))
}

// The correlation of two combined maps of P1, at every shift.
pub fn recorder_correlate(
    n1: u32,
    n2: u32,
    n3: u32,
    f1: &[u8],
    f2: &[u8],
    f3: &[u8],
    a: &[i64],
    b: &[i64],
    output: &mut [i64],
    work1: &mut [u32],
    work2: &mut [u32],
    work3: &mut [u32],
    scratch: &mut [u32],
) -> WriteCoded
    ensures { (
      result,
      buffers output.new work1.new work2.new work3.new
          scratch.new,
    )
        ≡ correlation_coded
        (correlation_step (header_of (n1, n2, n3) f1.now f2.now f3.now)
        a.now b.now
        (buffers output.old work1.old work2.old work3.old
        scratch.old)) }
{
    WriteCoded::from(correlation::correlate(
        n1, n2, n3, f1, f2, f3, a, b, output, work1, work2, work3, scratch,
    ))
}

// Transforms one line.
pub fn recorder_line(
    modulus: u32,
    kind: u32,
    direction: u32,
    length: u32,
    factors: &[u8],
    line: &mut [u32],
    scratch: &mut [u32],
) -> u32
    ensures { (result, line.new, scratch.new)
        ≡ line_coded
        (line_step modulus kind direction length factors.now line.old scratch.old) }
{
    line_number(line::line(modulus, kind, direction, length, factors, line, scratch))
}

fn line_number(answer: Result<(), Refusal>) -> u32
    ensures { result ≡ checked_number answer }
{
    match answer {
        Ok(()) => 0,
        Err(refusal) => refusals::number_of(refusal),
    }
}

// The least and the greatest score of each window of a run, and the first places of both.
pub fn recorder_drift(
    run: &[i64],
    w: u32,
    least: &mut [i64],
    greatest: &mut [i64],
    least_at: &mut [u64],
    greatest_at: &mut [u64],
) -> WriteCoded
    ensures { (
      result,
      record {
        least = least.new;
        greatest = greatest.new;
        place_of_least = least_at.new;
        place_of_greatest = greatest_at.new;
      },
    )
        ≡ window_coded (window_step run.now w (record {
          least = least.old;
          greatest = greatest.old;
          place_of_least = least_at.old;
          place_of_greatest = greatest_at.old;
        })) }
{
    WriteCoded::from(sliding_window::window_extremes(
        run,
        w,
        least,
        greatest,
        least_at,
        greatest_at,
    ))
}

// Eight free lanes, of which none was served.
pub fn recorder_scheduler_new() -> Scheduler
    ensures { result ≡ new_scheduler }
{
    Scheduler::new()
}

// The lane that the next turn serves.
pub fn recorder_scheduler_next(held: Scheduler) -> NextCoded
    ensures { result ≡ next_coded (next_step held) }
{
    NextCoded::from(held.next())
}

// A job enters a lane.
pub fn recorder_scheduler_enter(
    held: Scheduler,
    lane: u32,
    job: Job,
    volume: &[u32],
    scratch: &mut [u32],
) -> LaneCoded
    ensures { (result, scratch.new)
        ≡ enter_coded (enter_step held lane job volume.now scratch.old) }
{
    LaneCoded::answered(held, held.enter(lane, job, volume, scratch))
}

// One line of the lane whose turn is next, in the volume of that lane.
pub fn recorder_scheduler_turn(
    held: Scheduler,
    volume: &mut [u32],
    scratch: &mut [u32],
) -> TurnCoded
    ensures { (result, volume.new, scratch.new)
        ≡ turn_coded (turn_step held volume.old scratch.old) }
{
    TurnCoded::answered(held, held.turn(volume, scratch))
}

// A job leaves its lane before it is finished.
pub fn recorder_scheduler_withdraw(held: Scheduler, lane: u32) -> LaneCoded
    ensures { result ≡ lane_coded (withdraw_step held lane) }
{
    LaneCoded::answered(held, held.withdraw(lane))
}
