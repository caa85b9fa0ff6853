// The records of a factor file: judged in a first walk over the file, recorded in a second.
//
// Two records of one orbit are refused whatever their values, so what a record wrote cannot tell that its orbit has come before: a zero
// writes nothing. The first walk therefore records nothing. It marks, on the volume that the opening zeroed, the place of each record's orbit,
// and a record whose orbit is marked is refused. The time is that of two walks, and no memory is needed but the lent volume.
ghost use Rattle.std.specs.Prelude.{◌≡◌, List, [], ◌∷◌, ◌+◌};
ghost use Rattle.algebra.specs.cells.Cell.{J};
ghost use Rattle.refusals.specs.Refusals.{first};
ghost use Rattle.refusals.specs.Checks.{checked_number};
ghost use Rattle.cell.specs.Operations.{cell_group, cell_halves, cell_lengths, triple_of, Within};
ghost use Rattle.cell.specs.TestSteps.{IsVolume};
ghost use Rattle.numbers.specs.Value.{IsModulus};
ghost use Rattle.file_format.specs.Format.{shape_tests, count_at, records_in};
ghost use Rattle.file_format.specs.Places.{PlacesOf};
ghost use Rattle.job.specs.Job.{job_cell};
ghost use Rattle.factor_file.specs.File.{judge_tests, orbit_seen, taken, judged, record_all_on, feed};
ghost use Rattle.factor_file.specs.Marks.{Marked, IsEmpty};
ghost use Rattle.factor_file.specs.Answers.{said_verdict, file_outcome};

use crate::FileRefusal;
use cell::operations::{Index, UnitCell};
use file_format::places::Places;
use file_format::reader;
use job::Job;
use numbers::Pair;
use refusals::Refusal;

// The records of a file of sound shape, in a job that was opened: all are recorded, or one is refused, and the volume is left zero.
pub fn feed_records(
    file: &[u8],
    places: Places,
    job: Job,
    volume: &mut [u32],
) -> Result<Job, FileRefusal>
    requires { PlacesOf file.now places
        × (0 ≡ first (shape_tests file.now))
        × IsEmpty (job_cell job) volume.old
        × IsModulus job.modulus }
    ensures { file_outcome result volume.new
        ≡ feed (records_in file.now) job volume.old }
{
    let cell = job.unit_cell();
    let start = file_format::places::first_record(places);
    let verdict = judge_records(file, start, job.modulus, cell, volume);
    slices::buffers::zero(volume);
    verdict?;
    record_all(file, start, job.modulus, cell, volume);
    Ok(job)
}

// The first walk, on numbers that are zero: afterwards they are marks.
fn judge_records(
    file: &[u8],
    start: usize,
    modulus: u32,
    cell: UnitCell,
    marks: &mut [u32],
) -> Result<(), FileRefusal>
    requires { (start ≡ count_at file.now + 4)
        × (0 ≡ first (shape_tests file.now))
        × IsEmpty cell marks.old
        × IsModulus modulus }
    ensures { said_verdict result
        ≡ judged modulus cell.group (cell_lengths cell) [] (records_in file.now) }
{
    let mut at = start;
    let mut place = 0;
    // A `loop`: what was read says whether a record stands here, and where the next one does.
    loop {
        let step = reader::read_record(file, at);
        let Some(c) = step.found else {
            return Ok(());
        };
        let j = Index {
            h: c.h,
            k: c.k,
            l: c.l,
        };
        let x = Pair { re: c.a, im: c.b };
        if let Err(refusal) = judge_record(modulus, cell, j, x, marks) {
            return Err(FileRefusal { refusal, place });
        }
        place += 1;
        at = step.after;
    }
}

// 10, 7, 12, 24 of one record. The orbit of one that is taken is marked.
fn judge_record(
    modulus: u32,
    cell: UnitCell,
    j: Index,
    x: Pair,
    marks: &mut [u32],
) -> Result<(), Refusal>
    requires { IsVolume cell marks.old × IsModulus modulus }
    ensures { (before : List J) → Marked (cell_group cell) (cell_halves cell) marks.old before
        →
        (checked_number result
        ≡ first (judge_tests modulus cell.group (cell_lengths cell) before (triple_of j) x.re x.im))
        ×
        (checked_number result ≡ 0 →
        Marked (cell_group cell) (cell_halves cell) marks.new (triple_of j ∷ before)) }
{
    job::check::record::check_own(modulus, cell, j, x)?;
    mark_orbit(cell, j, marks)
}

// 24 if the orbit is marked, and else it is marked.
fn mark_orbit(cell: UnitCell, j: Index, marks: &mut [u32]) -> Result<(), Refusal>
    requires { IsVolume cell marks.old × Within cell j }
    ensures { (before : List J) → Marked (cell_group cell) (cell_halves cell) marks.old before
        → (checked_number result ≡ first (orbit_seen cell.group (cell_lengths cell) before (triple_of j)))
        ×
        (checked_number result ≡ 0 →
        Marked (cell_group cell) (cell_halves cell) marks.new (triple_of j ∷ before)) }
{
    let place = volume::orbit_place::orbit_place(cell, j);
    if marks[place] != 0 {
        return Err(Refusal::Occupied);
    }
    marks[place] = 1;
    Ok(())
}

// The second walk: no test is left to make.
fn record_all(file: &[u8], start: usize, modulus: u32, cell: UnitCell, volume: &mut [u32])
    requires start_value { (start ≡ count_at file.now + 4)
        × (0 ≡ first (shape_tests file.now))
        × IsVolume cell volume.old
        × IsModulus modulus }
    requires file_value { judged modulus cell.group (cell_lengths cell) [] (records_in file.now) ≡ taken }
    ensures { volume.new
        ≡ record_all_on (cell_group cell) (cell_halves cell) modulus (records_in file.now)
        volume.old }
{
    let mut at = start;
    // A `loop`: what was read says whether a record stands here, and where the next one does.
    loop {
        let step = reader::read_record(file, at);
        let Some(c) = step.found else {
            return;
        };
        let j = Index {
            h: c.h,
            k: c.k,
            l: c.l,
        };
        let x = Pair { re: c.a, im: c.b };
        volume::record::write_images(modulus, cell, j, x, volume);
        at = step.after;
    }
}
