// The records of the recorder test that ask for one call: openings by group, modulus, lengths and lists, openings of factor files, sound and
// damaged, and their records at fault, the files of jobs; and those that set a job or numbers of the volume. Each prints what its call answers and leaves.
// tools/test_records.py says what a record holds and what is printed.
ghost use Rattle.std.specs.Prelude.{◌≡◌, ◌<◌, length, replicate, IfOk};
ghost use Rattle.test_io.specs.Checksum.{checksum_of};
ghost use Rattle.recorder_test.specs.Records.{numbers_of, axis_in, job_in, JobAfter};

use factor_file::{FileRefusal, open_file};
use faults::Faults;
use job::{Axis, Job};
use refusals::Refusal;
use std::io;
use std::io::{Read, Write};

// What a record asks of the part of the volume that it lends; the job that goes on.
pub fn asked<R: Read, W: Write>(
    from: &mut R,
    to: &mut W,
    job: Job,
    r: &[u32],
    volume: &mut [u32],
) -> io::Result<Job>
    ensures { IfOk result (λ after. JobAfter r.now job after) }
{
    let operation = test_io::at(r, 0);
    match operation {
        0 => return opened(from, to, job, r, volume),
        1 => return file_opened(from, to, job, r, volume),
        3 => written(to, job, r, &volume[..])?,
        4 => return Ok(job_said(r)),
        5 => test_io::fill(volume, test_io::at(r, 2)),
        _ => test_io::put_at(volume, test_io::at(r, 2), test_io::at(r, 3)),
    }
    Ok(job)
}

pub fn no_job() -> Job
    ensures { numbers_of result ≡ replicate 9 0 }
{
    let none = Axis {
        length: 0,
        factors: 0,
    };
    Job {
        group: 0,
        modulus: 0,
        a: none,
        b: none,
        c: none,
        state: 0,
    }
}

pub fn job_checksum(j: Job) -> u32
    ensures { result ≡ checksum_of (numbers_of j) }
{
    let numbers = [
        j.group,
        j.modulus,
        j.a.length,
        j.a.factors,
        j.b.length,
        j.b.factors,
        j.c.length,
        j.c.factors,
        j.state,
    ];
    test_io::checksum(&numbers)
}

// The job itself, whether or not any opening could have made it.
fn job_said(r: &[u32]) -> Job
    ensures { result ≡ job_in r.now }
{
    Job {
        group: test_io::at(r, 2),
        modulus: test_io::at(r, 3),
        a: axis_said(r, 4),
        b: axis_said(r, 6),
        c: axis_said(r, 8),
        state: test_io::at(r, 10),
    }
}

fn axis_said(r: &[u32], i: usize) -> Axis
    requires { i < 10 }
    ensures { result ≡ axis_in r.now i }
{
    Axis {
        length: test_io::at(r, i),
        factors: test_io::at(r, i + 1),
    }
}

// What an opening said: the refusal's number or 0, the record's place or 0, the job that is printed and the job that goes on.
#[derive(Clone, Copy)]
struct Opening {
    number: u32,
    place: u32,
    printed: Job,
    kept: Job,
}

// Prints what an opening said and left; the job that goes on.
fn print_opening<W: Write>(to: &mut W, o: Opening, volume: &[u32]) -> io::Result<Job> {
    let said = [
        o.number,
        o.place,
        job_checksum(o.printed),
        test_io::checksum(volume),
    ];
    test_io::print_line(to, &said)?;
    Ok(o.kept)
}

fn of_file(answer: Result<Job, FileRefusal>, before: Job) -> Opening {
    match answer {
        Ok(job) => Opening {
            number: 0,
            place: 0,
            printed: job,
            kept: job,
        },
        Err(refused) => Opening {
            number: refusals::number_of(refused.refusal),
            place: refused.place,
            printed: no_job(),
            kept: before,
        },
    }
}

fn of_open(answer: Result<Job, Refusal>, before: Job) -> Opening {
    match answer {
        Ok(job) => Opening {
            number: 0,
            place: 0,
            printed: job,
            kept: job,
        },
        Err(refusal) => Opening {
            number: refusals::number_of(refusal),
            place: 0,
            printed: before,
            kept: before,
        },
    }
}

fn print_faults<W: Write>(to: &mut W, answer: Faults) -> io::Result<()> {
    match answer {
        Faults::NoFault => print_places(to, 0, 0, 0),
        Faults::One(place) => print_places(to, 1, place, 0),
        Faults::Two(first, second) => print_places(to, 2, first, second),
    }
}

// How many records of a file are at fault, and their places.
fn print_places<W: Write>(to: &mut W, count: u32, first: u32, second: u32) -> io::Result<()> {
    let said = [count, first, second];
    test_io::print_line(to, &said)?;
    Ok(())
}

// The records at fault of the file that follows, and its opening on a volume of sevens.
fn file_opened<R: Read, W: Write>(
    from: &mut R,
    to: &mut W,
    before: Job,
    r: &[u32],
    volume: &mut [u32],
) -> io::Result<Job> {
    let mut bytes = [0u8; 1024];
    let n = test_io::length_at(r, 2, 1024);
    let file = test_io::bytes_read(from, &mut bytes[..n])?;
    print_faults(to, faults::file_faults(file))?;
    test_io::fill_with(volume, 7);
    let answer = open_file::open_file(file, volume);
    print_opening(to, of_file(answer, before), &volume[..])
}

// The opening by group, modulus, kind, lengths and the lists that follow.
fn opened<R: Read, W: Write>(
    from: &mut R,
    to: &mut W,
    before: Job,
    r: &[u32],
    volume: &mut [u32],
) -> io::Result<Job> {
    let mut lists = [0u8; 48];
    test_io::read_bytes(from, &mut lists)?;
    let answer = open_listed(r, &lists, volume);
    print_opening(to, of_open(answer, before), &volume[..])
}

// The three factor lists have 16 bytes each.
fn open_listed(r: &[u32], lists: &[u8], volume: &mut [u32]) -> Result<Job, Refusal>
    requires { length lists.now ≡ 48 }
{
    job::open::open(
        test_io::at(r, 2),
        test_io::at(r, 3),
        test_io::at(r, 4),
        test_io::at(r, 5),
        test_io::at(r, 6),
        test_io::at(r, 7),
        test_io::part(lists, 0, test_io::at(r, 8), 16),
        test_io::part(lists, 16, test_io::at(r, 9), 16),
        test_io::part(lists, 32, test_io::at(r, 10), 16),
        volume,
    )
}

// The job's file, into an output of sevens.
fn written<W: Write>(to: &mut W, job: Job, r: &[u32], volume: &[u32]) -> io::Result<()> {
    let mut out = [7u8; 4096];
    let n = test_io::length_at(r, 2, 4096);
    write_bytes(to, job, volume, &mut out[..n])
}

fn write_bytes<W: Write>(to: &mut W, job: Job, volume: &[u32], out: &mut [u8]) -> io::Result<()> {
    let answer = factor_file::writer::write_file(job, volume, out);
    test_io::print_writing(to, answer, &out[..])?;
    Ok(())
}
