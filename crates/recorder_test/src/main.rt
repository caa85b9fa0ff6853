// Runs the recorder's public calls from standard input and prints what each answers and leaves: openings by group, modulus, lengths and lists,
// openings of factor files, sound and damaged, scripts of calls, and the files of jobs. tools/test_records.py says what the input holds
// and what is printed; tools/job_cases.py and tools/file_cases.py write the input and compute by brute force what must be printed.
// Scripts are replayed here; `cases` does what every other record asks.
#![tactic(auto)]

mod cases; // cases.rt: the records that ask for one call

ghost use Rattle.std.specs.Prelude.{◌≡◌, ◌+◌, ◌<◌, ◌≤◌, length};

use job::Job;
use std::io;
use std::io::{Read, Write};

fn replay_calls<W: Write>(
    to: &mut W,
    job: Job,
    script: &[u32],
    volume: &mut [u32],
    scratch: &mut [u32],
    answers: &mut [i64],
) -> io::Result<Job> {
    let r = scripts::replay::replay(job, script, volume, scratch, answers);
    test_io::print_replay(
        to,
        r.written,
        cases::job_checksum(r.job),
        &volume[..],
        &scratch[..],
        &answers[..],
    )?;
    Ok(r.job)
}

// The script that follows, with a scratch of sevens and answers of nines.
fn replayed<R: Read, W: Write>(
    from: &mut R,
    to: &mut W,
    job: Job,
    r: &[u32],
    volume: &mut [u32],
) -> io::Result<Job> {
    let mut numbers = [0u32; 150];
    let mut scratch = [7u32; 12032];
    let mut answers = [9i64; 80];
    let n = test_io::length_at(r, 2, 150);
    let room = test_io::length_at(r, 3, 12032);
    let space = test_io::length_at(r, 4, 80);
    let script = test_io::numbers_read(from, &mut numbers[..n])?;
    replay_calls(
        to,
        job,
        script,
        volume,
        &mut scratch[..room],
        &mut answers[..space],
    )
}

// What a record asks of the part of the volume that it lends; the job that goes on.
fn next<R: Read, W: Write>(
    from: &mut R,
    to: &mut W,
    job: Job,
    r: &[u32],
    volume: &mut [u32],
) -> io::Result<Job> {
    let lent = test_io::length_at(r, 1, volume.len());
    if test_io::at(r, 0) == 2 {
        return replayed(from, to, job, r, &mut volume[..lent]);
    }
    cases::asked(from, to, job, r, &mut volume[..lent])
}

fn main(rt: HostRuntime) -> io::Result<()> {
    let mut from = rt.stdin();
    let mut to = rt.stdout();
    let mut volume = [0u32; 4096];
    let mut job = cases::no_job();
    let mut r = [0u32; 11];
    for _ in 0..u32::MAX {
        if !test_io::read_numbers(&mut from, &mut r)? {
            break;
        }
        job = next(&mut from, &mut to, job, &r, &mut volume)?;
    }
    Ok(())
}
