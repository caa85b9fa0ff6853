// Runs the calls of standard input on a scheduler and prints what each answers and leaves: the answer's number, the lane that it names, and
// checksums of the job that it gives, of the scheduler, of the volume and of the scratch. tools/scheduler_cases.py writes the calls and says
// what a record holds and what the numbers mean, and computes by brute force what this program must print.
//
// The scheduler is kept from call to call, as the last one left it, and so is every lane's volume: records set their numbers, to what no
// call could have left too.
#![tactic(auto)]

mod fields; // fields.rt: a scheduler and a job by their numbers

use job::Job;
use refusals::Refusal;
use scheduler::{Progress, Scheduler};
use std::io;
use std::io::{Read, Write};

// What a call said: a refusal's number, 0 done, 100 idle, 101 served, 102 finished, 103 next; the lane or 0; the job or none.
#[derive(Clone, Copy)]
struct Said {
    number: u32,
    lane: u32,
    job: Job,
}

fn without_job(number: u32, lane: u32) -> Said {
    Said {
        number,
        lane,
        job: fields::no_job(),
    }
}

fn of_refusal(refusal: Refusal) -> Said {
    without_job(refusals::number_of(refusal), 0)
}

fn of_lane(answer: Result<Scheduler, Refusal>) -> Said {
    match answer {
        Ok(_) => without_job(0, 0),
        Err(refusal) => of_refusal(refusal),
    }
}

fn of_turn(progress: Progress) -> Said {
    match progress {
        Progress::Idle => without_job(100, 0),
        Progress::Served(lane) => without_job(101, lane),
        Progress::Finished(lane, job) => Said {
            number: 102,
            lane,
            job,
        },
    }
}

fn of_next(answer: Result<Option<u32>, Refusal>) -> Said {
    match answer {
        Ok(Some(lane)) => without_job(103, lane),
        Ok(None) => without_job(100, 0),
        Err(refusal) => of_refusal(refusal),
    }
}

// Keeps the scheduler that a call left, and prints what it said and all that stands then.
fn print_said<W: Write>(
    to: &mut W,
    said: Said,
    s: Scheduler,
    lanes: &mut [u32],
    volume: &[u32],
    scratch: &[u32],
) -> io::Result<()> {
    fields::put_scheduler(s, lanes);
    let line = [
        said.number,
        said.lane,
        fields::job_checksum(said.job),
        test_io::checksum(lanes),
        test_io::checksum(volume),
        test_io::checksum(scratch),
    ];
    test_io::print_line(to, &line)?;
    Ok(())
}

fn entered<W: Write>(
    to: &mut W,
    r: &[u32],
    lanes: &mut [u32],
    volume: &[u32],
    scratch: &mut [u32],
) -> io::Result<()> {
    let s = fields::scheduler_in(&lanes[..]);
    let job = fields::job_at(&lanes[..], 81);
    let answer = s.enter(test_io::at(r, 1), job, volume, scratch);
    print_said(
        to,
        of_lane(answer),
        answer.unwrap_or(s),
        lanes,
        volume,
        &scratch[..],
    )
}

fn turned<W: Write>(
    to: &mut W,
    lanes: &mut [u32],
    volume: &mut [u32],
    scratch: &mut [u32],
) -> io::Result<()> {
    let s = fields::scheduler_in(&lanes[..]);
    match s.turn(volume, scratch) {
        Ok(turned) => print_said(
            to,
            of_turn(turned.progress),
            turned.scheduler,
            lanes,
            &volume[..],
            &scratch[..],
        ),
        Err(refusal) => print_said(to, of_refusal(refusal), s, lanes, &volume[..], &scratch[..]),
    }
}

fn withdrawn<W: Write>(
    to: &mut W,
    r: &[u32],
    lanes: &mut [u32],
    volume: &[u32],
    scratch: &[u32],
) -> io::Result<()> {
    let s = fields::scheduler_in(&lanes[..]);
    let answer = s.withdraw(test_io::at(r, 1));
    print_said(
        to,
        of_lane(answer),
        answer.unwrap_or(s),
        lanes,
        volume,
        scratch,
    )
}

fn asked<W: Write>(
    to: &mut W,
    lanes: &mut [u32],
    volume: &[u32],
    scratch: &[u32],
) -> io::Result<()> {
    let s = fields::scheduler_in(&lanes[..]);
    print_said(to, of_next(s.next()), s, lanes, volume, scratch)
}

// The call that a record asks for.
fn called<W: Write>(
    to: &mut W,
    r: &[u32],
    lanes: &mut [u32],
    volume: &mut [u32],
    scratch: &mut [u32],
) -> io::Result<()> {
    let operation = test_io::at(r, 0);
    match operation {
        0 => entered(to, r, lanes, &volume[..], scratch),
        1 => turned(to, lanes, volume, scratch),
        2 => withdrawn(to, r, lanes, &volume[..], &scratch[..]),
        _ => asked(to, lanes, &volume[..], &scratch[..]),
    }
}

// The same with a scratch of sevens, of the length that the record names.
fn lend<W: Write>(to: &mut W, r: &[u32], lanes: &mut [u32], volume: &mut [u32]) -> io::Result<()> {
    let mut scratch = [7u32; 11600];
    let n = test_io::length_at(r, 4, 11600);
    called(to, r, lanes, volume, &mut scratch[..n])
}

// The numbers that follow, into the part that a record names.
fn read_part<R: Read>(from: &mut R, r: &[u32], v: &mut [u32]) -> io::Result<()> {
    let start = test_io::length_at(r, 2, v.len());
    let end = start + test_io::length_at(r, 3, v.len() - start);
    test_io::read_numbers(from, &mut v[start..end])?;
    Ok(())
}

// A call on the part of the volumes that a record names.
fn lend_part<W: Write>(
    to: &mut W,
    r: &[u32],
    lanes: &mut [u32],
    volumes: &mut [u32],
) -> io::Result<()> {
    let start = test_io::length_at(r, 2, volumes.len());
    let end = start + test_io::length_at(r, 3, volumes.len() - start);
    lend(to, r, lanes, &mut volumes[start..end])
}

fn next<R: Read, W: Write>(
    from: &mut R,
    to: &mut W,
    r: &[u32],
    lanes: &mut [u32],
    volumes: &mut [u32],
) -> io::Result<()> {
    let operation = test_io::at(r, 0);
    match operation {
        4 => fields::put_scheduler(Scheduler::new(), lanes),
        5 => return read_part(from, r, lanes),
        6 => return read_part(from, r, volumes),
        _ => return lend_part(to, r, lanes, volumes),
    }
    Ok(())
}

// The lanes are the 81 numbers of a scheduler and nine of a job. A record is five numbers: the operation, a lane, a place and a length, the
// length of the scratch.
fn main(rt: HostRuntime) -> io::Result<()> {
    let mut from = rt.stdin();
    let mut to = rt.stdout();
    let mut lanes = [0u32; 90];
    let mut volumes = [0u32; 4096];
    let mut r = [0u32; 5];
    for _ in 0..u32::MAX {
        if !test_io::read_numbers(&mut from, &mut r)? {
            break;
        }
        next(&mut from, &mut to, &r, &mut lanes, &mut volumes)?;
    }
    Ok(())
}
