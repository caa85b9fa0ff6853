// Runs the sliding window on the calls of standard input and prints what each answers and leaves: the refusal's number or 0, the count
// written, and a checksum of each of the four outputs, over all of its places. tools/window_cases.py writes the calls and says what a
// record holds, and computes by brute force what this program must print.
//
// A score is one of eight, the ends of 64 bits among them, so that most windows have ties.
#![tactic(auto)]

ghost use Rattle.std.specs.Prelude.{◌≤◌, length};

use std::io;
use std::io::{Read, Write};

const SCORES: [i64; 8] = [
    -9223372036854775808,
    -9223372036854775807,
    -2,
    -1,
    0,
    1,
    9223372036854775806,
    9223372036854775807,
];

// The place of a score among them: 8 for a number that is none of them, as stands in places that were not written.
fn code(x: i64) -> u32 {
    match SCORES.iter().position(|score| *score == x) {
        Some(place) => place as u32,
        None => 8,
    }
}

fn scores_checksum(v: &[i64]) -> u32
    requires { length v.now ≤ 256 }
{
    let mut codes = [0u32; 256];
    for (c, x) in codes.iter_mut().zip(v) {
        *c = code(*x);
    }
    test_io::checksum(&codes[..v.len()])
}

fn places_checksum(v: &[u64]) -> u32
    requires { length v.now ≤ 256 }
{
    let mut places = [0u32; 256];
    for (place, x) in places.iter_mut().zip(v) {
        *place = (x % 4294967296) as u32;
    }
    test_io::checksum(&places[..v.len()])
}

// One call on the four outputs, and all that they hold then.
fn run_call<W: Write>(
    to: &mut W,
    w: u32,
    run: &[i64],
    least: &mut [i64],
    greatest: &mut [i64],
    least_at: &mut [u64],
    greatest_at: &mut [u64],
) -> io::Result<()>
    requires { (length least.old ≤ 256)
        × (length greatest.old ≤ 256)
        × (length least_at.old ≤ 256)
        × (length greatest_at.old ≤ 256) }
{
    let answer = sliding_window::window_extremes(run, w, least, greatest, least_at, greatest_at);
    let left = [
        scores_checksum(least),
        scores_checksum(greatest),
        places_checksum(least_at),
        places_checksum(greatest_at),
    ];
    test_io::print_answer(to, answer, &left)?;
    Ok(())
}

// Makes the outputs of a call, of the lengths that it names: those of scores have nines, which is no score, those of places sevens.
fn lend<W: Write>(to: &mut W, head: &[u32], run: &[i64]) -> io::Result<()> {
    let mut least = [9i64; 256];
    let mut greatest = [9i64; 256];
    let mut least_at = [7u64; 256];
    let mut greatest_at = [7u64; 256];
    let a = test_io::length_at(head, 2, 256);
    let b = test_io::length_at(head, 3, 256);
    let c = test_io::length_at(head, 4, 256);
    let d = test_io::length_at(head, 5, 256);
    run_call(
        to,
        test_io::at(head, 0),
        run,
        &mut least[..a],
        &mut greatest[..b],
        &mut least_at[..c],
        &mut greatest_at[..d],
    )
}

// The run of a call by its codes.
fn lend_run<R: Read, W: Write>(
    from: &mut R,
    to: &mut W,
    head: &[u32],
    run: &mut [i64],
) -> io::Result<()> {
    test_io::read_named(from, &SCORES, run)?;
    lend(to, head, run)
}

// Reads a call and runs it; answers whether to go on. The window's length, the run's, those of the four outputs, then the run's codes.
fn next<R: Read, W: Write>(from: &mut R, to: &mut W) -> io::Result<bool> {
    let mut head = [0u32; 6];
    let whole = test_io::read_numbers(from, &mut head)?;
    if whole {
        let mut run = [0i64; 256];
        let n = test_io::length_at(&head, 1, 256);
        lend_run(from, to, &head, &mut run[..n])?;
    }
    Ok(whole)
}

fn main(rt: HostRuntime) -> io::Result<()> {
    let mut from = rt.stdin();
    let mut to = rt.stdout();
    for _ in 0..u32::MAX {
        if !next(&mut from, &mut to)? {
            break;
        }
    }
    Ok(())
}
