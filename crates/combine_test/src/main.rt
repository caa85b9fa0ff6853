// Combines the maps of standard input and prints what each call answers and leaves: the refusal's number or 0, how many numbers were
// written, and two checksums of the whole output. tools/combine_cases.py writes the calls and says what a record holds, and computes by
// brute force what this program must print.
#![tactic(auto)]

ghost use Rattle.std.specs.Prelude.{◌≤◌, length};

use job::{Axis, Job};
use refusals::Refusal;
use std::io;
use std::io::{Read, Write};

// The job of nine numbers, whether or not any opening could have made it.
fn job_said(r: &[u32]) -> Job {
    Job {
        group: test_io::at(r, 0),
        modulus: test_io::at(r, 1),
        a: Axis {
            length: test_io::at(r, 2),
            factors: test_io::at(r, 3),
        },
        b: Axis {
            length: test_io::at(r, 4),
            factors: test_io::at(r, 5),
        },
        c: Axis {
            length: test_io::at(r, 6),
            factors: test_io::at(r, 7),
        },
        state: test_io::at(r, 8),
    }
}

// The low 32 bits of a number's magnitude.
fn low(x: i64) -> u32 {
    (signed::magnitude(x) % 4294967296) as u32
}

// The rest of its magnitude, and its sign: twice the one, and 1 more below zero. No combined number has more than 34 bits.
fn high(x: i64) -> u32 {
    let rest = (signed::magnitude(x) / 4294967296 % 1073741824) as u32;
    if x < 0 {
        return 2 * rest + 1;
    }
    2 * rest
}

// What a call answered, and the checksums of the low parts of an output and of the high ones.
fn print_output<W: Write>(to: &mut W, answer: Result<usize, Refusal>, v: &[i64]) -> io::Result<()>
    requires { length v.now ≤ 256 }
{
    let mut lows = [0u32; 256];
    let mut highs = [0u32; 256];
    for (j, x) in v.iter().enumerate() {
        lows[j] = low(*x);
        highs[j] = high(*x);
    }
    let left = [
        test_io::checksum(&lows[..v.len()]),
        test_io::checksum(&highs[..v.len()]),
    ];
    test_io::print_answer(to, answer, &left)?;
    Ok(())
}

fn run_call<W: Write>(
    to: &mut W,
    first: Job,
    first_map: &[u32],
    second: Job,
    second_map: &[u32],
    output: &mut [i64],
) -> io::Result<()>
    requires { length output.old ≤ 256 }
{
    let answer = combining::combine_maps(first, first_map, second, second_map, output);
    print_output(to, answer, &output[..])
}

// Reads the maps of a call, of the lengths that it names, and lends an output of nines.
fn lend<R: Read, W: Write>(
    from: &mut R,
    to: &mut W,
    first: Job,
    second: Job,
    lengths: &[u32],
) -> io::Result<()> {
    let mut first_numbers = [0u32; 256];
    let mut second_numbers = [0u32; 256];
    let mut output = [9i64; 256];
    let a = test_io::length_at(lengths, 0, 256);
    let b = test_io::length_at(lengths, 1, 256);
    let c = test_io::length_at(lengths, 2, 256);
    let first_map = test_io::numbers_read(from, &mut first_numbers[..a])?;
    let second_map = test_io::numbers_read(from, &mut second_numbers[..b])?;
    run_call(to, first, first_map, second, second_map, &mut output[..c])
}

// Reads a call and runs it; answers whether to go on. Two jobs, three lengths, then the numbers of both maps.
fn next<R: Read, W: Write>(from: &mut R, to: &mut W) -> io::Result<bool> {
    let mut first = [0u32; 9];
    let mut second = [0u32; 9];
    let mut lengths = [0u32; 3];
    let whole = test_io::read_numbers(from, &mut first)?;
    if whole {
        test_io::read_numbers(from, &mut second)?;
        test_io::read_numbers(from, &mut lengths)?;
        lend(from, to, job_said(&first), job_said(&second), &lengths)?;
    }
    Ok(whole)
}

fn main(rt: HostRuntime) -> io::Result<()> {
    let mut from = rt.stdin();
    let mut to = rt.stdout();
    for _ in 0..u32::MAX {
        if !next(&mut from, &mut to)? {
            break;
        }
    }
    Ok(())
}
