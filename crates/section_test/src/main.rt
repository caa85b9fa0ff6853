// Runs the section text on the calls of standard input and prints what each answers and leaves: the refusal's number or 0, the count
// written, and a checksum of the output, over all of its places; for some calls the output itself too. tools/section_cases.py writes the
// calls and says what a record holds, and computes by brute force what this program must print.
//
// A number of a map is one of twenty-eight, the ends of the range and those of 64 bits among them.
#![tactic(auto)]

use std::io;
use std::io::{Read, Write};

const COUNTS: [i64; 28] = [
    0,
    1,
    -1,
    9,
    -9,
    10,
    -10,
    99,
    -100,
    12345,
    -54321,
    999999,
    -1000000,
    302398,
    -86398,
    4294967296,
    -4294967295,
    9999999999,
    -10000000000,
    13063485599,
    -13063485599,
    13063485600,
    -13063485600,
    13063485601,
    -13063485601,
    9223372036854775807,
    -9223372036854775807,
    -9223372036854775808,
];

// One call, and what its output holds then.
fn run_call<W: Write>(to: &mut W, head: &[u32], map: &[i64], out: &mut [u8]) -> io::Result<()> {
    let answer = section::section_text(
        test_io::at(head, 0),
        test_io::at(head, 1),
        test_io::at(head, 2),
        test_io::at(head, 3),
        map,
        test_io::at(head, 4),
        out,
    );
    test_io::print_writing(to, answer, out)?;
    if test_io::at(head, 7) == 1 {
        to.write_all(out)?;
        to.write_all(b"\n")?;
    }
    Ok(())
}

// Makes the output of a call, of the length that it names: dots.
fn lend<W: Write>(to: &mut W, head: &[u32], map: &[i64]) -> io::Result<()> {
    let mut out = [46u8; 262144];
    let room = test_io::length_at(head, 6, 262144);
    run_call(to, head, map, &mut out[..room])
}

// The map of a call by its codes.
fn lend_map<R: Read, W: Write>(
    from: &mut R,
    to: &mut W,
    head: &[u32],
    map: &mut [i64],
) -> io::Result<()> {
    test_io::read_named(from, &COUNTS, map)?;
    lend(to, head, map)
}

// Reads a call and runs it; answers whether to go on. Group, the three lengths, z, the lengths of map and output, whether to print it;
// then the map's codes.
fn next<R: Read, W: Write>(from: &mut R, to: &mut W) -> io::Result<bool> {
    let mut head = [0u32; 8];
    let whole = test_io::read_numbers(from, &mut head)?;
    if whole {
        let mut map = [0i64; 16384];
        let n = test_io::length_at(&head, 5, 16384);
        lend_map(from, to, &head, &mut map[..n])?;
    }
    Ok(whole)
}

fn main(rt: HostRuntime) -> io::Result<()> {
    let mut from = rt.stdin();
    let mut to = rt.stdout();
    for _ in 0..u32::MAX {
        if !next(&mut from, &mut to)? {
            break;
        }
    }
    Ok(())
}
