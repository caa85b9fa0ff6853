// Runs the MRC map on the calls of standard input and prints what each answers and leaves: the refusal's number or 0, the count
// written, and a checksum of the whole output. tools/mrc_cases.py writes the calls and says what a record holds, and computes by
// brute force what this program must print.
//
// A number of the map is one of eighteen, the ends of what a float holds and of 64 bits among them.
#![tactic(auto)]

use cell::operations::UnitCell;
use mrc::parameters::CellParameters;
use std::io;
use std::io::{Read, Write};

const NUMBERS: [i64; 18] = [
    0,
    1,
    -1,
    2,
    -3,
    7,
    1000,
    -43199,
    151199,
    16777214,
    16777215,
    -16777215,
    16777216,
    -16777216,
    13063485600,
    -13063485600,
    9223372036854775807,
    -9223372036854775808,
];

// The float of some bits. There is one NaN here, whatever its bits.
fn float_of(bits: u32) -> f32 {
    let zero: f32 = 0.0;
    if 2139095040 < bits % 2147483648 {
        zero / zero
    } else {
        f32::from_bits(bits)
    }
}

// The parameters that a record names: three angles for kind 0, one for the others.
fn parameters_of(head: &[u32]) -> CellParameters {
    let a = float_of(test_io::at(head, 6));
    let b = float_of(test_io::at(head, 7));
    let c = float_of(test_io::at(head, 8));
    let gamma = float_of(test_io::at(head, 11));
    if test_io::at(head, 5) == 0 {
        let alpha = float_of(test_io::at(head, 9));
        let beta = float_of(test_io::at(head, 10));
        return CellParameters::Triclinic {
            a,
            b,
            c,
            alpha,
            beta,
            gamma,
        };
    }
    CellParameters::Monoclinic { a, b, c, gamma }
}

fn cell_of(head: &[u32]) -> UnitCell {
    UnitCell {
        group: test_io::at(head, 0),
        n1: test_io::at(head, 1),
        n2: test_io::at(head, 2),
        n3: test_io::at(head, 3),
    }
}

// One call on an output, and all that it holds then.
fn run_call<W: Write>(to: &mut W, head: &[u32], map: &[i64], out: &mut [u8]) -> io::Result<()> {
    let answer = mrc::mrc_map(cell_of(head), map, parameters_of(head), out);
    test_io::print_writing(to, answer, out)?;
    Ok(())
}

// The map of a call by its codes, and an output of nines.
fn lend_map<R: Read, W: Write>(
    from: &mut R,
    to: &mut W,
    head: &[u32],
    map: &mut [i64],
) -> io::Result<()> {
    test_io::read_named(from, &NUMBERS, map)?;
    let mut out = [9u8; 2048];
    let room = test_io::length_at(head, 12, 2048);
    run_call(to, head, map, &mut out[..room])
}

// Reads a call and runs it; answers whether to go on.
fn next<R: Read, W: Write>(from: &mut R, to: &mut W) -> io::Result<bool> {
    let mut head = [0u32; 13];
    let whole = test_io::read_numbers(from, &mut head)?;
    if whole {
        let mut map = [0i64; 1024];
        let n = test_io::length_at(&head, 4, 1024);
        lend_map(from, to, &head, &mut map[..n])?;
    }
    Ok(whole)
}

fn main(rt: HostRuntime) -> io::Result<()> {
    let mut from = rt.stdin();
    let mut to = rt.stdout();
    for _ in 0..u32::MAX {
        if !next(&mut from, &mut to)? {
            break;
        }
    }
    Ok(())
}
