// Runs the line transform on the calls of standard input and prints what each answers and leaves: the refusal's number
// or 0, a checksum of the line, a checksum of the scratch. tools/line_cases.py writes the calls and says what a record
// of 52 bytes holds; tools/line_expected.c computes by direct sums what this program must print.
#![tactic(auto)]

ghost use Rattle.std.specs.Prelude.{◌≡◌, ◌<◌, ◌≤◌, length};

use refusals::Refusal;
use std::io;
use std::io::{Read, Write};

fn number(answer: Result<(), Refusal>) -> u32 {
    match answer {
        Ok(()) => 0,
        Err(r) => refusals::number_of(r),
    }
}

// The prime whose residues fill the line of a call, the second for a number that is no modulus.
fn prime_of(modulus: u32) -> u32
    ensures { 0 < result }
{
    if modulus == 1 { 86399 } else { 302399 }
}

// One call on a line and a scratch of exactly the lengths that it names, the line by its seed and one number of it changed.
fn run<W: Write>(
    to: &mut W,
    head: &[u32],
    list: &[u8],
    tail: &[u32],
    line: &mut [u32],
    scratch: &mut [u32],
) -> io::Result<()> {
    test_io::fill_below(line, test_io::at(tail, 1), prime_of(test_io::at(head, 0)));
    test_io::put_at(line, test_io::at(tail, 2), test_io::at(tail, 3));
    let answer = line::line(
        test_io::at(head, 0),
        test_io::at(head, 1),
        test_io::at(head, 2),
        test_io::at(head, 3),
        list,
        line,
        scratch,
    );
    let said = [
        number(answer),
        test_io::checksum(line),
        test_io::checksum(scratch),
    ];
    test_io::print_line(to, &said)?;
    Ok(())
}

fn factors(list: &[u8; 16]) -> &[u8] {
    test_io::part(list, 1, test_io::wide(list[0]), 15)
}

// Makes the buffers of a call: the scratch has sevens.
fn lend<W: Write>(to: &mut W, head: &[u32], list: &[u8; 16], tail: &[u32]) -> io::Result<()> {
    let mut line = [0u32; 6016];
    let mut scratch = [7u32; 12032];
    let n = test_io::length_at(tail, 0, 6016);
    let room = test_io::length_at(tail, 4, 12032);
    run(
        to,
        head,
        factors(list),
        tail,
        &mut line[..n],
        &mut scratch[..room],
    )
}

// Reads a call and runs it; answers whether to go on. The numbers before the list, the list with its length, the numbers behind it.
fn next<R: Read, W: Write>(from: &mut R, to: &mut W) -> io::Result<bool> {
    let mut before = [0u32; 4];
    let mut list = [0u8; 16];
    let mut tail = [0u32; 5];
    let head = test_io::numbers_read(from, &mut before)?;
    test_io::read_bytes(from, &mut list)?;
    let whole = test_io::read_numbers(from, &mut tail)?;
    if whole {
        lend(to, head, &list, &tail)?;
    }
    Ok(whole)
}

fn main(rt: HostRuntime) -> io::Result<()> {
    let mut from = rt.stdin();
    let mut to = rt.stdout();
    for _ in 0..u32::MAX {
        if !next(&mut from, &mut to)? {
            break;
        }
    }
    Ok(())
}
