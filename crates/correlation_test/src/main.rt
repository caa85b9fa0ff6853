// Runs the correlation on the calls of standard input and prints what each answers and leaves: the refusal's number or 0, the count
// written, a checksum of each work volume and of the scratch, over all of its places; then the numbers of the output.
// tools/correlation_cases.py writes the calls and says what a record holds, and computes by brute force what this program must print.
//
// A count is one of sixteen, the limit, its neighbours and the ends of 64 bits among them.
#![tactic(auto)]

ghost use Rattle.std.specs.Prelude.{◌≡◌, length};

use std::io;
use std::io::{Read, Write};

const COUNTS: [i64; 16] = [
    -9223372036854775808,
    -13063485601,
    -13063485600,
    -114295,
    -3,
    -2,
    -1,
    0,
    1,
    2,
    5,
    114296,
    6531742800,
    13063485600,
    13063485601,
    9223372036854775807,
];

// One call on the buffers, and all that they hold then.
fn run_call<W: Write>(
    to: &mut W,
    head: &[u32],
    lists: &[u8],
    a: &[i64],
    b: &[i64],
    output: &mut [i64],
    work1: &mut [u32],
    work2: &mut [u32],
    work3: &mut [u32],
    scratch: &mut [u32],
) -> io::Result<()>
    requires { length lists.now ≡ 24 }
{
    let answer = correlation::correlate(
        test_io::at(head, 0),
        test_io::at(head, 1),
        test_io::at(head, 2),
        test_io::part(lists, 0, test_io::at(head, 3), 8),
        test_io::part(lists, 8, test_io::at(head, 4), 8),
        test_io::part(lists, 16, test_io::at(head, 5), 8),
        a,
        b,
        output,
        work1,
        work2,
        work3,
        scratch,
    );
    let left = [
        test_io::checksum(work1),
        test_io::checksum(work2),
        test_io::checksum(work3),
        test_io::checksum(scratch),
    ];
    test_io::print_answer(to, answer, &left)?;
    test_io::print_signed_line(to, output)?;
    Ok(())
}

// Makes the buffers of a call, of the lengths that it names: the output has nines, the work volumes sevens and the scratch fives.
fn lend<W: Write>(to: &mut W, head: &[u32], lists: &[u8], a: &[i64], b: &[i64]) -> io::Result<()>
    requires { length lists.now ≡ 24 }
{
    let mut output = [9i64; 256];
    let mut work1 = [7u32; 256];
    let mut work2 = [7u32; 256];
    let mut work3 = [7u32; 256];
    let mut scratch = [5u32; 11600];
    let n = test_io::length_at(head, 8, 256);
    let n1 = test_io::length_at(head, 9, 256);
    let n2 = test_io::length_at(head, 10, 256);
    let n3 = test_io::length_at(head, 11, 256);
    let s = test_io::length_at(head, 12, 11600);
    run_call(
        to,
        head,
        lists,
        a,
        b,
        &mut output[..n],
        &mut work1[..n1],
        &mut work2[..n2],
        &mut work3[..n3],
        &mut scratch[..s],
    )
}

// The second map of a call by its codes.
fn lend_second<R: Read, W: Write>(
    from: &mut R,
    to: &mut W,
    head: &[u32],
    lists: &[u8],
    a: &[i64],
    b: &mut [i64],
) -> io::Result<()>
    requires { length lists.now ≡ 24 }
{
    test_io::read_named(from, &COUNTS, b)?;
    lend(to, head, lists, a, b)
}

// The first map of a call by its codes, then the second.
fn lend_first<R: Read, W: Write>(
    from: &mut R,
    to: &mut W,
    head: &[u32],
    lists: &[u8],
    a: &mut [i64],
) -> io::Result<()>
    requires { length lists.now ≡ 24 }
{
    test_io::read_named(from, &COUNTS, a)?;
    let mut b = [0i64; 256];
    let n = test_io::length_at(head, 7, 256);
    lend_second(from, to, head, lists, a, &mut b[..n])
}

// Reads a call and runs it; answers whether to go on. Three lengths, those of the three lists, of the two maps, the output, the three
// work volumes and the scratch; then the lists in eight bytes each, and the codes of both maps.
fn next<R: Read, W: Write>(from: &mut R, to: &mut W) -> io::Result<bool> {
    let mut head = [0u32; 13];
    let whole = test_io::read_numbers(from, &mut head)?;
    if whole {
        let mut lists = [0u8; 24];
        test_io::read_bytes(from, &mut lists)?;
        let mut a = [0i64; 256];
        let n = test_io::length_at(&head, 6, 256);
        lend_first(from, to, &head, &lists, &mut a[..n])?;
    }
    Ok(whole)
}

fn main(rt: HostRuntime) -> io::Result<()> {
    let mut from = rt.stdin();
    let mut to = rt.stdout();
    for _ in 0..u32::MAX {
        if !next(&mut from, &mut to)? {
            break;
        }
    }
    Ok(())
}
