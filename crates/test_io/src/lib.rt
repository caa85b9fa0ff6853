// What the test programs share: numbers of the input, buffers filled, checksums, lines of numbers printed.
//
// What reads takes a reader and what prints a writer, and each answers the first error that it meets. No reader is read beyond what is asked.
#![tactic(auto)]

ghost use Rattle.std.specs.Prelude.{◌≡◌, ℕ, ◌+◌, ◌*◌, ◌%◌, ◌<◌, ◌≤◌, min, length, get_or, set, replicate, take, drop, [], ◌∷◌, ◌^◌, IfOk, IfSome, OnOk, slice_index_or, pos, Bool};
ghost use Rattle.std.specs.Fmt.{decimal, signed_decimal};
ghost use Rattle.std.specs.Io.KnownBytes.{Appends};
ghost use Rattle.test_io.specs.Checksum.{checksum_of};
ghost use Rattle.test_io.specs.Taken.{TakesBytes, TakesNumbers, TakesNamed};
ghost use Rattle.output.specs.Output.{big_endian};
ghost use Rattle.test_io.specs.Printed.{field_of, line_of, signed_line_of, longer_line_of, answer_line_of, replay_lines_of};

use refusals::Refusal;
use std::fmt::Display;
use std::io;
use std::io::{Read, Write};

pub fn wide(b: u8) -> u32
    ensures { result < 256 }
{
    u32::from(b)
}

// A big-endian number.
fn number(c: &[u8; 4]) -> u32
    ensures { big_endian 4 result ≡ c.now }
{
    u32::from_be_bytes(*c)
}

// The next bytes of the input; whether it has as many.
pub fn read_bytes<R: Read>(from: &mut R, v: &mut [u8]) -> io::Result<bool>
    ensures len { length v.new ≡ length v.old }
    ensures bytes { IfOk result (λ whole. TakesBytes (R.remaining from.old) (R.remaining from.new) whole v.new) }
{
    // A `while`: the reader says how far each turn goes.
    let mut done: usize = 0;
    while done < v.len() {
        let n = from.read(&mut v[done..])?;
        if n == 0 {
            return Ok(false);
        }
        done += n;
    }
    Ok(true)
}

// What the next bytes of the input are.
pub fn bytes_read<'a, R: Read>(from: &mut R, v: &'a mut [u8]) -> io::Result<&'a [u8]>
    ensures len { IfOk result (λ s. length s.now ≡ length v.old) }
    ensures bytes { IfOk result (λ s. (whole : Bool)
        × TakesBytes (R.remaining from.old) (R.remaining from.new) whole s.now) }
{
    read_bytes(from, v)?;
    Ok(v)
}

// The next big-endian numbers of the input; whether it has as many.
pub fn read_numbers<R: Read>(from: &mut R, v: &mut [u32]) -> io::Result<bool>
    ensures len { length v.new ≡ length v.old }
    ensures numbers { IfOk result (λ whole. TakesNumbers (R.remaining from.old) (R.remaining from.new) whole v.new) }
{
    for x in v.iter_mut() {
        let mut c = [0u8; 4];
        let whole = read_bytes(from, &mut c)?;
        if !whole {
            return Ok(false);
        }
        *x = number(&c);
    }
    Ok(true)
}

// What the next numbers of the input are.
pub fn numbers_read<'a, R: Read>(from: &mut R, v: &'a mut [u32]) -> io::Result<&'a [u32]>
    ensures len { IfOk result (λ s. length s.now ≡ length v.old) }
    ensures numbers { IfOk result (λ s. (whole : Bool)
        × TakesNumbers (R.remaining from.old) (R.remaining from.new) whole s.now) }
{
    read_numbers(from, v)?;
    Ok(v)
}

// The number that a byte names: its place in a table. 0 beyond it.
fn named(table: &[i64], code: u8) -> i64
    ensures { result ≡ slice_index_or table.now code (pos 0) }
{
    table.get(usize::from(code)).copied().unwrap_or(0)
}

// The next numbers of the input, a byte each, which names a number of a table.
pub fn read_named<R: Read>(from: &mut R, table: &[i64], v: &mut [i64]) -> io::Result<()>
    ensures len { length v.new ≡ length v.old }
    ensures named { OnOk result (TakesNamed (R.remaining from.old) (R.remaining from.new) table.now v.new) }
{
    // By places, and not `iter_mut`: the edit named_at_the_first_place plants a wrong place, which must be refused.
    for j in 0..v.len() {
        let mut c = [0u8; 1];
        read_bytes(from, &mut c)?;
        v[j] = named(table, c[0]);
    }
    Ok(())
}

// The number at a place of a record, 0 beyond it.
pub fn at(r: &[u32], i: usize) -> u32
    ensures { result ≡ get_or r.now i 0 }
{
    r.get(i).copied().unwrap_or(0)
}

// The length that a record names at a place, as much of it as a buffer has.
pub fn length_at(r: &[u32], i: usize, most: usize) -> usize
    ensures { result ≤ most }
{
    at_most(at(r, i), most)
}

fn at_most(x: u32, most: usize) -> usize
    ensures { (result ≡ min x most) × (result ≤ most) }
{
    most.min(x as usize)
}

// The bytes from a place of a record on, as many as it says, and no more than it has for them.
pub fn part(c: &[u8], start: usize, count: u32, most: usize) -> &[u8]
    requires { (start + most ≤ length c.now) × (start + most < 256) }
    ensures { result.now ≡ take (min count most) (drop start c.now) }
{
    let end = start + at_most(count, most);
    &c[start..end]
}

// A count that is printed: what a test writes has fewer than 2^32 of anything.
fn count(n: usize) -> u32
    ensures { result ≡ n % 2 ^ 32 }
{
    (n % 4294967296) as u32
}

// Residues of the first prime by a linear congruential generator.
pub fn fill(v: &mut [u32], seed: u32)
    ensures { (k : ℕ) → k < length v.new → get_or v.new k 0 < 86399 }
{
    fill_below(v, seed, 86399)
}

// Its numbers below p.
pub fn fill_below(v: &mut [u32], seed: u32, p: u32)
    requires { 0 < p }
    ensures { (k : ℕ) → k < length v.new → get_or v.new k 0 < p }
{
    let mut state = u64::from(seed);
    for x in v.iter_mut() {
        state = (state * 1103515245 + 12345) % 2147483648;
        *x = (state / 8 % u64::from(p)) as u32;
    }
}

pub fn fill_with(v: &mut [u32], x: u32)
    ensures { v.new ≡ replicate (length v.old) x }
{
    v.fill(x);
}

// Another number at one place, where the buffer has it.
pub fn put_at(v: &mut [u32], place: u32, x: u32)
    ensures { v.new ≡ set v.old place x }
{
    let i = place as usize;
    if i < v.len() {
        v[i] = x;
    }
}

fn more(h: u64, x: u32) -> u64
    requires { h < 2147483647 }
    ensures { (result ≡ (h * 31 + x + 1) % 2147483647) × (result < 2147483647) }
{
    (h * 31 + u64::from(x) + 1) % 2147483647
}

// Of every number and its place.
pub fn checksum(v: &[u32]) -> u32
    ensures { result ≡ checksum_of v.now }
{
    let mut h: u64 = 7;
    for x in v {
        h = more(h, *x);
    }
    h as u32
}

// The same of bytes. A generic one would need a list of what T's numbers are in its contract, and both of these contracts beside it.
fn byte_checksum(v: &[u8]) -> u32
    ensures { result ≡ checksum_of v.now }
{
    let mut h: u64 = 7;
    for x in v {
        h = more(h, u32::from(*x));
    }
    h as u32
}

// The number j of a line: a blank stands before all but the first.
fn print_next<W: Write, T: Display>(to: &mut W, j: usize, x: &T) -> io::Result<()>
    ensures { OnOk result (IfSome (T.output x.now) (λ text. Appends (W.contents to.old) (W.contents to.new) (field_of j text))) }
{
    if 0 < j {
        write!(to, " {x}")
    } else {
        write!(to, "{x}")
    }
}

// A line of numbers; how many were printed.
pub fn print_line<W: Write>(to: &mut W, v: &[u32]) -> io::Result<usize>
    ensures count { IfOk result (λ n. n ≡ length v.now) }
    ensures text { OnOk result (Appends (W.contents to.old) (W.contents to.new) (line_of v.now)) }
{
    for (j, x) in v.iter().enumerate() {
        print_next(to, j, x)?;
    }
    to.write_all(b"\n")?;
    Ok(v.len())
}

// A line of numbers with their signs; how many were printed.
// specs/Printed tells the two lines apart: one function for both would have a contract of its own beside theirs.
pub fn print_signed_line<W: Write>(to: &mut W, v: &[i64]) -> io::Result<usize>
    ensures count { IfOk result (λ n. n ≡ length v.now) }
    ensures text { OnOk result (Appends (W.contents to.old) (W.contents to.new)
        (signed_line_of v.now)) }
{
    for (j, x) in v.iter().enumerate() {
        print_next(to, j, x)?;
    }
    to.write_all(b"\n")?;
    Ok(v.len())
}

// What a script of calls answered and left: how many numbers it wrote, the job's checksum and those of two buffers, then every answer;
// how many answers were printed.
pub fn print_replay<W: Write>(
    to: &mut W,
    written: usize,
    job: u32,
    volume: &[u32],
    scratch: &[u32],
    answers: &[i64],
) -> io::Result<usize>
    ensures count { IfOk result (λ n. n ≡ length answers.now) }
    ensures text { OnOk result (Appends (W.contents to.old) (W.contents to.new)
        (replay_lines_of written job volume.now scratch.now answers.now)) }
{
    let said = [count(written), job, checksum(volume), checksum(scratch)];
    print_line(to, &said)?;
    print_signed_line(to, answers)
}

// What a call that fills an output answered, the refusal's number or 0 and how many places it wrote; then numbers that tell what it left.
// How many were printed.
pub fn print_answer<W: Write>(
    to: &mut W,
    answer: Result<usize, Refusal>,
    left: &[u32],
) -> io::Result<usize>
    ensures count { IfOk result (λ n. n ≡ 2 + length left.now) }
    ensures text { OnOk result (Appends (W.contents to.old) (W.contents to.new)
        (answer_line_of answer left.now)) }
{
    match answer {
        Ok(n) => print_before(to, 0, count(n), left),
        Err(refusal) => print_before(to, refusals::number_of(refusal), 0, left),
    }
}

fn print_before<W: Write>(to: &mut W, number: u32, written: u32, left: &[u32]) -> io::Result<usize>
    ensures count { IfOk result (λ n. n ≡ 2 + length left.now) }
    ensures text { OnOk result (Appends (W.contents to.old) (W.contents to.new)
        (longer_line_of number written left.now)) }
{
    write!(to, "{number} {written} ")?;
    let printed = print_line(to, left)?;
    Ok(2 + printed)
}

// The same of a writing, which leaves bytes.
pub fn print_writing<W: Write>(
    to: &mut W,
    answer: Result<usize, Refusal>,
    out: &[u8],
) -> io::Result<usize>
    ensures count { IfOk result (λ n. n ≡ 3) }
    ensures text { OnOk result (Appends (W.contents to.old) (W.contents to.new)
        (answer_line_of answer (checksum_of out.now ∷ []))) }
{
    let left = [byte_checksum(out)];
    print_answer(to, answer, &left)
}
