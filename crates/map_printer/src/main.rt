// The map printer: reads a factor file from standard input and prints its map, or why the file is refused.
//
// One byte more than the longest file is read, so that a longer one is seen. The text of every file fits into the output: `AlwaysFits` of
// crate printing. So the printer's refusal, for an output that is too short, never comes.
#![tactic(auto)]

ghost use Rattle.std.specs.Prelude.{◌≡◌, ◌<◌, ◌≤◌, length, take, IfOk, OnOk};
ghost use Rattle.std.specs.Io.KnownBytes.{Appends, Consumes, IsAtEnd};

use printing::printer;
use std::io;
use std::io::{Read, Write};

// Reads until the buffer is full or the input ends; how many bytes it read.
fn read_full<R: Read>(from: &mut R, v: &mut [u8]) -> io::Result<usize>
    ensures len { length v.new ≡ length v.old }
    ensures most { IfOk result (λ n. n ≤ length v.new) }
    ensures bytes { IfOk result (λ n. Consumes (R.remaining from.old) (R.remaining from.new) (take n v.new)) }
    ensures end { IfOk result (λ n. n < length v.new → IsAtEnd (R.remaining from.new)) }
{
    // A `while`: the reader says how far each turn goes.
    let mut done: usize = 0;
    while done < v.len() {
        let n = from.read(&mut v[done..])?;
        if n == 0 {
            return Ok(done);
        }
        done += n;
    }
    Ok(done)
}

fn print<W: Write>(to: &mut W, text: &[u8], count: usize) -> io::Result<()>
    ensures { count ≤ length text.now
        → OnOk result (Appends (W.contents to.old) (W.contents to.new) (take count text.now)) }
{
    if count <= text.len() {
        to.write_all(&text[..count])?;
    }
    Ok(())
}

fn main(rt: HostRuntime) -> io::Result<()> {
    let mut file = [0u8; 8193];
    let mut text = [0u8; 65536];
    let mut from = rt.stdin();
    let mut to = rt.stdout();
    let count = read_full(&mut from, &mut file)?;
    let answer = printer::print_file(&file[..count], &mut text);
    match answer {
        Ok(n) => print(&mut to, &text, n),
        Err(_) => Ok(()),
    }
}
