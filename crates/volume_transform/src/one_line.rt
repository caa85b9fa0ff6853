// One line of a synthesis in a call of its own, which is lent the volume as it then is: only the numbers of that line
// are looked at, and where one of them is no residue nothing changes.
//
// A call leaves the scratch's first 11,520 numbers zero, so it may as well be the buffer of the fold. The tables are
// taken as they are, by a branch on the prime before all else: a choice between two arrays would take longer than a
// short line.
ghost use Rattle.std.specs.Prelude.{◌≡◌, ◌*◌, ◌≤◌, length};
ghost use Rattle.lengths.specs.Lengths.{scratch_length};
ghost use Rattle.volume_transform.specs.Lines.{Placed, Spaced, Beside, TablesFor, OwnTurn, line_turned};
ghost use Rattle.volume_transform.specs.Lines.{gathered_turn, row_turn};

use crate::plan::Line;
use crate::{lines, rows};

// The line is transformed if its numbers are residues, which is the answer.
pub fn turn_alone(line: Line, volume: &mut [u32], scratch: &mut [u32]) -> bool
    requires { Placed (length volume.old) line
        × (line.direction ≡ 0)
        × (scratch_length ≤ length scratch.old) }
    ensures { OwnTurn (line_turned line) line result
        volume.old volume.new scratch.old scratch.new }
{
    if line.m == 1 {
        alone_by::<1>(line, volume, scratch)
    } else {
        alone_by::<2>(line, volume, scratch)
    }
}

// With the tables of prime number M. A plain line needs no half tangents, and is lent zeros for them.
fn alone_by<const M: u32>(line: Line, volume: &mut [u32], scratch: &mut [u32]) -> bool
    requires { Placed (length volume.old) line × (line.m ≡ M) × (line.direction ≡ 0)
        × (scratch_length ≤ length scratch.old) }
    ensures { OwnTurn (line_turned line) line result
        volume.old volume.new scratch.old scratch.new }
{
    let powers = roots::powers::table(M);
    let re = powers.re;
    let im = powers.im;
    if line.kind == 0 {
        let none = [0u32; 1440];
        alone(M, line, &re, &im, &none, volume, scratch)
    } else {
        let tan = roots::half_tangents::half_tangents(M);
        alone(M, line, &re, &im, &tan, volume, scratch)
    }
}

// A local array is zeroed first, so it is to be no longer than the line needs: lines of up to 120 and up to 480 points have
// shorter ones.
fn alone<'a>(
    m: u32,
    line: Line,
    re: &'a [u32; 2880],
    im: &'a [u32; 2880],
    tan: &'a [u32; 1440],
    volume: &mut [u32],
    scratch: &mut [u32],
) -> bool
    requires placed { Placed (length volume.old) line
        × TablesFor line re.now im.now tan.now
        × (m ≡ line.m) }
    requires scratch_length_in_bounds { scratch_length ≤ length scratch.old }
    ensures { OwnTurn (line_turned line) line result
        volume.old volume.new scratch.old scratch.new }
{
    if line.half <= 60 {
        alone_in::<240>(m, line, re, im, tan, volume, scratch)
    } else if line.half <= 240 {
        alone_in::<960>(m, line, re, im, tan, volume, scratch)
    } else {
        alone_in::<5760>(m, line, re, im, tan, volume, scratch)
    }
}

// The line by its kind, with local arrays of N numbers: a Hermitian one is a row.
fn alone_in<'a, const N: usize>(
    m: u32,
    line: Line,
    re: &'a [u32; 2880],
    im: &'a [u32; 2880],
    tan: &'a [u32; 1440],
    volume: &mut [u32],
    scratch: &mut [u32],
) -> bool
    requires placed { Placed (length volume.old) line
        × TablesFor line re.now im.now tan.now
        × (m ≡ line.m) }
    requires scratch_length_in_bounds { (scratch_length ≤ length scratch.old)
        × (4 * line.half ≤ N) × (N ≤ 5760) }
    ensures { OwnTurn (line_turned line) line result
        volume.old volume.new scratch.old scratch.new }
{
    let mut work = [0u32; N];
    if line.kind == 1 {
        row_alone(m, line, re, im, tan, volume, scratch, &mut work)
    } else {
        let mut packed = [0u32; N];
        gathered_alone(
            m,
            line,
            re,
            im,
            tan,
            volume,
            scratch,
            &mut packed,
            &mut work,
        )
    }
}

// A row is a part of the volume.
fn row_alone<'a>(
    m: u32,
    line: Line,
    re: &'a [u32; 2880],
    im: &'a [u32; 2880],
    tan: &'a [u32; 1440],
    volume: &mut [u32],
    scratch: &mut [u32],
    work: &mut [u32],
) -> bool
    requires beside { Beside (length volume.old) line
        × TablesFor line re.now im.now tan.now
        × (m ≡ line.m) }
    requires scratch_length_in_bounds { (scratch_length ≤ length scratch.old) × (4 * line.half ≤ length work.old) }
    ensures { OwnTurn (row_turn line) line result
        volume.old volume.new scratch.old scratch.new }
{
    let start = 2 * line.start;
    let end = start + 2 * line.count;
    if !slices::buffers::all_below(&volume[start..end], numbers::modulus(m)) {
        return false;
    }
    rows::turn_row(
        m,
        line,
        re,
        im,
        tan,
        &mut volume[start..end],
        &mut scratch[..5760],
        work,
    );
    slices::buffers::clear(scratch, 11520);
    true
}

// The pairs of any other line stand apart: they are gathered, and tested as they then are.
fn gathered_alone<'a>(
    m: u32,
    line: Line,
    re: &'a [u32; 2880],
    im: &'a [u32; 2880],
    tan: &'a [u32; 1440],
    volume: &mut [u32],
    scratch: &mut [u32],
    packed: &mut [u32],
    work: &mut [u32],
) -> bool
    requires spaced { Spaced (length volume.old) line
        × TablesFor line re.now im.now tan.now
        × (m ≡ line.m) }
    requires scratch_length_in_bounds { (scratch_length ≤ length scratch.old)
        × (2 * line.count ≤ length packed.old) × (4 * line.half ≤ length work.old) }
    ensures { OwnTurn (gathered_turn line) line result
        volume.old volume.new scratch.old scratch.new }
{
    slices::gathering::gather(volume, line.start, line.stride, packed, line.count);
    let size = 2 * line.count;
    if !slices::buffers::all_below(&packed[..size], numbers::modulus(m)) {
        return false;
    }
    lines::turn_stored(
        m,
        line,
        re,
        im,
        tan,
        &mut packed[..size],
        &mut scratch[..5760],
        work,
    );
    slices::gathering::scatter(packed, line.start, line.stride, volume, line.count);
    slices::buffers::clear(scratch, 11520);
    true
}
