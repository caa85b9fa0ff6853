// Up to sixteen neighbouring lines at a time: gathered into a batch, transformed side by side (crates `batches` and `folded_batches`), and
// scattered back. The volume is then what the lines leave one after the other.
//
// The batch is in the scratch, which has room for sixteen lines of 360 places; the work slice is as long.
ghost use Rattle.std.specs.Prelude.{◌≡◌, ◌+◌, ◌*◌, ◌<◌, ◌≤◌, length};
ghost use Rattle.numbers.specs.Value.{prime, IsModulus};
ghost use Rattle.batches.specs.Reduction.{ShiftedTable, Holds};
ghost use Rattle.volume_transform.specs.Lines.{TablesFor, Kept};
ghost use Rattle.volume_transform.specs.Groups.{PlacedGroup, SpacedLines, RowLines, lines_turn, rows_turn};
ghost use Rattle.volume_transform.specs.Groups.{group_turned, PlainLines, group_turn, scale_for};

use crate::plan::Line;
use folded_batches::{alternating, hermitian, mirror};

// The lines by their kind.
pub fn turn_placed_group<'a>(
    m: u32,
    line: Line,
    lanes: usize,
    re: &'a [u32; 2880],
    im: &'a [u32; 2880],
    tan: &'a [u32; 1440],
    sre: &'a [u32; 2880],
    sim: &'a [u32; 2880],
    volume: &mut [u32],
    scratch: &mut [u32],
    work: &mut [u32],
)
    requires placed_group { PlacedGroup line lanes volume.old
        × TablesFor line re.now im.now tan.now
        × (m ≡ line.m) }
    requires shifted_table { ShiftedTable m re.now im.now sre.now sim.now }
    requires in_bounds { (11520 ≤ length scratch.old) × (11520 ≤ length work.old) }
    ensures { (volume.new ≡ group_turned line lanes volume.old)
        × Kept scratch.old scratch.new }
{
    if line.kind == 1 {
        turn_rows(m, line, lanes, re, im, tan, sre, sim, volume, scratch, work);
    } else if line.kind == 0 {
        turn_group(m, line, lanes, re, im, tan, sre, sim, volume, scratch, work);
    } else {
        turn_folded(m, line, lanes, re, im, tan, sre, sim, volume, scratch, work);
    }
}

// Rows, which are lent as a part of the volume from the offset of the first on.
fn turn_rows<'a>(
    m: u32,
    line: Line,
    lanes: usize,
    re: &'a [u32; 2880],
    im: &'a [u32; 2880],
    tan: &'a [u32; 1440],
    sre: &'a [u32; 2880],
    sim: &'a [u32; 2880],
    volume: &mut [u32],
    scratch: &mut [u32],
    work: &mut [u32],
)
    requires row_lines { RowLines line lanes volume.old
        × TablesFor line re.now im.now tan.now
        × (m ≡ line.m) }
    requires shifted_table { ShiftedTable m re.now im.now sre.now sim.now }
    requires in_bounds { (11520 ≤ length scratch.old) × (11520 ≤ length work.old) }
    ensures { (volume.new ≡ rows_turn line lanes volume.old)
        × Kept scratch.old scratch.new }
{
    let start = 2 * line.start;
    let end = start + 2 * (lanes * line.count);
    let size = 32 * line.half;
    hermitian::turn_rows(
        m,
        line.direction,
        re,
        im,
        sre,
        sim,
        line.factors,
        line.half,
        lanes,
        &mut volume[start..end],
        &mut scratch[..size],
        &mut work[..size],
    );
}

// As turn_placed_group, of plain lines alone, at line.start, line.start + 1, ..: of the volume's numbers it asks only that those of the
// lines be residues.
pub fn turn_group<'a>(
    m: u32,
    line: Line,
    lanes: usize,
    re: &'a [u32; 2880],
    im: &'a [u32; 2880],
    tan: &'a [u32; 1440],
    sre: &'a [u32; 2880],
    sim: &'a [u32; 2880],
    volume: &mut [u32],
    scratch: &mut [u32],
    work: &mut [u32],
)
    requires plain_lines { PlainLines line lanes volume.old
        × TablesFor line re.now im.now tan.now
        × (m ≡ line.m) }
    requires shifted_table { ShiftedTable m re.now im.now sre.now sim.now }
    requires in_bounds { (11520 ≤ length scratch.old) × (11520 ≤ length work.old) }
    ensures { (volume.new ≡ group_turn line lanes volume.old)
        × Kept scratch.old scratch.new }
{
    let n = line.count;
    let size = 32 * n;
    let list = lengths::stage::doubled(line.factors);
    let c = last_factor(m, line.direction, n);
    batches::group::turn_lines(
        m,
        c,
        re,
        im,
        sre,
        sim,
        list,
        n,
        line.start,
        line.stride,
        lanes,
        volume,
        &mut scratch[..size],
        &mut work[..size],
    );
}

// Alternating, symmetric and antisymmetric lines. The batch has a place more than their short lines.
fn turn_folded<'a>(
    m: u32,
    line: Line,
    lanes: usize,
    re: &'a [u32; 2880],
    im: &'a [u32; 2880],
    tan: &'a [u32; 1440],
    sre: &'a [u32; 2880],
    sim: &'a [u32; 2880],
    volume: &mut [u32],
    scratch: &mut [u32],
    work: &mut [u32],
)
    requires spaced_lines { SpacedLines line lanes volume.old
        × (2 < line.kind)
        × TablesFor line re.now im.now tan.now
        × (m ≡ line.m) }
    requires shifted_table { ShiftedTable m re.now im.now sre.now sim.now }
    requires in_bounds { (11520 ≤ length scratch.old) × (11520 ≤ length work.old) }
    ensures { (volume.new ≡ lines_turn line lanes volume.old)
        × Kept scratch.old scratch.new }
{
    let size = 32 * line.half;
    let long = size + 32;
    turn_short(
        m,
        line,
        lanes,
        re,
        im,
        tan,
        sre,
        sim,
        volume,
        &mut scratch[..long],
        &mut work[..size],
    );
}

// The same by their kind, in slices as long as the batch and as its short lines.
fn turn_short<'a>(
    m: u32,
    line: Line,
    lanes: usize,
    re: &'a [u32; 2880],
    im: &'a [u32; 2880],
    tan: &'a [u32; 1440],
    sre: &'a [u32; 2880],
    sim: &'a [u32; 2880],
    volume: &mut [u32],
    batch: &mut [u32],
    short: &mut [u32],
)
    requires spaced_lines { SpacedLines line lanes volume.old
        × (2 < line.kind)
        × TablesFor line re.now im.now tan.now
        × (m ≡ line.m) }
    requires shifted_table { ShiftedTable m re.now im.now sre.now sim.now }
    requires batch_len { (length batch.old ≡ 32 * (line.half + 1)) × (length short.old ≡ 32 * line.half) }
    ensures { volume.new ≡ lines_turn line lanes volume.old }
{
    if line.kind == 3 {
        alternating::turn_lines(
            m,
            line.direction,
            line.rotated,
            re,
            im,
            tan,
            sre,
            sim,
            line.factors,
            line.half,
            line.start,
            line.stride,
            lanes,
            volume,
            batch,
            short,
        );
    } else {
        let first = (line.kind - 4) as usize;
        mirror::turn_lines(
            m,
            line.direction,
            first,
            re,
            im,
            tan,
            sre,
            sim,
            line.factors,
            line.half,
            line.start,
            line.stride,
            lanes,
            volume,
            batch,
            short,
        );
    }
}

// What the numbers of a lane are multiplied by as they are reduced: 2^32, and in analysis over n as well.
fn last_factor(m: u32, direction: u32, n: usize) -> u32
    requires { IsModulus m × (direction < 2) × (2 ≤ n) × (n ≤ 2880) }
    ensures { (result < prime m) × Holds m result (scale_for m direction n) }
{
    let shift = batches::residues::shift(m);
    if direction == 0 {
        shift
    } else {
        numbers::mul(m, shift, numbers::reciprocals::reciprocal(m, n as u32))
    }
}
