// One line along l or h: its pairs stand apart in the volume, so it is gathered into the scratch, transformed there by the
// line's own kind, and scattered back.
ghost use Rattle.std.specs.Prelude.{◌≡◌, ◌*◌, length};
ghost use Rattle.algebra.specs.lines.Kinds.{slots};
ghost use Rattle.numbers.specs.Value.{prime};
ghost use Rattle.slices.specs.Pairs.{Below};
ghost use Rattle.lengths.specs.Lengths.{kind_of};
ghost use Rattle.volume_transform.specs.Lines.{Lent, Kept, TablesFor, Room, SoundLine, Spaced, LineBelow};
ghost use Rattle.volume_transform.specs.Lines.{turned_packed, stored_turn, gathered_turn};

use crate::plan::Line;

// A line whose pairs stand apart.
pub fn turn_gathered<'a>(
    m: u32,
    line: Line,
    re: &'a [u32; 2880],
    im: &'a [u32; 2880],
    tan: &'a [u32; 1440],
    volume: &mut [u32],
    scratch: &mut [u32],
    fold: &mut [u32],
    work: &mut [u32],
)
    requires spaced { Spaced (length volume.old) line
        × TablesFor line re.now im.now tan.now
        × (m ≡ line.m) }
    requires line_below { LineBelow line volume.old }
    requires lent { Lent scratch.old fold.old work.old }
    ensures { (volume.new ≡ gathered_turn line volume.old)
        × Kept scratch.old scratch.new }
{
    slices::gathering::gather(volume, line.start, line.stride, scratch, line.count);
    let size = 2 * line.count;
    turn_stored(m, line, re, im, tan, &mut scratch[..size], fold, work);
    slices::gathering::scatter(scratch, line.start, line.stride, volume, line.count);
}

// The numbers of a packed line as it is stored: one that is stored times i loses it after synthesis, and gets it before analysis.
pub fn turn_stored<'a>(
    m: u32,
    line: Line,
    re: &'a [u32; 2880],
    im: &'a [u32; 2880],
    tan: &'a [u32; 1440],
    packed: &mut [u32],
    fold: &mut [u32],
    work: &mut [u32],
)
    requires sound_line { SoundLine line
        × TablesFor line re.now im.now tan.now
        × (m ≡ line.m)
        × (line.count ≡ slots (kind_of line.kind) line.half) }
    requires packed_len { (length packed.old ≡ 2 * slots (kind_of line.kind) line.half)
        × Below (prime line.m) packed.old }
    requires room { Room line fold.old work.old }
    ensures { packed.new ≡ stored_turn line packed.old }
{
    if line.rotated {
        if line.direction == 0 {
            turn_packed(m, line, re, im, tan, packed, fold, work);
            plain::scale::rotate(m, true, line.count, packed);
        } else {
            plain::scale::rotate(m, false, line.count, packed);
            turn_packed(m, line, re, im, tan, packed, fold, work);
        }
    } else {
        turn_packed(m, line, re, im, tan, packed, fold, work);
    }
}

// The numbers of a packed line.
pub fn turn_packed<'a>(
    m: u32,
    line: Line,
    re: &'a [u32; 2880],
    im: &'a [u32; 2880],
    tan: &'a [u32; 1440],
    packed: &mut [u32],
    fold: &mut [u32],
    work: &mut [u32],
)
    requires sound_line { SoundLine line × TablesFor line re.now im.now tan.now × (m ≡ line.m) }
    requires packed_len { (length packed.old ≡ 2 * slots (kind_of line.kind) line.half)
        × Below (prime line.m) packed.old }
    requires room { Room line fold.old work.old }
    ensures { packed.new ≡ turned_packed line packed.old }
{
    line::transform::transform(
        m,
        line.kind,
        line.direction,
        re,
        im,
        tan,
        line.factors,
        line.half,
        packed,
        fold,
        work,
    );
}
