// One row along k: neighbouring pairs, lent as a part of the volume and transformed as a Hermitian line in their place.
ghost use Rattle.std.specs.Prelude.{◌≡◌, ◌+◌, ◌*◌, length};
ghost use Rattle.numbers.specs.Value.{prime};
ghost use Rattle.slices.specs.Pairs.{Below};
ghost use Rattle.volume_transform.specs.Axes.{turned_row};
ghost use Rattle.volume_transform.specs.Lines.{SoundLine, TablesFor, Room};

use crate::lines;
use crate::plan::Line;

// A row of B + 1 pairs, of which the first and the last are real, becomes N2 = 2 B real values and two zeros, or back.
pub fn turn_row<'a>(
    m: u32,
    line: Line,
    re: &'a [u32; 2880],
    im: &'a [u32; 2880],
    tan: &'a [u32; 1440],
    row: &mut [u32],
    fold: &mut [u32],
    work: &mut [u32],
)
    requires sound_line { SoundLine line
        × (line.kind ≡ 1)
        × TablesFor line re.now im.now tan.now
        × (m ≡ line.m) }
    requires row_len { (length row.old ≡ 2 * (line.half + 1)) × Below (prime line.m) row.old }
    requires room { Room line fold.old work.old }
    ensures { row.new ≡ turned_row line.m line.half line.direction row.old }
{
    let size = 2 * line.half;
    crate::row::open_row(line.direction, size, row);
    lines::turn_packed(m, line, re, im, tan, &mut row[..size], fold, work);
    crate::row::close_row(line.direction, size, row);
}
