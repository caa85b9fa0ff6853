// The bytes of a factor file, written into a lent output: the header and the counts, and the records of the volume.
//
// The records are counted by a pass of their own, so that a caller knows how long the file is before anything is written.
pub mod head; // head.rt: version, group, lengths and factor lists
pub mod records; // records.rt: the records of a volume, counted and written

ghost use Rattle.std.specs.Prelude.{◌≡◌, ◌≤◌, length};
ghost use Rattle.output.specs.Written.{Wrote};
ghost use Rattle.factor_file.specs.Steps.{IsFactors, records_with, file_with};

use cell::operations::UnitCell;
use output::big_endian;

// The file, of count records.
pub fn put_file(
    modulus: u32,
    cell: UnitCell,
    f1: u32,
    f2: u32,
    f3: u32,
    count: usize,
    volume: &[u32],
    out: &mut [u8],
) -> usize
    requires factors { IsFactors modulus cell volume.now × (length volume.now ≤ 16777216) }
    requires count_value { count ≡ length (records_with cell modulus volume.now) }
    ensures { Wrote 0 (file_with modulus cell f1 f2 f3 volume.now) out.old result
        out.new }
{
    let follow = file_format::layout::file_length(modulus, f1, f2, f3, count) - 4;
    let first = big_endian::put_four(out, 0, follow as u32);
    let second = head::put_header(modulus, cell, f1, f2, f3, out, first);
    let third = big_endian::put_four(out, second, count as u32);
    records::put_records(modulus, cell, volume, out, third)
}
