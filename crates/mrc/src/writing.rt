// The header's words and the densities on an output.
ghost use Rattle.std.specs.Prelude.{◌<◌, ◌≤◌, nat_abs};
ghost use Rattle.output.specs.Written.{Wrote, Ends};
ghost use Rattle.mrc.specs.Floats.{exact_limit};
ghost use Rattle.mrc.specs.Header.{NoNan};
ghost use Rattle.mrc.specs.Mrc.{header_bytes, density_bytes, row_bytes, plane_bytes, cell_bytes, Writable};

use crate::file_header::MrcHeader;
use crate::{file_header, floats};
use cell::operations::{Point, UnitCell};
use output::little_endian;

// The 256 words of the header.
pub fn put_header(out: &mut [u8], at: usize, header: MrcHeader) -> usize
    requires { NoNan header × Ends at (header_bytes header) }
    ensures { Wrote at (header_bytes header) out.old result out.new }
{
    let words = file_header::header_words(header);
    let mut place = at;
    for k in 0..256 {
        place = little_endian::put_four(out, place, file_header::word_at(&words, k));
    }
    place
}

// The float of a density.
fn put_density(out: &mut [u8], at: usize, n: i64) -> usize
    requires { (nat_abs n ≤ exact_limit) × Ends at (density_bytes n) }
    ensures { Wrote at (density_bytes n) out.old result out.new }
{
    little_endian::put_four(out, at, floats::float_bits(n))
}

// The densities at z, y, by rising x.
fn put_row(out: &mut [u8], at: usize, cell: UnitCell, map: &[i64], z: u32, y: u32) -> usize
    requires { Writable cell map.now
        × (z < cell.n3)
        × (y < cell.n2)
        × Ends at (row_bytes cell map.now z y) }
    ensures { Wrote at (row_bytes cell map.now z y) out.old result out.new }
{
    let mut place = at;
    for x in 0..cell.n1 {
        let n = combined::count_at(cell, Point { x, y, z }, map);
        place = put_density(out, place, n);
    }
    place
}

// The plane z, by rising y.
fn put_plane(out: &mut [u8], at: usize, cell: UnitCell, map: &[i64], z: u32) -> usize
    requires { Writable cell map.now × (z < cell.n3) × Ends at (plane_bytes cell map.now z) }
    ensures { Wrote at (plane_bytes cell map.now z) out.old result out.new }
{
    let mut place = at;
    for y in 0..cell.n2 {
        place = put_row(out, place, cell, map, z, y);
    }
    place
}

// The whole cell, by rising z.
pub fn put_cell(out: &mut [u8], at: usize, cell: UnitCell, map: &[i64]) -> usize
    requires { Writable cell map.now × Ends at (cell_bytes cell map.now) }
    ensures { Wrote at (cell_bytes cell map.now) out.old result out.new }
{
    let mut place = at;
    for z in 0..cell.n3 {
        place = put_plane(out, place, cell, map, z);
    }
    place
}
