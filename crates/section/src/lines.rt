// The rows of a page: each takes as many lines of five values as it needs.
ghost use Rattle.std.specs.Prelude.{◌≡◌, ◌+◌, ◌*◌, ◌<◌};
ghost use Rattle.cell.specs.Operations.{cell_lengths};
ghost use Rattle.output.specs.Output.{each};
ghost use Rattle.output.specs.Written.{Wrote, Ends};
ghost use Rattle.section.specs.Section.{value_field, section_line, row_lines, row_text, rows_text};
ghost use Rattle.section.specs.Sound.{Plane};

use cell::operations::{Point, UnitCell};

// All rows, by rising x.
pub fn put_rows(out: &mut [u8], at: usize, cell: UnitCell, map: &[i64], z: u32) -> usize
    requires plane { Plane cell map.now z }
    requires ends { Ends at (rows_text cell.group (cell_lengths cell) map.now z) }
    ensures { Wrote at (rows_text cell.group (cell_lengths cell) map.now z)
        out.old result out.new }
{
    let mut place = at;
    for x in 0..cell.n1 {
        place = put_row(out, place, cell, map, z, x);
    }
    place
}

// The lines of row x.
fn put_row(out: &mut [u8], at: usize, cell: UnitCell, map: &[i64], z: u32, x: u32) -> usize
    requires plane { Plane cell map.now z × (x < cell.n1) }
    requires ends { Ends at (row_text cell.group (cell_lengths cell) map.now z x) }
    ensures { Wrote at (row_text cell.group (cell_lengths cell) map.now z x)
        out.old result out.new }
{
    let lines = (cell.n2 + 4) / 5;
    let mut place = at;
    for i in 0..lines {
        place = put_line(out, place, cell, map, z, x, i);
    }
    place
}

// Line i of row x: x, and five values.
fn put_line(out: &mut [u8], at: usize, cell: UnitCell, map: &[i64], z: u32, x: u32, i: u32) -> usize
    requires plane { Plane cell map.now z × (x < cell.n1) × (i < row_lines (cell_lengths cell)) }
    requires ends { Ends at (section_line cell.group (cell_lengths cell) map.now z x i) }
    ensures { Wrote at (section_line cell.group (cell_lengths cell) map.now z x i)
        out.old result out.new }
{
    let first = crate::fields::put_aligned(out, at, 4, x as i64);
    let end = put_values(out, first, cell, map, z, x, 5 * i);
    output::put_byte(out, end, b'\n')
}

// The values at y, .., y + 4.
fn put_values(
    out: &mut [u8],
    at: usize,
    cell: UnitCell,
    map: &[i64],
    z: u32,
    x: u32,
    y: u32,
) -> usize
    requires plane { Plane cell map.now z × (x < cell.n1) × (y < 4000) }
    requires ends { Ends at (each 5 (λ t. value_field cell.group (cell_lengths cell) map.now z x (y + t))) }
    ensures { Wrote at
        (each 5 (λ t. value_field cell.group (cell_lengths cell) map.now z x (y + t)))
        out.old result out.new }
{
    let mut place = at;
    for t in 0..5 {
        place = put_value(out, place, cell, map, z, x, y + t);
    }
    place
}

// The value at y, or blanks where the row has no more.
fn put_value(
    out: &mut [u8],
    at: usize,
    cell: UnitCell,
    map: &[i64],
    z: u32,
    x: u32,
    y: u32,
) -> usize
    requires plane { Plane cell map.now z × (x < cell.n1) }
    requires ends { Ends at (value_field cell.group (cell_lengths cell) map.now z x y) }
    ensures { Wrote at (value_field cell.group (cell_lengths cell) map.now z x y)
        out.old result out.new }
{
    if y < cell.n2 {
        let point = Point { x: x, y: y, z: z };
        crate::fields::put_aligned(out, at, 13, combined::count_at(cell, point, map))
    } else {
        crate::fields::put_blanks(out, at, 0, 13)
    }
}
