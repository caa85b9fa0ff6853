// The total of a plane whose numbers are within the range: at most 2,880² of them, so that no sum leaves 64 bits.
ghost use Rattle.std.specs.Prelude.{◌≡◌, ◌<◌};
ghost use Rattle.cell.specs.Operations.{cell_lengths};
ghost use Rattle.section.specs.Section.{row_total, total};
ghost use Rattle.section.specs.Sound.{Sound};

use cell::operations::{Point, UnitCell};

pub fn plane_total(cell: UnitCell, map: &[i64], z: u32) -> i64
    requires { Sound cell map.now z }
    ensures { result ≡ total cell.group (cell_lengths cell) map.now z }
{
    let mut sum: i64 = 0;
    for x in 0..cell.n1 {
        sum += row_total(cell, map, z, x);
    }
    sum
}

// The total of row x.
fn row_total(cell: UnitCell, map: &[i64], z: u32, x: u32) -> i64
    requires { Sound cell map.now z × (x < cell.n1) }
    ensures { result ≡ row_total cell.group (cell_lengths cell) map.now z x }
{
    let mut sum: i64 = 0;
    for y in 0..cell.n2 {
        sum += combined::count_at(cell, Point { x, y, z }, map);
    }
    sum
}
