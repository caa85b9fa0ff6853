// The least and the greatest density of a map, found in one pass over the rows that it stores. The two numbers behind
// each row are not read.
ghost use Rattle.std.specs.Prelude.{◌≡◌, ◌&&◌, ◌+◌, ◌<◌, ◌≤◌, leb, ℤ, pos, nat_abs, length, get_or};
ghost use Rattle.cell.specs.Operations.{cell_group, cell_halves, Sizes};
ghost use Rattle.cell.specs.Volume.{layers, volume_length};
ghost use Rattle.mrc.specs.Floats.{exact_limit};
ghost use Rattle.mrc.specs.Ranges.{lesser, greater, among, Spans, of_row, of_plane, of_stored};

use cell::operations::UnitCell;
use cell::places;

#[derive(Clone, Copy)]
pub struct DensityRange {
    pub least: i64,
    pub greatest: i64,
}

// The range of two ranges' numbers.
fn joined(r: DensityRange, s: DensityRange) -> DensityRange
    ensures { (result.least ≡ lesser r.least s.least)
        × (result.greatest ≡ greater r.greatest s.greatest) }
{
    DensityRange {
        least: r.least.min(s.least),
        greatest: r.greatest.max(s.greatest),
    }
}

// The range of one number.
fn single(n: i64) -> DensityRange
    ensures { (result.least ≡ n) × (result.greatest ≡ n) }
{
    DensityRange {
        least: n,
        greatest: n,
    }
}

// The n numbers of a map from `start` on.
fn row_range(map: &[i64], start: usize, n: usize) -> DensityRange
    requires { (1 ≤ n) × (start + n ≤ length map.now) }
    ensures { Spans result (λ pick. among pick n (λ y. get_or map.now (start + y) (pos 0))) }
{
    let mut range = single(map[start]);
    for y in 1..n {
        range = joined(range, single(map[start + y]));
    }
    range
}

// The row at z, x of a map.
fn stored_row(cell: UnitCell, map: &[i64], z: u32, x: u32) -> DensityRange
    requires { Sizes cell
        × (length map.now ≡ volume_length (cell_group cell) (cell_halves cell))
        × (z < layers (cell_group cell) (cell_halves cell))
        × (x < cell.n1) }
    ensures { Spans result (of_row cell map.now z x) }
{
    row_range(map, 2 * places::pair_place(cell, z, x, 0), cell.n2 as usize)
}

// The stored plane z.
fn plane_range(cell: UnitCell, map: &[i64], z: u32) -> DensityRange
    requires { Sizes cell
        × (length map.now ≡ volume_length (cell_group cell) (cell_halves cell))
        × (z < layers (cell_group cell) (cell_halves cell)) }
    ensures { Spans result (of_plane cell map.now z) }
{
    let mut range = stored_row(cell, map, z, 0);
    for x in 1..cell.n1 {
        range = joined(range, stored_row(cell, map, z, x));
    }
    range
}

// All stored planes.
pub fn map_range(cell: UnitCell, map: &[i64]) -> DensityRange
    requires { Sizes cell × (length map.now ≡ volume_length (cell_group cell) (cell_halves cell)) }
    ensures { Spans result (of_stored cell map.now) }
{
    let mut range = plane_range(cell, map, 0);
    for z in 1..places::layer_count(cell) {
        range = joined(range, plane_range(cell, map, z));
    }
    range
}

// The numbers of a range are exact as floats.
pub fn is_exact(range: DensityRange) -> bool
    ensures { result
        ≡ (leb (nat_abs range.least) exact_limit && leb (nat_abs range.greatest) exact_limit) }
{
    (signed::magnitude(range.least) <= 16777215) & (signed::magnitude(range.greatest) <= 16777215)
}
