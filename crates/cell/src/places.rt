// Where factors and points stand in a volume: the places of pairs, the numbers that a factor is read from, the number of
// a point.
ghost use Rattle.std.specs.Prelude.{◌≡◌, true, ◌&&◌, ◌||◌, ◌+◌, ◌*◌, ◌-◌, ◌/◌, ◌<◌, ◌≤◌, min, eqb};
ghost use Rattle.algebra.specs.cells.Cell.{span, point_image, point_operation, stored_t};
ghost use Rattle.numbers.specs.Value.{prime, IsModulus, value_of, pair_of};
ghost use Rattle.numbers.specs.Bounds.{Small};
ghost use Rattle.lengths.specs.Lengths.{kind_of};
ghost use Rattle.cell.specs.Volume.{group_of, line_kind, rotated, times_i, over_i, layers, volume_length, pair_place};
ghost use Rattle.cell.specs.Volume.{numbers_read, density_place};
ghost use Rattle.cell.specs.Operations.{cell_group, cell_halves, triple_of, point_of, Length, Sizes, Within};
ghost use Rattle.cell.specs.Operations.{PointWithin};
ghost use Rattle.cell.specs.Places.{IsRun, stored_column, line_numbers_at};

use crate::operations;
use crate::operations::{Index, Point, UnitCell};
use numbers::Pair;

// Neighbouring numbers of a volume.
#[derive(Clone, Copy, Debug, PartialEq, Eq)]
pub struct Run {
    pub first: usize,
    pub count: usize,
}

// The number of the kind of the line along l at h: plain 0, alternating 3, symmetric 4, antisymmetric 5.
pub fn line_kind(group: u32, h: usize) -> u32
    ensures { (result < 6) × (kind_of result ≡ line_kind (group_of group) h) × (result ≡ 1 → ⊥) }
{
    if group == 1 {
        3
    } else if group == 2 {
        4
    } else if group == 3 {
        if h % 2 == 0 { 4 } else { 5 }
    } else if group == 4 {
        3
    } else {
        0
    }
}

// The line along l at h is stored times i.
pub fn is_rotated(group: u32, h: usize) -> bool
    requires { group < 5 }
    ensures { result ≡ rotated (group_of group) h }
{
    group == 4 && h % 2 != 0
}

// x as the line at h stores it.
pub fn with_i(m: u32, group: u32, h: u32, x: Pair) -> Pair
    requires { IsModulus m × Small (prime m) x × (group < 5) }
    ensures { result ≡ pair_of (times_i m (rotated (group_of group) h) (value_of m x)) }
{
    if is_rotated(group, h as usize) {
        numbers::times_i(m, x)
    } else {
        x
    }
}

// And back.
pub fn without_i(m: u32, group: u32, h: u32, x: Pair) -> Pair
    requires { IsModulus m × Small (prime m) x × (group < 5) }
    ensures { result ≡ pair_of (over_i m (rotated (group_of group) h) (value_of m x)) }
{
    if is_rotated(group, h as usize) {
        numbers::over_i(m, x)
    } else {
        x
    }
}

// The paper's W: how many planes of the map are stored, as many as the line along l at h = 0 has pairs. A number that no group has
// reads as P1.
pub fn layer_count(cell: UnitCell) -> u32
    ensures { result ≡ layers (cell_group cell) (cell_halves cell) }
{
    let kind = line_kind(cell.group, 0);
    if kind == 0 {
        cell.n3 / 2 * 2
    } else if kind == 3 {
        cell.n3 / 2
    } else {
        cell.n3 / 2 + 1
    }
}

// How many of the factors along l are stored: in an alternating line, l = 0 and l = A share a pair.
pub fn stored_count(cell: UnitCell) -> u32
    requires { Sizes cell }
    ensures { result ≡ span (cell_group cell) (cell.n3 / 2) }
{
    if cell.group == 0 {
        cell.n3
    } else {
        cell.n3 / 2 + 1
    }
}

// The place of the pair w of (h, k).
pub fn pair_place(cell: UnitCell, w: u32, h: u32, k: u32) -> usize
    requires { Sizes cell × (w ≤ 2880) × (h ≤ 2880) × (k ≤ 2880) }
    ensures { (result ≡ pair_place (cell_group cell) (cell_halves cell) w h k) × (result ≤ 12000000000) }
{
    let row = (w as usize) * (cell.n1 as usize) + (h as usize);
    row * ((cell.n2 / 2 + 1) as usize) + (k as usize)
}

// The factor at j has a place of its own in the volume.
pub fn is_stored(cell: UnitCell, j: Index) -> bool
    requires { Sizes cell }
    ensures { result ≡ stored_t (cell_group cell) (cell_halves cell) (triple_of j) }
{
    (j.k <= cell.n2 / 2) & (j.l < stored_count(cell))
}

// l is an end of the half line: its own negative.
pub fn is_end(n3: u32, l: u32) -> bool
    ensures { result ≡ (eqb l 0 || eqb l (n3 / 2)) }
{
    (l == 0) | (l == n3 / 2)
}

// The factor at l of a line of this kind is zero by the group's rule and stands nowhere: an end of an antisymmetric line.
pub fn is_absent(kind: u32, n3: u32, l: u32) -> bool
    ensures { result ≡ (eqb kind 5 && (eqb l 0 || eqb l (n3 / 2))) }
{
    (kind == 5) & is_end(n3, l)
}

// l or -l, whichever is in the first half.
pub fn folded(n3: u32, l: u32) -> u32
    requires { Length n3 × (l < n3) }
    ensures { result ≡ min l (2 * (n3 / 2) - l) }
{
    if l <= n3 / 2 { l } else { n3 - l }
}

// j if its k is stored, else its Friedel mate: the index whose line the factor at j is read from.
pub fn stored_column(cell: UnitCell, j: Index) -> Index
    requires { Sizes cell × Within cell j }
    ensures { (triple_of result ≡ stored_column (cell_halves cell) (triple_of j))
        × Within cell result
        × (result.k ≤ cell.n2 / 2) }
{
    if j.k <= cell.n2 / 2 {
        j
    } else {
        Index {
            h: operations::flipped(true, cell.n1, j.h),
            k: operations::flipped(true, cell.n2, j.k),
            l: operations::flipped(true, cell.n3, j.l),
        }
    }
}

// The two numbers of the pair w of (h, k).
fn pair_numbers(cell: UnitCell, w: u32, h: u32, k: u32) -> Run
    requires { Sizes cell × (w ≤ 2880) × (h ≤ 2880) × (k ≤ 2880) }
    ensures { (result.first ≡ 2 * pair_place (cell_group cell) (cell_halves cell) w h k) × (result.count ≡ 2) }
{
    Run {
        first: 2 * pair_place(cell, w, h, k),
        count: 2,
    }
}

// The numbers at the ends l = 0 and l = A of a line that is stored by half: one in an alternating line, none in an
// antisymmetric one.
fn end_numbers(cell: UnitCell, kind: u32, j: Index) -> Run
    requires sizes { Sizes cell
        × Within cell j
        × (j.k ≤ cell.n2 / 2)
        × ((eqb j.l 0 || eqb j.l (cell.n3 / 2)) ≡ true) }
    requires kind_bound { (kind < 6) × (kind_of kind ≡ line_kind (cell_group cell) j.h) × (kind ≡ 0 → ⊥) }
    ensures { IsRun (volume_length (cell_group cell) (cell_halves cell))
        (line_numbers_at (cell_group cell) (cell_halves cell) (triple_of j)) result }
{
    if kind == 3 {
        let place = 2 * pair_place(cell, 0, j.h, j.k);
        if j.l == 0 {
            Run {
                first: place,
                count: 1,
            }
        } else {
            Run {
                first: place + 1,
                count: 1,
            }
        }
    } else if kind == 5 {
        Run { first: 0, count: 0 }
    } else {
        pair_numbers(cell, j.l, j.h, j.k)
    }
}

// The numbers of the line (h, k) that the factor at l is read from.
fn line_numbers(cell: UnitCell, j: Index) -> Run
    requires { Sizes cell × Within cell j × (j.k ≤ cell.n2 / 2) }
    ensures { IsRun (volume_length (cell_group cell) (cell_halves cell))
        (line_numbers_at (cell_group cell) (cell_halves cell) (triple_of j)) result }
{
    let kind = line_kind(cell.group, j.h as usize);
    if kind == 0 {
        pair_numbers(cell, j.l, j.h, j.k)
    } else if is_end(cell.n3, j.l) {
        end_numbers(cell, kind, j)
    } else {
        pair_numbers(cell, folded(cell.n3, j.l), j.h, j.k)
    }
}

// The numbers that the factor at j is read from.
pub fn factor_numbers(cell: UnitCell, j: Index) -> Run
    requires { Sizes cell × Within cell j }
    ensures { IsRun (volume_length (cell_group cell) (cell_halves cell))
        (numbers_read (cell_group cell) (cell_halves cell) (triple_of j)) result }
{
    line_numbers(cell, stored_column(cell, j))
}

// The point itself if its plane is stored, else its image under the group's first operation but the identity.
fn stored_point(cell: UnitCell, p: Point) -> Point
    requires { Sizes cell × PointWithin cell p }
    ensures result_value { point_of result
        ≡ point_image (cell_halves cell) (point_operation (cell_group cell) (cell_halves cell) (point_of p))
        (point_of p) }
    ensures point_within { PointWithin cell result }
{
    if p.z < layer_count(cell) {
        p
    } else {
        let other = operations::group_operation(cell.group, 1);
        operations::point_image(other, cell, p)
    }
}

// The place of a point's number.
pub fn density_place(cell: UnitCell, p: Point) -> usize
    requires { Sizes cell × PointWithin cell p }
    ensures { (result ≡ density_place (cell_group cell) (cell_halves cell) (point_of p))
        × (result < volume_length (cell_group cell) (cell_halves cell)) }
{
    let q = stored_point(cell, p);
    2 * pair_place(cell, q.z, q.x, 0) + (q.y as usize)
}
