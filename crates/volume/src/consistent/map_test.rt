// Refusal 14 of a map. A volume passes exactly if points of stored planes that are images of each other have the same
// number, and each row ends with two zeros.
//
// The points are tested in the order in which they lie in the volume. The test of factors (factor_test.rt) has loops of the same names: what they
// share is the three lines of a `for`, and a closure's contract would be longer.
ghost use Rattle.std.specs.Prelude.{◌≡◌, false, ◌*◌, ◌/◌, ◌<◌};
ghost use Rattle.algebra.specs.cells.Cell.{below};
ghost use Rattle.cell.specs.Volume.{layers};
ghost use Rattle.cell.specs.Consistency.{point_agrees, consistent_map};
ghost use Rattle.cell.specs.Operations.{cell_group, cell_halves, point_of, sym_of, Sizes, PointWithin};
ghost use Rattle.cell.specs.Lent.{of_volume};
ghost use Rattle.cell.specs.TestSteps.{IsVolume, point_image_agrees, PlaneAgrees, points_agree, row_agrees};

use cell::lent::LentVolume;
use cell::operations::{Operation, Point, UnitCell};
use cell::{operations, places};

// The volume is the map, with its zeros, of some real cell that obeys the group.
#[tactic(auto, using(algebra::proofs::cells::Passing::tested))]
pub fn consistent_map(cell: UnitCell, volume: &[u32]) -> bool
    requires { IsVolume cell volume.now }
    ensures { result ≡ consistent_map (cell_group cell) (cell_halves cell) volume.now }
{
    let v = LentVolume { cell, volume };
    let planes = places::layer_count(cell);
    for z in 0..planes {
        if !plane_agrees(&v, z) {
            return false;
        }
    }
    true
}

// The image of the point under o, where its plane is stored, has the point's number.
fn image_agrees(v: &LentVolume, o: Operation, p: Point) -> bool
    requires { PointWithin v.now.cell p × (p.z < layers (cell_group v.now.cell) (cell_halves v.now.cell)) }
    ensures { result ≡ of_volume point_image_agrees v.now (point_of p) (sym_of o) }
{
    let q = operations::point_image(o, v.cell, p);
    if q.z < places::layer_count(v.cell) {
        crate::stored::stored_number(v.cell, v.volume, q)
            == crate::stored::stored_number(v.cell, v.volume, p)
    } else {
        true
    }
}

// Every image of the point agrees. The first operation leaves it where it is, and need not be tried.
#[tactic(auto, using(algebra::proofs::cells::Passing::tested_members))]
fn point_agrees(v: &LentVolume, p: Point) -> bool
    requires { PointWithin v.now.cell p × (p.z < layers (cell_group v.now.cell) (cell_halves v.now.cell)) }
    ensures { result ≡ of_volume point_agrees v.now (point_of p) }
{
    for number in 1..operations::group_order(v.cell.group) {
        let o = operations::group_operation(v.cell.group, number);
        if !image_agrees(v, o, p) {
            return false;
        }
    }
    true
}

// Some operation but the first leads the plane z to a stored one: in P2₁ none does, in Pm and Pa it is so for the first and the last plane.
fn meets_stored(cell: UnitCell, z: u32) -> bool
    requires { Sizes cell × (z < cell.n3) }
    ensures { result ≡ false → PlaneAgrees cell z }
{
    let planes = places::layer_count(cell);
    for number in 1..operations::group_order(cell.group) {
        let o = operations::group_operation(cell.group, number);
        let q = operations::point_image(o, cell, Point { x: 0, y: 0, z });
        if q.z < planes {
            return true;
        }
    }
    false
}

// The points of the row at z and x, where they are to be tried.
#[tactic(auto, using(algebra::proofs::cells::Passing::tested))]
fn points_agree(v: &LentVolume, tried: bool, z: u32, x: u32) -> bool
    requires { (z < layers (cell_group v.now.cell) (cell_halves v.now.cell))
        × (x < v.now.cell.n1)
        × (tried ≡ false → PlaneAgrees v.now.cell z) }
    ensures { result ≡ of_volume points_agree v.now z x }
{
    if !tried {
        return true;
    }
    for y in 0..v.cell.n2 {
        if !point_agrees(v, Point { x, y, z }) {
            return false;
        }
    }
    true
}

// The row at z and x: its points, then its two zeros.
fn row_agrees(v: &LentVolume, tried: bool, z: u32, x: u32) -> bool
    requires { (z < layers (cell_group v.now.cell) (cell_halves v.now.cell))
        × (x < v.now.cell.n1)
        × (tried ≡ false → PlaneAgrees v.now.cell z) }
    ensures { result ≡ of_volume row_agrees v.now z x }
{
    points_agree(v, tried, z, x)
        && crate::stored::is_zero(crate::stored::pair_at(v.cell, v.volume, z, x, v.cell.n2 / 2))
}

// All x of the plane z.
#[tactic(auto, using(algebra::proofs::cells::Passing::tested))]
fn plane_agrees(v: &LentVolume, z: u32) -> bool
    requires { z < layers (cell_group v.now.cell) (cell_halves v.now.cell) }
    ensures { result ≡ below (2 * (v.now.cell.n1 / 2)) (of_volume row_agrees v.now z) }
{
    let tried = meets_stored(v.cell, z);
    for x in 0..v.cell.n1 {
        if !row_agrees(v, tried, z, x) {
            return false;
        }
    }
    true
}
