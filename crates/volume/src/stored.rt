// What stands at the stored places of a volume: a pair, a factor, the number of a point.
//
// A factor asks residues only of the numbers that it is read from, so that these functions take the modulus, the cell and the volume, and no
// Residues, which asks them of all.
ghost use Rattle.std.specs.Prelude.{◌≡◌, true, ℕ, ◌/◌, get_or};
ghost use Rattle.algebra.specs.lines.Kinds.{Kind.alternating};
ghost use Rattle.numbers.specs.Value.{prime, IsModulus, pair_of};
ghost use Rattle.slices.specs.Pairs.{at};
ghost use Rattle.cell.specs.Volume.{line_kind, pair_place, map_place};
ghost use Rattle.cell.specs.Operations.{cell_group, cell_halves, triple_of, point_of};
ghost use Rattle.cell.specs.TestSteps.{IsVolume, IsStored, PairInside, same_pair, is_zero};
ghost use Rattle.cell.specs.Places.{IsStoredFactor, all_below_at, line_numbers_at, line_factor};

use cell::operations::{Index, Point, UnitCell};
use cell::places;
use numbers::Pair;

// The pair w of (h, k).
pub fn pair_at(cell: UnitCell, volume: &[u32], w: u32, h: u32, k: u32) -> Pair
    requires { PairInside cell volume.now w h k }
    ensures { result ≡ at volume.now (pair_place (cell_group cell) (cell_halves cell) w h k) }
{
    slices::get(volume, places::pair_place(cell, w, h, k))
}

// Two pairs have the same numbers.
pub fn same(x: Pair, y: Pair) -> bool
    ensures { result ≡ same_pair x y }
{
    x == y
}

// Both numbers are zero.
pub fn is_zero(x: Pair) -> bool
    ensures { result ≡ is_zero x }
{
    x == Pair { re: 0, im: 0 }
}

// The pair of an alternating line that l is read from: l = 0 and l = A share pair 0.
fn alternating_pair(half: u32, l: u32) -> u32
    ensures { (l ≡ half → result ≡ 0) × ((l ≡ half → ⊥) → result ≡ l) }
{
    if l == half { 0 } else { l }
}

// The factor at a stored index of an alternating line, as it is stored: at l = 0 and at l = A one number of pair 0, real at l = 0 and at an
// even A, imaginary at an odd A; else a pair.
fn alternating_factor(cell: UnitCell, volume: &[u32], j: Index) -> Pair
    requires { IsVolume cell volume.now
        × IsStored cell j
        × (line_kind (cell_group cell) j.h ≡ alternating) }
    ensures { (m : ℕ) →
        IsStoredFactor (cell_group cell) (cell_halves cell) m volume.now (triple_of j) result }
{
    let half = cell.n3 / 2;
    let x = pair_at(cell, volume, alternating_pair(half, j.l), j.h, j.k);
    if j.l == 0 {
        Pair { re: x.re, im: 0 }
    } else if j.l == half {
        if half % 2 == 0 {
            Pair { re: x.im, im: 0 }
        } else {
            Pair { re: 0, im: x.im }
        }
    } else {
        x
    }
}

// The factor at a stored index as its line stores it, times i where the line is rotated, if the numbers that it is read from are below
// the prime.
pub fn stored_factor(cell: UnitCell, volume: &[u32], j: Index) -> Pair
    requires { IsVolume cell volume.now × IsStored cell j }
    ensures { (m : ℕ) →
        IsStoredFactor (cell_group cell) (cell_halves cell) m volume.now (triple_of j) result }
{
    let kind = places::line_kind(cell.group, j.h as usize);
    if kind == 3 {
        alternating_factor(cell, volume, j)
    } else if places::is_absent(kind, cell.n3, j.l) {
        Pair { re: 0, im: 0 }
    } else {
        pair_at(cell, volume, j.l, j.h, j.k)
    }
}

// The factor at a stored index: a rotated line loses its i.
pub fn stored_value(m: u32, cell: UnitCell, volume: &[u32], j: Index) -> Pair
    requires modulus { IsModulus m × IsVolume cell volume.now × IsStored cell j }
    requires j_value { all_below_at (prime m) volume.now (line_numbers_at (cell_group cell) (cell_halves cell) (triple_of j))
        ≡ true }
    ensures { result
        ≡ pair_of (line_factor (cell_group cell) (cell_halves cell) m volume.now (triple_of j)) }
{
    places::without_i(m, cell.group, j.h, stored_factor(cell, volume, j))
}

// The same between the ends of l: there it is the pair at its place, whatever the kind of the line. Loops that read every factor read
// most of them here, without a call.
pub fn between_value(m: u32, cell: UnitCell, volume: &[u32], j: Index) -> Pair
    requires modulus { IsModulus m
        × IsVolume cell volume.now
        × IsStored cell j
        × (j.l ≡ 0 → ⊥)
        × (j.l ≡ cell.n3 / 2 → ⊥) }
    requires j_value { all_below_at (prime m) volume.now (line_numbers_at (cell_group cell) (cell_halves cell) (triple_of j))
        ≡ true }
    ensures { result
        ≡ pair_of (line_factor (cell_group cell) (cell_halves cell) m volume.now (triple_of j)) }
{
    places::without_i(m, cell.group, j.h, pair_at(cell, volume, j.l, j.h, j.k))
}

// Either, by where l is.
pub fn value_at(m: u32, cell: UnitCell, volume: &[u32], j: Index) -> Pair
    requires modulus { IsModulus m × IsVolume cell volume.now × IsStored cell j }
    requires j_value { all_below_at (prime m) volume.now (line_numbers_at (cell_group cell) (cell_halves cell) (triple_of j))
        ≡ true }
    ensures { result
        ≡ pair_of (line_factor (cell_group cell) (cell_halves cell) m volume.now (triple_of j)) }
{
    if places::is_end(cell.n3, j.l) {
        stored_value(m, cell, volume, j)
    } else {
        between_value(m, cell, volume, j)
    }
}

// The number of a point of a stored plane.
pub fn stored_number(cell: UnitCell, volume: &[u32], p: Point) -> u32
    requires { PairInside cell volume.now p.z p.x (p.y / 2) }
    ensures { result
        ≡ get_or volume.now (map_place (cell_group cell) (cell_halves cell) (point_of p)) 0 }
{
    let place = 2 * places::pair_place(cell, p.z, p.x, 0) + (p.y as usize);
    volume[place]
}
