// A factor written at its stored place: a whole pair, but at the ends of an alternating line the one number of pair 0 that
// can differ from 0, and at those of an antisymmetric line nothing.
ghost use Rattle.std.specs.Prelude.{◌≡◌, cond, ◌/◌, ◌<◌, ◌≤◌, length};
ghost use Rattle.algebra.specs.lines.Kinds.{Kind.alternating};
ghost use Rattle.algebra.specs.cells.Cell.{span};
ghost use Rattle.algebra.specs.cells.CellPack.{even};
ghost use Rattle.cell.specs.Volume.{line_kind, volume_length};
ghost use Rattle.cell.specs.Consistency.{write_alternating, write};
ghost use Rattle.cell.specs.Operations.{cell_group, cell_halves, triple_of, Sizes, Within};

use cell::operations::{Index, UnitCell};
use cell::places;
use numbers::Pair;

// x goes to the stored index j.
pub fn write_factor(cell: UnitCell, j: Index, x: Pair, volume: &mut [u32])
    requires sizes { Sizes cell
        × Within cell j
        × (j.k ≤ cell.n2 / 2)
        × (j.l < span (cell_group cell) (cell.n3 / 2)) }
    requires volume_len { length volume.old ≡ volume_length (cell_group cell) (cell_halves cell) }
    ensures { volume.new
        ≡ write (cell_group cell) (cell_halves cell) volume.old (triple_of j) x }
{
    let kind = places::line_kind(cell.group, j.h as usize);
    if kind == 3 {
        write_alternating(cell, j, x, volume);
    } else if !places::is_absent(kind, cell.n3, j.l) {
        slices::store(volume, places::pair_place(cell, j.l, j.h, j.k), x);
    }
}

// x goes to j in an alternating line: one number of pair 0 at either end, else a pair.
fn write_alternating(cell: UnitCell, j: Index, x: Pair, volume: &mut [u32])
    requires sizes { Sizes cell
        × (line_kind (cell_group cell) j.h ≡ alternating)
        × Within cell j
        × (j.k ≤ cell.n2 / 2)
        × (j.l ≤ cell.n3 / 2) }
    requires volume_len { length volume.old ≡ volume_length (cell_group cell) (cell_halves cell) }
    ensures { volume.new
        ≡ write_alternating (cell_group cell) (cell_halves cell) volume.old j.h j.k j.l x }
{
    let half = cell.n3 / 2;
    let first = 2 * places::pair_place(cell, 0, j.h, j.k);
    if j.l == 0 {
        volume[first] = x.re;
    } else if j.l == half {
        volume[first + 1] = alternating_part(half, x);
    } else {
        slices::store(volume, places::pair_place(cell, j.l, j.h, j.k), x);
    }
}

// The part of X(A) that can differ from 0.
fn alternating_part(half: u32, x: Pair) -> u32
    ensures { result ≡ cond (even half) x.re x.im }
{
    if half % 2 == 0 { x.re } else { x.im }
}
