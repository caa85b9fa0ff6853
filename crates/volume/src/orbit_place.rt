// The place of an orbit in a volume: the least of the places of its stored images. Two indices have the same place exactly if they are of
// one orbit, so a mark at it tells whether a record of the orbit has come before.
ghost use Rattle.std.specs.Prelude.{◌≡◌, ◌/◌, ◌<◌, ◌≤◌};
ghost use Rattle.algebra.specs.cells.Cell.{span};
ghost use Rattle.cell.specs.Volume.{volume_length};
ghost use Rattle.cell.specs.OrbitPlace.{number_place, lower, orbit_place};
ghost use Rattle.cell.specs.Operations.{cell_group, cell_halves, triple_of, Sizes, Within};

use cell::operations::{Index, UnitCell};
use cell::{operations, places};

// The place of the orbit of j.
pub fn orbit_place(cell: UnitCell, j: Index) -> usize
    requires { Sizes cell × Within cell j }
    ensures { (result ≡ orbit_place (cell_group cell) (cell_halves cell) (triple_of j))
        × (result < volume_length (cell_group cell) (cell_halves cell)) }
{
    // the length of the volume: every place is lower
    let mut place = 2 * places::pair_place(cell, places::layer_count(cell), 0, 0);
    for number in 0..operations::operation_count(cell.group) {
        let o = operations::operation_at(cell.group, number);
        place = lower_place(cell, operations::image(o, cell, j), place);
    }
    place
}

// The lower of the place of i, where i is stored, and of another place.
fn lower_place(cell: UnitCell, i: Index, place: usize) -> usize
    requires { Sizes cell × Within cell i }
    ensures { result ≡ lower (cell_group cell) (cell_halves cell) (triple_of i) place }
{
    if !places::is_stored(cell, i) {
        return place;
    }
    let own = number_place(cell, i);
    if own < place { own } else { place }
}

// The place of a stored index: the first number of its pair, but at l = A of an alternating line the second of pair 0.
fn number_place(cell: UnitCell, j: Index) -> usize
    requires { Sizes cell × Within cell j }
    ensures { result ≡ number_place (cell_group cell) (cell_halves cell) (triple_of j) }
{
    let kind = places::line_kind(cell.group, j.h as usize);
    if (kind == 3) & (j.l == cell.n3 / 2) {
        2 * places::pair_place(cell, 0, j.h, j.k) + 1
    } else {
        2 * places::pair_place(cell, j.l, j.h, j.k)
    }
}
