// The lowest place of an orbit in the order h, k, l: the one at which the writer of factor files gives the orbit's record.
//
// A place is the lowest of its orbit if it comes no later than any of its images.
ghost use Rattle.std.specs.Prelude.{◌≡◌};
ghost use Rattle.cell.specs.Operations.{cell_group, cell_halves, triple_of, Sizes, Within};
ghost use Rattle.factor_file.specs.File.{no_later, is_lowest};

use cell::operations;
use cell::operations::{Index, UnitCell};

// i comes no later than j in the order h, k, l.
fn no_later(i: Index, j: Index) -> bool
    ensures { result ≡ no_later (triple_of i) (triple_of j) }
{
    (i.h < j.h) | ((i.h == j.h) & ((i.k < j.k) | ((i.k == j.k) & (i.l <= j.l))))
}

// No image of j comes before it. In P1 the one other image is the Friedel mate, which comes later wherever h is between 0 and N1/2.
pub fn lowest(cell: UnitCell, j: Index) -> bool
    requires { Sizes cell × Within cell j }
    ensures { result ≡ is_lowest (cell_group cell) (cell_halves cell) (triple_of j) }
{
    if cell.group == 0 {
        if j.h < cell.n1 / 2 {
            if 0 < j.h {
                return true;
            }
        }
    }
    none_before(cell, j)
}

// The same by trying every image. The first operation leaves j where it is, and need not be tried.
fn none_before(cell: UnitCell, j: Index) -> bool
    requires { Sizes cell × Within cell j }
    ensures { result ≡ is_lowest (cell_group cell) (cell_halves cell) (triple_of j) }
{
    let count = operations::operation_count(cell.group);
    for number in 1..count {
        let o = operations::operation_at(cell.group, number);
        if !no_later(j, operations::image(o, cell, j)) {
            return false;
        }
    }
    true
}
