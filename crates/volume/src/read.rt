// The factor at any index of the cell, read from a volume of packed factors: the one at its own stored place, or what the
// one at the stored index of its orbit implies; and whether the numbers it is read from are residues.
//
// As in stored.rt, residues are asked only of those numbers.
ghost use Rattle.std.specs.Prelude.{◌≡◌, true, ◌+◌, ◌/◌, ◌<◌, ◌≤◌, length};
ghost use Rattle.algebra.specs.cells.Cell.{span, image_of};
ghost use Rattle.algebra.specs.cells.CellPlaces.{line_sym};
ghost use Rattle.numbers.specs.Value.{prime, IsModulus, pair_of};
ghost use Rattle.cell.specs.Volume.{volume_length, numbers_read, factors_in};
ghost use Rattle.cell.specs.Operations.{cell_group, cell_halves, triple_of, Sizes, Within};
ghost use Rattle.cell.specs.Places.{consecutive, all_below_at, line_numbers_at, line_factor};
ghost use Rattle.cell.specs.TestSteps.{IsStored};

use cell::operations::{Index, UnitCell};
use cell::places::Run;
use cell::{operations, places};
use numbers::Pair;

// The numbers of a consecutive are below p.
pub fn run_below(r: Run, p: u32, volume: &[u32]) -> bool
    requires { r.first + r.count ≤ length volume.now }
    ensures { result ≡ all_below_at p volume.now (consecutive r.first r.count) }
{
    volume[r.first..r.first + r.count]
        .iter()
        .all(|number| *number < p)
}

// The numbers that the factor at j is read from are below p.
pub fn factor_numbers_below(cell: UnitCell, j: Index, p: u32, volume: &[u32]) -> bool
    requires sizes { Sizes cell × Within cell j }
    requires volume_len { length volume.now ≡ volume_length (cell_group cell) (cell_halves cell) }
    ensures { result
        ≡ all_below_at p volume.now (numbers_read (cell_group cell) (cell_halves cell) (triple_of j)) }
{
    run_below(places::factor_numbers(cell, j), p, volume)
}

// j if its l is stored, else (h, k, -l).
fn stored_index(cell: UnitCell, j: Index) -> Index
    requires { Sizes cell × Within cell j × (j.k ≤ cell.n2 / 2) }
    ensures stored { IsStored cell result }
    ensures result_value { line_numbers_at (cell_group cell) (cell_halves cell) (triple_of result)
        ≡ line_numbers_at (cell_group cell) (cell_halves cell) (triple_of j) }
    ensures result_value_2 { j.l < span (cell_group cell) (cell.n3 / 2) → triple_of result ≡ triple_of j }
    ensures result_value_3 { span (cell_group cell) (cell.n3 / 2) ≤ j.l →
        triple_of result ≡ image_of (cell_halves cell) (line_sym (cell_group cell)) (triple_of j) }
{
    if j.l < places::stored_count(cell) {
        j
    } else {
        Index {
            h: j.h,
            k: j.k,
            l: operations::flipped(true, cell.n3, j.l),
        }
    }
}

// The factor at (h, k, l), k from 0 to B: stored, or implied by the one at (h, k, -l).
fn line_value(m: u32, cell: UnitCell, j: Index, volume: &[u32]) -> Pair
    requires modulus { IsModulus m × Sizes cell × Within cell j × (j.k ≤ cell.n2 / 2) }
    requires volume_len { length volume.now ≡ volume_length (cell_group cell) (cell_halves cell) }
    requires j_value { all_below_at (prime m) volume.now (line_numbers_at (cell_group cell) (cell_halves cell) (triple_of j))
        ≡ true }
    ensures { result
        ≡ pair_of (line_factor (cell_group cell) (cell_halves cell) m volume.now (triple_of j)) }
{
    let i = stored_index(cell, j);
    let x = crate::stored::value_at(m, cell, volume, i);
    if j.l < places::stored_count(cell) {
        x
    } else {
        operations::implied(m, operations::line_operation(cell.group), j, x)
    }
}

// The factor at j, whose numbers are below the prime.
pub fn factor_at(m: u32, cell: UnitCell, j: Index, volume: &[u32]) -> Pair
    requires modulus { IsModulus m × Sizes cell × Within cell j }
    requires volume_len { length volume.now ≡ volume_length (cell_group cell) (cell_halves cell) }
    requires j_value { all_below_at (prime m) volume.now (numbers_read (cell_group cell) (cell_halves cell) (triple_of j))
        ≡ true }
    ensures { result
        ≡ pair_of (factors_in (cell_group cell) (cell_halves cell) m volume.now j.h j.k j.l) }
{
    let x = line_value(m, cell, places::stored_column(cell, j), volume);
    if j.k <= cell.n2 / 2 {
        x
    } else {
        numbers::conjugate(m, x)
    }
}

// The same, for loops over all indices of the cell: between the ends of the stored half of a line, where most are, it is the pair at its
// place, and no call is left there.
pub fn walked_factor(m: u32, cell: UnitCell, j: Index, volume: &[u32]) -> Pair
    requires modulus { IsModulus m × Sizes cell × Within cell j }
    requires volume_len { length volume.now ≡ volume_length (cell_group cell) (cell_halves cell) }
    requires j_value { all_below_at (prime m) volume.now (numbers_read (cell_group cell) (cell_halves cell) (triple_of j))
        ≡ true }
    ensures { result
        ≡ pair_of (factors_in (cell_group cell) (cell_halves cell) m volume.now j.h j.k j.l) }
{
    let i = places::stored_column(cell, j);
    if places::is_end(cell.n3, i.l) {
        return factor_at(m, cell, j, volume);
    }
    if places::stored_count(cell) <= i.l {
        return factor_at(m, cell, j, volume);
    }
    let x = crate::stored::between_value(m, cell, volume, i);
    if j.k <= cell.n2 / 2 {
        x
    } else {
        numbers::conjugate(m, x)
    }
}
