// The refusals of a combined map: the number is that of the first test of the paper's order that holds.
ghost use Rattle.std.specs.Prelude.{◌≡◌};
ghost use Rattle.refusals.specs.Refusals.{first};
ghost use Rattle.refusals.specs.Checks.{checked_number};
ghost use Rattle.cell.specs.Operations.{cell_lengths, Sizes};
ghost use Rattle.combining.specs.Combining.{of_one_cell, maps_tests, combine_tests};
ghost use Rattle.combining.specs.Orders.{CombineRefusals};

use cell::operations::UnitCell;
use job::check::tests;
use job::{Job, valid};
use refusals::Refusal;
use volume::consistent::map_test;

// 25, 22, 27, then the maps': each over both jobs before the next.
pub fn check_maps(
    i: Job,
    first_map: &[u32],
    j: Job,
    second_map: &[u32],
    room: usize,
) -> Result<(), Refusal>
    ensures { checked_number result
        ≡ first (combine_tests i j first_map.now second_map.now room) }
{
    if !(valid::valid_job(i) & valid::valid_job(j)) {
        return Err(Refusal::ImpossibleJob);
    }
    if !((i.state == 2) & (j.state == 2)) {
        return Err(Refusal::NoMap);
    }
    if !of_one_cell(i, j) {
        return Err(Refusal::DifferentCells);
    }
    check_volumes(i.unit_cell(), first_map, second_map, room)
}

// One group and the same lengths, and the moduli 1 and 2 in order.
fn of_one_cell(i: Job, j: Job) -> bool
    ensures { result ≡ of_one_cell i j }
{
    (i.group == j.group)
        & ((i.a.length == j.a.length)
            & ((i.b.length == j.b.length)
                & ((i.c.length == j.c.length) & ((i.modulus == 1) & (j.modulus == 2)))))
}

// 6, 7, 14: each over both maps before the next, 6 of the output too.
fn check_volumes(
    cell: UnitCell,
    first_map: &[u32],
    second_map: &[u32],
    room: usize,
) -> Result<(), Refusal>
    requires { Sizes cell }
    ensures { checked_number result
        ≡ first
        (maps_tests cell.group (cell_lengths cell)
        first_map.now second_map.now room) }
{
    let needed = header::bytes::volume_length(cell);
    if !(tests::fits(cell, first_map) & (tests::fits(cell, second_map) & (room as u64 == needed))) {
        return Err(Refusal::BufferLength);
    }
    if !(tests::all_residues(1, first_map) & tests::all_residues(2, second_map)) {
        return Err(Refusal::NotResidue);
    }
    if !(map_test::consistent_map(cell, first_map) & map_test::consistent_map(cell, second_map)) {
        return Err(Refusal::Inconsistent);
    }
    Ok(())
}

// The refusals stand in the papers' order; 27 is exactly that of jobs of different cells or primes, and 14 that of a volume that is no map
// of the cell.
pub fn refusal_order()
    ensures { CombineRefusals }
{}
