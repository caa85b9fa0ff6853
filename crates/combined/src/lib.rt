// Combined maps: signed whole numbers in the layout of a map, made of two maps of one cell, one for each prime.
#![tactic(auto)]

pub mod chinese; // chinese.rt: the whole number next to zero with two given residues
pub mod reading; // reading.rt: the number of a point, as a call

ghost use Rattle.std.specs.Prelude.{◌≡◌, length};
ghost use Rattle.refusals.specs.Refusals.{first};
ghost use Rattle.refusals.specs.Checks.{checked_number};
ghost use Rattle.cell.specs.Volume.{volume_length};
ghost use Rattle.cell.specs.Operations.{cell_group, cell_lengths, cell_halves, point_of, Sizes, PointWithin};
ghost use Rattle.combined.specs.CombinedMap.{count_of, combined_map_tests, PackedExactly};

use cell::operations::{Point, UnitCell};
use refusals::Refusal;

// 8, 3, 9, 6: whether a map of this length is one of the cell.
pub fn check_combined_map(cell: UnitCell, length: usize) -> Result<(), Refusal>
    ensures { checked_number result ≡ first (combined_map_tests cell.group (cell_lengths cell) length) }
{
    if 5 <= cell.group {
        return Err(Refusal::Group);
    }
    if !header::bytes::all_admitted(cell) {
        return Err(Refusal::Length);
    }
    let needed = header::bytes::volume_length(cell);
    if 16777216 < needed {
        return Err(Refusal::VolumeTooLarge);
    }
    if (length as u64) != needed {
        return Err(Refusal::BufferLength);
    }
    Ok(())
}

// The number of a point of the cell.
pub fn count_at(cell: UnitCell, point: Point, map: &[i64]) -> i64
    requires { Sizes cell
        × PointWithin cell point
        × (length map.now ≡ volume_length (cell_group cell) (cell_halves cell)) }
    ensures { result ≡ count_of (cell_group cell) (cell_halves cell) map.now (point_of point) }
{
    map[cell::places::density_place(cell, point)]
}

// What the layout of a cell of whole numbers is: its numbers at the stored points, zeros at each row's end, and nothing else.
pub fn packed_exactly()
    ensures { PackedExactly }
{}
