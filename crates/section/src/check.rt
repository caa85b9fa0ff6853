// The refusals of the section's call: the number is that of the first test of the paper's order that holds.
ghost use Rattle.std.specs.Prelude.{◌≡◌, ◌+◌, ◌*◌, ◌/◌, ◌<◌};
ghost use Rattle.refusals.specs.Refusals.{first};
ghost use Rattle.refusals.specs.Checks.{checked_number};
ghost use Rattle.cell.specs.Operations.{cell_lengths, Sizes};
ghost use Rattle.section.specs.Section.{row_within, plane_within, row_lines, section_tests};
ghost use Rattle.section.specs.Sound.{Plane};
ghost use Rattle.section.specs.Orders.{SectionRefusals};

use cell::operations::{Point, UnitCell};
use refusals::Refusal;

// 8, 3, 9, 6, 10, 28, 18. The plane is looked at once, and nothing is written to know how long the page is.
pub fn check_section(cell: UnitCell, map: &[i64], z: u32, room: usize) -> Result<(), Refusal>
    ensures { checked_number result
        ≡ first (section_tests cell.group (cell_lengths cell) map.now z room) }
{
    combined::check_combined_map(cell, map.len())?;
    if cell.n3 <= z {
        return Err(Refusal::Index);
    }
    if !plane_within(cell, map, z) {
        return Err(Refusal::Magnitude);
    }
    if room < text_length(cell) {
        return Err(Refusal::OutputTooShort);
    }
    Ok(())
}

// How many bytes a page has: 70 for each line.
fn text_length(cell: UnitCell) -> usize
    requires { Sizes cell }
    ensures { result ≡ 70 * (cell.n1 * row_lines (cell_lengths cell) + 3) }
{
    let lines = ((cell.n2 + 4) / 5) as usize;
    70 * ((cell.n1 as usize) * lines + 3)
}

// The numbers of the plane are within the range of a combined map.
fn plane_within(cell: UnitCell, map: &[i64], z: u32) -> bool
    requires { Plane cell map.now z }
    ensures { result ≡ plane_within cell.group (cell_lengths cell) map.now z }
{
    for x in 0..cell.n1 {
        if !row_within(cell, map, z, x) {
            return false;
        }
    }
    true
}

// Those of row x.
fn row_within(cell: UnitCell, map: &[i64], z: u32, x: u32) -> bool
    requires { Plane cell map.now z × (x < cell.n1) }
    ensures { result ≡ row_within cell.group (cell_lengths cell) map.now z x }
{
    for y in 0..cell.n2 {
        if 13063485600 < signed::magnitude(combined::count_at(cell, Point { x, y, z }, map)) {
            return false;
        }
    }
    true
}

// The refusals stand in the papers' order, and 28 is exactly that of a magnitude in the plane beyond the limit.
pub fn refusal_order()
    ensures { SectionRefusals }
{}
