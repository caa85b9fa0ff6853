// The tests of a header: what an opening names besides the volume. They are those of a job's own numbers too.
ghost use Rattle.std.specs.Prelude.{◌≡◌, true, ◌<◌};
ghost use Rattle.refusals.specs.Refusals.{first};
ghost use Rattle.refusals.specs.Checks.{checked_number};
ghost use Rattle.cell.specs.Operations.{cell_group, cell_lengths, cell_halves};
ghost use Rattle.cell.specs.Volume.{volume_length};
ghost use Rattle.header.specs.Header.{all_admitted, all_factors, all_products, axis_tests};
ghost use Rattle.header.specs.Cells.{cell_header};

use cell::operations::UnitCell;
use cell::places;
use refusals::Refusal;

// How many numbers the volume has, where the lengths are any numbers of two bytes: they may be those of a header that is refused.
pub fn volume_length(cell: UnitCell) -> u64
    requires { (cell.n1 < 65536) × (cell.n2 < 65536) × (cell.n3 < 65536) }
    ensures { result ≡ volume_length (cell_group cell) (cell_halves cell) }
{
    let layers = places::layer_count(cell) as u64;
    let rows = (2 * (cell.n1 / 2)) as u64;
    let columns = (cell.n2 / 2 + 1) as u64;
    2 * (layers * rows * columns)
}

// The three lengths are admitted.
pub fn all_admitted(cell: UnitCell) -> bool
    ensures { result ≡ all_admitted (cell_lengths cell) }
{
    lengths::admitted(cell.n1) & (lengths::admitted(cell.n2) & lengths::admitted(cell.n3))
}

// Every number of the three lists is a factor.
fn all_factors(f1: &[u8], f2: &[u8], f3: &[u8]) -> bool
    ensures { result ≡ all_factors f1.now f2.now f3.now }
{
    lengths::factors_ok(f1) & (lengths::factors_ok(f2) & lengths::factors_ok(f3))
}

// The product of each list is half of its axis.
fn all_products(f1: &[u8], f2: &[u8], f3: &[u8], cell: UnitCell) -> bool
    requires cell_value { all_admitted (cell_lengths cell) ≡ true }
    requires f3_value { all_factors f1.now f2.now f3.now ≡ true }
    ensures { result ≡ all_products (cell_lengths cell) f1.now f2.now f3.now }
{
    lengths::has_product(f1, cell.n1 / 2)
        & (lengths::has_product(f2, cell.n2 / 2) & lengths::has_product(f3, cell.n3 / 2))
}

// 3, 4, 5, each over the three axes, then 9.
pub fn check_header(cell: UnitCell, f1: &[u8], f2: &[u8], f3: &[u8]) -> Result<(), Refusal>
    requires { cell.group < 5 }
    ensures { checked_number result
        ≡ first (axis_tests (cell_header cell f1.now f2.now f3.now)) }
{
    if !all_admitted(cell) {
        return Err(Refusal::Length);
    }
    if !all_factors(f1, f2, f3) {
        return Err(Refusal::Factor);
    }
    if !all_products(f1, f2, f3, cell) {
        return Err(Refusal::Product);
    }
    let needed = volume_length(cell);
    if 16777216 < needed {
        return Err(Refusal::VolumeTooLarge);
    }
    Ok(())
}
