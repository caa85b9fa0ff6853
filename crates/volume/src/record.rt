// The images of a record written into the volume, one loop over the operations of the orbit. Whether the record is taken is for the
// caller to test.
ghost use Rattle.std.specs.Prelude.{◌≡◌, [], ◌∷◌, length};
ghost use Rattle.numbers.specs.Value.{prime, IsModulus, value_of};
ghost use Rattle.numbers.specs.Bounds.{Small};
ghost use Rattle.cell.specs.Volume.{volume_length};
ghost use Rattle.cell.specs.Consistency.{write_images, record_on};
ghost use Rattle.cell.specs.Operations.{cell_group, cell_halves, triple_of, sym_of, Sizes, Within};

use cell::operations::{Index, Operation, UnitCell};
use cell::{operations, places};
use numbers::Pair;

// The record's value goes to its index, the implied values to all stored images, Friedel mates in the planes k = 0 and
// k = B among them.
pub fn write_images(m: u32, cell: UnitCell, j: Index, x: Pair, volume: &mut [u32])
    requires modulus { IsModulus m × Small (prime m) x × Sizes cell × Within cell j }
    requires volume_len { length volume.old ≡ volume_length (cell_group cell) (cell_halves cell) }
    ensures { volume.new
        ≡ record_on (cell_group cell) (cell_halves cell) m (triple_of j) (value_of m x) volume.old }
{
    for number in 0..operations::operation_count(cell.group) {
        let o = operations::operation_at(cell.group, number);
        write_image(m, o, cell, j, x, volume);
    }
}

// The value that x at j implies goes to the image of j, if that is stored, as its line stores it.
fn write_image(m: u32, o: Operation, cell: UnitCell, j: Index, x: Pair, volume: &mut [u32])
    requires modulus { IsModulus m × Small (prime m) x × Sizes cell × Within cell j }
    requires volume_len { length volume.old ≡ volume_length (cell_group cell) (cell_halves cell) }
    ensures { volume.new
        ≡ write_images (cell_group cell) (cell_halves cell) m (sym_of o ∷ []) (triple_of j) (value_of m x)
        volume.old }
{
    let to = operations::image(o, cell, j);
    if places::is_stored(cell, to) {
        crate::write::write_factor(
            cell,
            to,
            places::with_i(m, cell.group, to.h, operations::implied(m, o, j, x)),
            volume,
        );
    }
}
