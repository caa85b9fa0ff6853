// One line of a volume, as it is lent to be transformed in its place: what the tables and the slices beside it are, and the two ends of
// a row along k, which is a Hermitian line in another packing.
//
// A row has B + 1 pairs, of which the first and the last are real; the packed line has B. Direction 0 is synthesis, 1 analysis.
ghost use Rattle.std.specs.Prelude.{◌≡◌, ◌+◌, ◌<◌, length};
ghost use Rattle.volume_transform.specs.Lines.{opened, closed};

// The packed Hermitian line has the real part of pair B in the second number of pair 0: before synthesis it goes there.
pub fn open_row(direction: u32, size: usize, row: &mut [u32])
    requires { (1 < size) × (length row.old ≡ size + 2) }
    ensures { row.new ≡ opened direction size row.old }
{
    if direction == 0 {
        row[1] = row[size];
    }
}

// The pair B is no part of the packed line. Synthesis leaves two zeros there; analysis puts the factor of k = B there, which is real and
// which the packed line has in the second number of pair 0.
pub fn close_row(direction: u32, size: usize, row: &mut [u32])
    requires { (1 < size) × (length row.old ≡ size + 2) }
    ensures { row.new ≡ closed direction size row.old }
{
    if direction == 0 {
        row[size] = 0;
        row[size + 1] = 0;
    } else {
        row[size] = row[1];
        row[size + 1] = 0;
        row[1] = 0;
    }
}
