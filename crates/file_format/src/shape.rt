// The shape of a factor file: whether its count is that of its bytes, its version known, and whether header, lists and records fill it
// exactly; there may be no records.
// Nothing here knows what a job makes of the header and the records.
ghost use Rattle.std.specs.Prelude.{◌≡◌};
ghost use Rattle.refusals.specs.Refusals.{first};
ghost use Rattle.refusals.specs.Checks.{checked_number};
ghost use Rattle.file_format.specs.Format.{miscounted, is_version, filling_tests, shape_tests};
ghost use Rattle.file_format.specs.Places.{PlacesOf};
ghost use Rattle.file_format.specs.Parsed.{Bytes, ParsesBack};
ghost use Rattle.file_format.specs.Orders.{ShapeRefusals};

use crate::places::Places;
use refusals::Refusal;

// Whether the first four bytes do not count the bytes that follow, or no version follows.
fn is_miscounted(file: &[u8]) -> bool
    ensures { result ≡ miscounted file.now }
{
    let length = file.len();
    if length < 5 {
        return true;
    }
    crate::integers::four_bytes(file, 0) as usize != length - 4
}

fn is_version(version: u8) -> bool
    ensures { result ≡ is_version version }
{
    version == 1 || version == 2
}

// The test behind the version: 15 where header, lists and records do not fill the file.
fn check_filling(file: &[u8], places: Places) -> Result<(), Refusal>
    requires { PlacesOf file.now places }
    ensures { checked_number result ≡ first (filling_tests file.now) }
{
    let at = crate::places::first_record(places);
    if file.len() < at {
        return Err(Refusal::FileShape);
    }
    let records = crate::integers::four_bytes(file, places.count) as usize;
    if at + 14 * records != file.len() {
        return Err(Refusal::FileShape);
    }
    Ok(())
}

// 15 for the count, 16 for the version, then the rest.
pub fn check_shape(file: &[u8], places: Places) -> Result<(), Refusal>
    requires { PlacesOf file.now places }
    ensures { checked_number result ≡ first (shape_tests file.now) }
{
    if is_miscounted(file) {
        return Err(Refusal::FileShape);
    }
    if !is_version(file[crate::places::VERSION]) {
        return Err(Refusal::FileVersion);
    }
    check_filling(file, places)
}

// The numbers of every file that is lent are bytes, which the statements on files ask for. Of what a lent slice holds a function is told where it
// calls another; the call has no other purpose.
pub fn are_bytes(file: &[u8])
    ensures { Bytes file.now }
{
    crate::integers::wide(0);
}

// The file of a header and records, or of no records, has a sound shape, and they are what is read in it; and every file of sound shape is that of
// its header and its records.
pub fn parses_back()
    ensures { ParsesBack }
{}

// The refusals of a file's shape stand in the papers' order.
pub fn refusal_order()
    ensures { ShapeRefusals }
{}
