// The header of a file, read by itself: no volume is lent and no record looked at, so that a caller learns from it how long a volume to lend.
ghost use Rattle.std.specs.Prelude.{◌≡◌, true, ◌≤◌};
ghost use Rattle.lengths.specs.Lengths.{product, octal, factors_ok};
ghost use Rattle.refusals.specs.Refusals.{first};
ghost use Rattle.refusals.specs.Checks.{checked_number};
ghost use Rattle.cell.specs.Operations.{Sizes};
ghost use Rattle.file_format.specs.Places.{PlacesOf};
ghost use Rattle.job.specs.Job.{cell_header, axis_tests};
ghost use Rattle.factor_file.specs.File.{shape_tests};
ghost use Rattle.factor_file.specs.HeaderRead.{opening_tests, header_named, judged_header, header_step};
ghost use Rattle.factor_file.specs.HeaderRead.{HeaderAsOpened};
ghost use Rattle.factor_file.specs.Answers.{said_header};

use cell::operations::UnitCell;
use file_format::places::Places;
use header::bytes;
use job::Axis;
use refusals::Refusal;

// What a header names: group, modulus, the three axes, how many records follow, and how many numbers the volume has.
#[derive(Clone, Copy)]
pub struct FileHeader {
    pub group: u32,
    pub modulus: u32,
    pub a: Axis,
    pub b: Axis,
    pub c: Axis,
    pub records: u32,
    pub numbers: u32,
}

// Shape, header.
pub fn file_header(file: &[u8]) -> Result<FileHeader, Refusal>
    ensures { said_header result ≡ header_step file.now }
{
    let places = file_format::places::places_of(file);
    file_format::shape::check_shape(file, places)?;
    sound_header(file, places)
}

// The header of a file of sound shape. The lists are parts of the file.
fn sound_header(file: &[u8], places: Places) -> Result<FileHeader, Refusal>
    requires { PlacesOf file.now places × (0 ≡ first (shape_tests file.now)) }
    ensures { said_header result ≡ header_step file.now }
{
    let header = file_format::places::header_numbers(file);
    let records = file_format::integers::four_bytes(file, places.count);
    let start1 = places.list1 + 1;
    let end1 = places.list2;
    let start2 = end1 + 1;
    let end2 = places.list3;
    let start3 = end2 + 1;
    let end3 = places.count;
    judged_header(
        header.modulus,
        header.cell,
        &file[start1..end1],
        &file[start2..end2],
        &file[start3..end3],
        records,
    )
}

fn judged_header(
    modulus: u32,
    cell: UnitCell,
    f1: &[u8],
    f2: &[u8],
    f3: &[u8],
    records: u32,
) -> Result<FileHeader, Refusal>
    ensures { said_header result
        ≡ judged_header modulus (cell_header cell f1.now f2.now f3.now) records }
{
    check_opening(modulus, cell, f1, f2, f3)?;
    Ok(named(modulus, cell, f1, f2, f3, records))
}

// 8, 26, then 3, 4, 5, 9.
fn check_opening(
    modulus: u32,
    cell: UnitCell,
    f1: &[u8],
    f2: &[u8],
    f3: &[u8],
) -> Result<(), Refusal>
    ensures { checked_number result
        ≡ first (opening_tests modulus (cell_header cell f1.now f2.now f3.now)) }
{
    if 5 <= cell.group {
        return Err(Refusal::Group);
    }
    if !numbers::is_modulus(modulus) {
        return Err(Refusal::Modulus);
    }
    bytes::check_header(cell, f1, f2, f3)
}

fn named(modulus: u32, cell: UnitCell, f1: &[u8], f2: &[u8], f3: &[u8], records: u32) -> FileHeader
    requires { Sizes cell × (0 ≡ first (axis_tests (cell_header cell f1.now f2.now f3.now))) }
    ensures { result
        ≡ header_named modulus (cell_header cell f1.now f2.now f3.now) records }
{
    let numbers = bytes::volume_length(cell) as u32;
    FileHeader {
        group: cell.group,
        modulus,
        a: axis(cell.n1, f1),
        b: axis(cell.n2, f2),
        c: axis(cell.n3, f3),
        records,
        numbers,
    }
}

// An axis: the list goes on as octal digits.
fn axis(length: u32, factors: &[u8]) -> Axis
    requires { (factors_ok factors.now ≡ true) × (product factors.now ≤ 1440) }
    ensures { result ≡ record { length = length; factors = octal factors.now } }
{
    Axis {
        length,
        factors: lengths::packed(factors),
    }
}

// A header is refused as opening its file is, and what it names is what an opening goes by. The function does nothing; its promise is the
// statement.
pub fn header_as_opened()
    ensures { HeaderAsOpened }
{}
