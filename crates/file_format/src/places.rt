// Where the parts of a factor file stand: the numbers of its header, its lists, its record count and its first record.
ghost use Rattle.std.specs.Prelude.{◌≡◌, ◌+◌, ◌≤◌, ◌<◌};
ghost use Rattle.file_format.specs.Format.{modulus_in, lengths_at, after_list};
ghost use Rattle.file_format.specs.Places.{PlacesOf, NumbersOf};

use cell::operations::UnitCell;

// Where the header's numbers stand: the version, the group, in version 2 the modulus, and the three lengths of two bytes each. The first
// list begins behind them.
pub const VERSION: usize = 4;

const GROUP: usize = 5;

const MODULUS: usize = 6;

// The numbers of a header: the modulus and the unit cell.
#[derive(Clone, Copy)]
pub struct HeaderNumbers {
    pub modulus: u32,
    pub cell: UnitCell,
}

// They are read whether the file has their bytes or not: a byte beyond it is read as 0.
pub fn header_numbers(file: &[u8]) -> HeaderNumbers
    ensures { NumbersOf file.now result }
{
    let at = lengths_at(file);
    HeaderNumbers {
        modulus: modulus_in(file),
        cell: UnitCell {
            group: crate::integers::byte_at(file, GROUP),
            n1: crate::integers::two_at(file, at),
            n2: crate::integers::two_at(file, at + 2),
            n3: crate::integers::two_at(file, at + 4),
        },
    }
}

// The modulus: a file of version 2 has a byte for it.
fn modulus_in(file: &[u8]) -> u32
    ensures { result ≡ modulus_in file.now }
{
    if crate::integers::byte_at(file, VERSION) == 2 {
        return crate::integers::byte_at(file, MODULUS);
    }
    1
}

// Where the lengths begin, behind the group or behind the modulus.
fn lengths_at(file: &[u8]) -> usize
    ensures { (result ≡ lengths_at file.now) × (result ≤ 7) }
{
    if crate::integers::byte_at(file, VERSION) == 2 {
        return 7;
    }
    6
}

// Where the three lists begin, with their count bytes, and where the record count stands.
#[derive(Clone, Copy)]
pub struct Places {
    pub list1: usize,
    pub list2: usize,
    pub list3: usize,
    pub count: usize,
}

// The place after the list whose count byte stands at q.
fn after_list(file: &[u8], q: usize) -> usize
    requires { q < 1024 }
    ensures { (result ≡ after_list file.now q) × (result ≤ q + 256) }
{
    q + 1 + crate::integers::byte_at(file, q) as usize
}

pub fn places_of(file: &[u8]) -> Places
    ensures { PlacesOf file.now result }
{
    let list1 = lengths_at(file) + 6;
    let list2 = after_list(file, list1);
    let list3 = after_list(file, list2);
    let count = after_list(file, list3);
    Places {
        list1,
        list2,
        list3,
        count,
    }
}

// The first record stands behind the record count's four bytes.
pub fn first_record(places: Places) -> usize
    requires { places.count < 1024 }
    ensures { result ≡ places.count + 4 }
{
    places.count + 4
}
