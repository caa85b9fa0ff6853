// The records at fault of a factor file: of a file that is refused at a record, the places of the fewest records that
// alone are refused so.
//
// A record that its own numbers refuse is at fault alone. One whose orbit has come before is at fault with the first
// record of the orbit. No volume is lent, so the orbits that have come before are kept as a set of bits of 256 KB,
// which covers a range of orbit places; the file is walked once for each range that its volume has, at most eight
// times, and each walk ends at the least place that was refused so far.
#![tactic(auto)]

ghost use Rattle.std.specs.Prelude.{◌≡◌, true, false, List, ℕ, ◌+◌, ◌<◌, ◌≤◌, length, replicate};
ghost use Rattle.refusals.specs.Refusals.{first};
ghost use Rattle.refusals.specs.Checks.{checked_number};
ghost use Rattle.cell.specs.Volume.{volume_length};
ghost use Rattle.cell.specs.Operations.{cell_group, cell_halves, cell_lengths, triple_of, Sizes};
ghost use Rattle.numbers.specs.Value.{IsModulus};
ghost use Rattle.job.specs.Job.{within};
ghost use Rattle.file_format.specs.Format.{shape_tests, record_at, record_count, records_in, modulus_in, header_in};
ghost use Rattle.file_format.specs.Places.{PlacesOf};
ghost use Rattle.factor_file.specs.File.{index_in};
ghost use Rattle.faults.specs.Faults.{header_tests, record_faults, faults_in, said_faults};
ghost use Rattle.faults.specs.Fewest.{FewestExactly};
ghost use Rattle.faults.specs.FewestOpened.{FewestAreOpened};
ghost use Rattle.faults.specs.Others.{OthersGiveNone};
ghost use Rattle.faults.specs.FaultSteps.{Records, own_number, place_of, WithinTo, FirstUnsound};
ghost use Rattle.faults.specs.FaultSteps.{Apart, Stops, FirstOf, range, Noted};

use cell::operations::{Index, UnitCell};
use file_format::places::Places;
use file_format::{integers, reader};
use numbers::Pair;
use refusals::Refusal;

// No record at fault, one, or two: the places, from 0, rise.
#[derive(Clone, Copy)]
pub enum Faults {
    NoFault,
    One(u32),
    Two(u32, u32),
}

// The places that one set of bits covers: 64 for each of its words.
const WORDS: usize = 32768;

const RANGE: usize = 2097152;

// By the file alone. A file that its shape or its header refuses has no record at fault.
pub fn file_faults(file: &[u8]) -> Faults
    ensures { said_faults result ≡ faults_in file.now }
{
    let places = file_format::places::places_of(file);
    match file_format::shape::check_shape(file, places) {
        Ok(()) => sound_faults(file, places),
        Err(_) => Faults::NoFault,
    }
}

// The records at fault are the fewest that are refused so, and no others are as few. The function does nothing; its
// promise is the statement.
pub fn fewest_exactly()
    ensures { FewestExactly }
{}

// The same of the opening of a file of the chosen records under the same header.
pub fn fewest_are_opened()
    ensures { FewestAreOpened }
{}

// A file that its shape refuses, whose header opens no job, or that is accepted has no record at fault.
pub fn others_give_none()
    ensures { OthersGiveNone }
{}

// The header, then the records, of a file of sound shape.
fn sound_faults(file: &[u8], places: Places) -> Faults
    requires { PlacesOf file.now places × (0 ≡ first (shape_tests file.now)) }
    ensures { said_faults result ≡ faults_in file.now }
{
    if check_header(file, places).is_err() {
        return Faults::NoFault;
    }
    let start = file_format::places::first_record(places);
    let header = file_format::places::header_numbers(file);
    let count = integers::four_bytes(file, places.count);
    record_faults(file, start, header.modulus, header.cell, count)
}

// 8, 26, 3, 4, 5, 9. The lists are parts of the file.
fn check_header(file: &[u8], places: Places) -> Result<(), Refusal>
    requires { PlacesOf file.now places × (0 ≡ first (shape_tests file.now)) }
    ensures { checked_number result
        ≡ first (header_tests (modulus_in file.now) (header_in file.now)) }
{
    let header = file_format::places::header_numbers(file);
    let cell = header.cell;
    if 5 <= cell.group {
        return Err(Refusal::Group);
    }
    if !numbers::is_modulus(header.modulus) {
        return Err(Refusal::Modulus);
    }
    let start1 = places.list1 + 1;
    let end1 = places.list2;
    let start2 = end1 + 1;
    let end2 = places.list3;
    let start3 = end2 + 1;
    let end3 = places.count;
    header::bytes::check_header(
        cell,
        &file[start1..end1],
        &file[start2..end2],
        &file[start3..end3],
    )
}

// The first record that its own numbers refuse bounds the walks over the orbits.
fn record_faults(file: &[u8], start: usize, modulus: u32, cell: UnitCell, count: u32) -> Faults
    requires { IsModulus modulus
        × Records cell file.now start
        × (count ≡ record_count file.now)
        × (volume_length (cell_group cell) (cell_halves cell) ≤ 16777216) }
    ensures { said_faults result
        ≡ record_faults modulus cell.group (cell_lengths cell) (records_in file.now) }
{
    let own = first_unsound(file, start, modulus, cell, count);
    let again = first_repeated(file, start, cell, own);
    if again < own {
        return Faults::Two(first_of_orbit(file, start, cell, again), again);
    }
    if own < count {
        return Faults::One(own);
    }
    Faults::NoFault
}

// ---- the record at a place of the file

fn index_at(file: &[u8], at: usize) -> Index
    requires { at + 14 ≤ length file.now }
    ensures { triple_of result ≡ index_in (record_at file.now at) }
{
    let c = reader::standing_record(file, at);
    Index {
        h: c.h,
        k: c.k,
        l: c.l,
    }
}

// Whether its own numbers do not refuse it.
fn sound_at(file: &[u8], at: usize, modulus: u32, cell: UnitCell) -> bool
    requires { Sizes cell × IsModulus modulus × (at + 14 ≤ length file.now) }
    ensures { (result ≡ true → 0 ≡ own_number modulus cell (record_at file.now at))
        × (result ≡ false → own_number modulus cell (record_at file.now at) ≡ 0 → ⊥) }
{
    let c = reader::standing_record(file, at);
    let j = Index {
        h: c.h,
        k: c.k,
        l: c.l,
    };
    let x = Pair { re: c.a, im: c.b };
    job::check::record::check_own(modulus, cell, j, x).is_ok()
}

// The place of its orbit, where its index lies in the cell.
fn place_at(file: &[u8], at: usize, cell: UnitCell) -> usize
    requires { Sizes cell
        × (at + 14 ≤ length file.now)
        × (within (cell_lengths cell) (index_in (record_at file.now at)) ≡ true) }
    ensures { (result ≡ place_of cell (record_at file.now at))
        × (result < volume_length (cell_group cell) (cell_halves cell)) }
{
    let j = index_at(file, at);
    volume::orbit_place::orbit_place(cell, j)
}

// ---- the walks

// The first record that its own numbers refuse, or the count.
fn first_unsound(file: &[u8], start: usize, modulus: u32, cell: UnitCell, count: u32) -> u32
    requires { IsModulus modulus × Records cell file.now start × (count ≡ record_count file.now) }
    ensures { FirstUnsound modulus cell file.now result }
{
    for i in 0..count {
        if !sound_at(file, start + 14 * i as usize, modulus, cell) {
            return i;
        }
    }
    count
}

// The first record below a limit whose orbit has come before, or the limit.
fn first_repeated(file: &[u8], start: usize, cell: UnitCell, limit: u32) -> u32
    requires { Records cell file.now start
        × WithinTo cell file.now limit
        × (volume_length (cell_group cell) (cell_halves cell) ≤ 16777216) }
    ensures { Apart cell file.now 0 (volume_length (cell_group cell) (cell_halves cell)) result
        × Stops cell file.now limit result }
{
    let places = header::bytes::volume_length(cell) as usize;
    let mut least = limit;
    for low in (0..places).step_by(RANGE) {
        least = repeated_in_range(file, start, cell, least, low);
    }
    least
}

// The same for the orbits whose places lie in the range from low on.
fn repeated_in_range(file: &[u8], start: usize, cell: UnitCell, limit: u32, low: usize) -> u32
    requires { Records cell file.now start × WithinTo cell file.now limit × (low < 16777216) }
    ensures { Apart cell file.now low (low + range) result
        × Stops cell file.now limit result }
{
    let mut marks = [0u64; WORDS];
    walk_range(file, start, cell, limit, low, &mut marks)
}

// The walk, on marks of which none is set.
fn walk_range(
    file: &[u8],
    start: usize,
    cell: UnitCell,
    limit: u32,
    low: usize,
    marks: &mut [u64],
) -> u32
    requires { Records cell file.now start
        × WithinTo cell file.now limit
        × (low < 16777216)
        × (marks.old ≡ replicate 32768 0) }
    ensures { Apart cell file.now low (low + range) result
        × Stops cell file.now limit result }
{
    for i in 0..limit {
        let place = place_at(file, start + 14 * i as usize, cell);
        if note(marks, low, place) {
            return i;
        }
    }
    limit
}

// Whether a place in the range from low on was marked; afterwards it is.
fn note(marks: &mut [u64], low: usize, place: usize) -> bool
    requires { length marks.old ≡ 32768 }
    ensures { Noted low place marks.old result marks.new }
{
    if place < low {
        return false;
    }
    let q = place - low;
    if RANGE <= q {
        return false;
    }
    bits::insert(marks, q)
}

// The first record of the orbit of another, which may be that one itself.
fn first_of_orbit(file: &[u8], start: usize, cell: UnitCell, last: u32) -> u32
    requires { Records cell file.now start × WithinTo cell file.now (last + 1) }
    ensures { FirstOf cell file.now last result }
{
    let place = place_at(file, start + 14 * last as usize, cell);
    for i in 0..last {
        if place_at(file, start + 14 * i as usize, cell) == place {
            return i;
        }
    }
    last
}
