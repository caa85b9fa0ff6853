// The reader of a factor file: it walks the lent file and hands out one record after another.
//
// The reader holds the file and the place of its next record. A walk begins at the first record, `new`, and goes on step by step: the record at the reader's
// place, `next`, then the reader one record on, `after`. `read_record` is one step, for callers that hold the file themselves; `hands_out_records` says what
// all steps together hand out. The functions over the reader only take it apart and put it together: the work is done by `record_at` and `place_after`, on
// the file and a place.
ghost use Rattle.std.specs.Prelude.{◌≡◌, ◌+◌, ◌≤◌, length};
ghost use Rattle.file_format.specs.Format.{record_at};
ghost use Rattle.file_format.specs.Walk.{record_stands, found_at, place_after, WalkHandsOutRecords};

use crate::FileRecord;

#[derive(Clone, Copy)]
pub struct RecordReader<'a> {
    pub file: &'a [u8],
    pub at: usize,
}

// A step of a walk: the record that the reader found at its place, if fourteen bytes are left, and the place one record on.
#[derive(Clone, Copy)]
pub struct Step {
    pub found: Option<FileRecord>,
    pub after: usize,
}

// A reader whose next record begins at a place.
pub fn new<'a>(file: &'a [u8], at: usize) -> RecordReader<'a>
    ensures { (result.file ≡ file.entry) × (result.at ≡ at) }
{
    RecordReader { file, at }
}

// The record at the reader's place, or the end.
pub fn next<'a>(r: RecordReader<'a>) -> Option<FileRecord>
    ensures { result ≡ found_at r.entry.file.now r.entry.at }
{
    record_at(r.file, r.at)
}

// The reader one record on.
pub fn after<'a>(r: RecordReader<'a>) -> RecordReader<'a>
    ensures { (result.file ≡ r.entry.file)
        × (result.at ≡ place_after r.entry.file.now r.entry.at) }
{
    RecordReader {
        file: r.file,
        at: place_after(r.file, r.at),
    }
}

// One step of a walk from a place.
pub fn read_record(file: &[u8], at: usize) -> Step
    ensures { (result.found ≡ found_at file.now at)
        × (result.after ≡ place_after file.now at) }
{
    let r = new(file, at);
    Step {
        found: next(r),
        after: after(r).at,
    }
}

// Where records fill the file from a place on, a walk hands out each of them, in their order, and then the end. The function does nothing; its promise is
// the statement of specs/Walk.antt, so that it cannot vanish unnoticed.
pub fn hands_out_records()
    ensures { WalkHandsOutRecords }
{}

// Whether the fourteen bytes of a record are there.
fn record_stands(file: &[u8], at: usize) -> bool
    ensures { result ≡ record_stands file.now at }
{
    14 <= file.len() && at <= file.len() - 14
}

// The record whose fourteen bytes begin at a place.
pub fn record_at(file: &[u8], at: usize) -> Option<FileRecord>
    ensures { result ≡ found_at file.now at }
{
    if !record_stands(file, at) {
        return None;
    }
    Some(standing_record(file, at))
}

// The same where the fourteen bytes are known to be there.
pub fn standing_record(file: &[u8], at: usize) -> FileRecord
    requires { at + 14 ≤ length file.now }
    ensures { result ≡ record_at file.now at }
{
    FileRecord {
        h: crate::integers::two_bytes(file, at),
        k: crate::integers::two_bytes(file, at + 2),
        l: crate::integers::two_bytes(file, at + 4),
        a: crate::integers::four_bytes(file, at + 6),
        b: crate::integers::four_bytes(file, at + 10),
    }
}

// The place one record on. Where no record stands it is the same place: a walk that has come to the end stays there.
pub fn place_after(file: &[u8], at: usize) -> usize
    ensures { result ≡ place_after file.now at }
{
    if record_stands(file, at) { at + 14 } else { at }
}
