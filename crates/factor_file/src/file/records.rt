// The records of a volume of packed factors, counted and written: one for each orbit whose factor is not zero, at its lowest
// place, by rising h, k, l. One loop does both. It goes over the places up to h = N1/2: beyond, the Friedel mate comes before.
ghost use Rattle.std.specs.Prelude.{◌≡◌, ◌<◌, length};
ghost use Rattle.cell.specs.Operations.{triple_of, Sizes, Within};
ghost use Rattle.output.specs.Written.{Wrote, Ends};
ghost use Rattle.file_format.specs.Format.{all_bytes};
ghost use Rattle.factor_file.specs.Steps.{IsFactors, pair_bytes, Next, place_records, records_with};

use cell::operations::{Index, UnitCell};
use file_format::FileRecord;
use numbers::Pair;

// ---- one place

// A record: an index and the two numbers of its value.
fn put_record(j: Index, x: Pair, out: &mut [u8], at: usize) -> usize
    requires { (j.h < 65536) × (j.k < 65536) × (j.l < 65536) × Ends at (pair_bytes (triple_of j) x) }
    ensures { Wrote at (pair_bytes (triple_of j) x) out.old result out.new }
{
    let c = FileRecord {
        h: j.h,
        k: j.k,
        l: j.l,
        a: x.re,
        b: x.im,
    };
    file_format::layout::put_record(c, out, at)
}

// The record of the place j, where it has one.
fn put_place(
    modulus: u32,
    cell: UnitCell,
    j: Index,
    volume: &[u32],
    out: &mut [u8],
    at: usize,
) -> usize
    requires factors { IsFactors modulus cell volume.now × Within cell j }
    requires ends { Ends at (all_bytes (place_records cell modulus volume.now (triple_of j))) }
    ensures { Wrote at (all_bytes (place_records cell modulus volume.now (triple_of j)))
        out.old result out.new }
{
    if crate::orbits::lowest(cell, j) {
        let x = volume::read::walked_factor(modulus, cell, j, volume);
        if volume::stored::is_zero(x) {
            at
        } else {
            put_record(j, x, out, at)
        }
    } else {
        at
    }
}

// ---- all places

// The place after j.
fn next_place(cell: UnitCell, j: Index) -> Index
    requires { Sizes cell × Within cell j }
    ensures { Next cell j result }
{
    if j.l + 1 < cell.n3 {
        Index {
            h: j.h,
            k: j.k,
            l: j.l + 1,
        }
    } else if j.k + 1 < cell.n2 {
        Index {
            h: j.h,
            k: j.k + 1,
            l: 0,
        }
    } else {
        Index {
            h: j.h + 1,
            k: 0,
            l: 0,
        }
    }
}

pub fn put_records(
    modulus: u32,
    cell: UnitCell,
    volume: &[u32],
    out: &mut [u8],
    start: usize,
) -> usize
    requires factors { IsFactors modulus cell volume.now }
    requires ends { Ends start (all_bytes (records_with cell modulus volume.now)) }
    ensures { Wrote start (all_bytes (records_with cell modulus volume.now)) out.old result
        out.new }
{
    let mut at = start;
    let mut j = Index { h: 0, k: 0, l: 0 };
    // One `while` from place to place, and not three nested loops: what is left to write is told once, by `next_place`.
    while j.h <= cell.n1 / 2 {
        at = put_place(modulus, cell, j, volume, out, at);
        j = next_place(cell, j);
    }
    at
}

// How many there are: an output of one byte has no room for them, and their bytes are counted all the same.
pub fn count_records(modulus: u32, cell: UnitCell, volume: &[u32]) -> usize
    requires { IsFactors modulus cell volume.now }
    ensures { result ≡ length (records_with cell modulus volume.now) }
{
    let mut small: [u8; 1] = [0];
    put_records(modulus, cell, volume, &mut small, 0) / 14
}
