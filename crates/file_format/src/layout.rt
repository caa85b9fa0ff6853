// The layout of a factor file: a record as bytes, and how long a file is. The header's length depends on the modulus and the factor lists alone,
// and each record has as many bytes as any other. A job holds its lists as octal digits, the first factor lowest.
ghost use Rattle.std.specs.Prelude.{◌≡◌, List, ℕ, ◌+◌, ◌*◌, ◌≤◌, ◌<◌, length};
ghost use Rattle.lengths.specs.Lengths.{octal_digits};
ghost use Rattle.output.specs.Written.{Wrote, Ends};
ghost use Rattle.file_format.specs.Format.{version_of, modulus_bytes, header_bytes, raw_bytes, file_of};
ghost use Rattle.file_format.specs.Layout.{header_with};

use crate::FileRecord;
use output::big_endian;

// How many octal digits a number has.
pub fn digit_count(factors: u32) -> usize
    ensures { result ≡ length (octal_digits factors) }
{
    let mut count: usize = 0;
    // A `while`: the number itself says when its digits end.
    let mut rest = factors;
    while rest != 0 {
        count += 1;
        rest /= 8;
    }
    count
}

// A record, whatever its value: three numbers of two bytes, and two of four.
pub fn put_record(c: FileRecord, out: &mut [u8], at: usize) -> usize
    requires { (c.h < 65536) × (c.k < 65536) × (c.l < 65536) × Ends at (raw_bytes c) }
    ensures { Wrote at (raw_bytes c) out.old result out.new }
{
    let k = big_endian::put_two(out, at, c.h);
    let l = big_endian::put_two(out, k, c.k);
    let a = big_endian::put_two(out, l, c.l);
    let b = big_endian::put_four(out, a, c.a);
    big_endian::put_four(out, b, c.b)
}

// How many bytes of the header are in no list: the second modulus has one of its own.
fn fixed_length(modulus: u32) -> usize
    ensures { (result ≡ 11 + length (modulus_bytes (version_of modulus) modulus)) × (result ≤ 12) }
{
    if modulus == 1 {
        return 11;
    }
    12
}

// How long the header is.
fn header_length(modulus: u32, f1: u32, f2: u32, f3: u32) -> usize
    ensures { ((group n1 n2 n3 : ℕ) →
        result ≡ length (header_bytes (version_of modulus) modulus (header_with group n1 n2 n3 f1 f2 f3)))
        × (result ≤ 45) }
{
    fixed_length(modulus) + digit_count(f1) + digit_count(f2) + digit_count(f3)
}

// How long a file of count records is: two counts of four bytes, the header, and 14 bytes for each record.
pub fn file_length(modulus: u32, f1: u32, f2: u32, f3: u32, count: usize) -> usize
    requires { count ≤ 4294967296 }
    ensures { ((group n1 n2 n3 : ℕ) (cs : List FileRecord) →
        count ≡ length cs →
        result ≡ length (file_of (version_of modulus) modulus (header_with group n1 n2 n3 f1 f2 f3) cs))
        × (result ≤ 53 + 14 * count) }
{
    header_length(modulus, f1, f2, f3) + 8 + 14 * count
}
