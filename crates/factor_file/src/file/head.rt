// The header of a file: version, group, in version 2 the modulus, lengths and factor lists. A job holds its lists as octal digits, the first factor lowest.
ghost use Rattle.std.specs.Prelude.{◌∷◌, ◌<◌};
ghost use Rattle.lengths.specs.Lengths.{octal_digits};
ghost use Rattle.output.specs.Written.{Wrote, Ends};
ghost use Rattle.factor_file.specs.Steps.{header_for};
ghost use Rattle.file_format.specs.Format.{version_of, modulus_bytes, list_bytes, header_bytes};

use cell::operations::UnitCell;
use output::big_endian;

// The octal digits, the lowest first.
fn put_digits(factors: u32, out: &mut [u8], start: usize) -> usize
    requires { Ends start (octal_digits factors) }
    ensures { Wrote start (octal_digits factors) out.old result out.new }
{
    let mut at = start;
    // A `while`: the number itself says when its digits end.
    let mut rest = factors;
    while rest != 0 {
        at = output::put_byte(out, at, (rest % 8) as u8);
        rest /= 8;
    }
    at
}

// A factor list: a count byte, then a byte each.
fn put_list(factors: u32, out: &mut [u8], at: usize) -> usize
    requires { Ends at (list_bytes (octal_digits factors)) }
    ensures { Wrote at (list_bytes (octal_digits factors)) out.old result out.new }
{
    let first = output::put_byte(out, at, file_format::layout::digit_count(factors) as u8);
    put_digits(factors, out, first)
}

// The version, which the modulus settles, the group, and the second modulus.
fn put_numbers(modulus: u32, group: u32, out: &mut [u8], at: usize) -> usize
    requires { (modulus < 256)
        × (group < 256)
        × Ends at (version_of modulus ∷ group ∷ modulus_bytes (version_of modulus) modulus) }
    ensures { Wrote at (version_of modulus ∷ group ∷ modulus_bytes (version_of modulus) modulus)
        out.old result out.new }
{
    if modulus == 1 {
        let next = output::put_byte(out, at, 1);
        return output::put_byte(out, next, group as u8);
    }
    let next = output::put_byte(out, at, 2);
    let third = output::put_byte(out, next, group as u8);
    output::put_byte(out, third, modulus as u8)
}

pub fn put_header(
    modulus: u32,
    cell: UnitCell,
    f1: u32,
    f2: u32,
    f3: u32,
    out: &mut [u8],
    at: usize,
) -> usize
    requires modulus_bound { (modulus < 256)
        × (cell.group < 256)
        × (cell.n1 < 65536)
        × (cell.n2 < 65536)
        × (cell.n3 < 65536) }
    requires ends { Ends at (header_bytes (version_of modulus) modulus (header_for cell f1 f2 f3)) }
    ensures { Wrote at (header_bytes (version_of modulus) modulus (header_for cell f1 f2 f3))
        out.old result out.new }
{
    let first_axis = put_numbers(modulus, cell.group, out, at);
    let second_axis = big_endian::put_two(out, first_axis, cell.n1);
    let third_axis = big_endian::put_two(out, second_axis, cell.n2);
    let first_list = big_endian::put_two(out, third_axis, cell.n3);
    let second_list = put_list(f1, out, first_list);
    let third_list = put_list(f2, out, second_list);
    put_list(f3, out, third_list)
}
