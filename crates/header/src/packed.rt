// The tests of a header whose lists are the octal digits of numbers, as a job has them.
ghost use Rattle.std.specs.Prelude.{◌≡◌, ◌&&◌, ◌/◌, ◌<◌, eqb};
ghost use Rattle.lengths.specs.Lengths.{product, admitted, factors_ok, octal_digits};
ghost use Rattle.refusals.specs.Refusals.{first};
ghost use Rattle.header.specs.Header.{axis_tests};
ghost use Rattle.header.specs.Cells.{cell_header};

use crate::bytes;
use cell::operations::UnitCell;

// Whether every octal digit is 2, 3, 4 or 5, and their product n. The product of any octal digits is at most their number.
fn digits_product_is(factors: u32, n: u32) -> bool
    ensures { result ≡ (factors_ok (octal_digits factors) && eqb (product (octal_digits factors)) n) }
{
    let mut ok = true;
    let mut done: u32 = 1;
    // A `while`: the number itself says when its digits end.
    let mut rest = factors;
    while rest != 0 {
        let digit = rest % 8;
        ok = ok & ((2 <= digit) & (digit <= 5));
        done = done * digit;
        rest /= 8;
    }
    ok & (done == n)
}

// The length is admitted, and the digits are a factor list of its half.
fn valid_axis(n: u32, factors: u32) -> bool
    ensures { result
        ≡ (admitted n && (factors_ok (octal_digits factors) && eqb (product (octal_digits factors)) (n / 2))) }
{
    lengths::admitted(n) & digits_product_is(factors, n / 2)
}

// No test of the header that the numbers make holds.
pub fn valid_header(cell: UnitCell, f1: u32, f2: u32, f3: u32) -> bool
    requires { cell.group < 5 }
    ensures { result
        ≡ eqb (first (axis_tests (cell_header cell (octal_digits f1) (octal_digits f2) (octal_digits f3)))) 0 }
{
    if valid_axis(cell.n1, f1) & (valid_axis(cell.n2, f2) & valid_axis(cell.n3, f3)) {
        bytes::volume_length(cell) <= 16777216
    } else {
        false
    }
}
