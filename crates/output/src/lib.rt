// Bytes, words and numbers that go to an output. Each function starts at a place and returns the place after its text;
// a byte beyond the output is counted and not stored, so that a text is measured by the functions that write it.
#![tactic(auto)]

pub mod big_endian; // big_endian.rt: numbers in two and in four bytes
pub mod little_endian; // little_endian.rt: numbers in four bytes

ghost use Rattle.std.specs.Prelude.{[], ◌∷◌};
ghost use Rattle.output.specs.Output.{decimal, signed_decimal, blank};
ghost use Rattle.output.specs.Written.{Wrote, Ends};
ghost use Rattle.output.specs.Numerals.{DecimalsReadBack};

pub fn put_byte(out: &mut [u8], at: usize, byte: u8) -> usize
    requires { Ends at (byte ∷ []) }
    ensures { Wrote at (byte ∷ []) out.old result out.new }
{
    if at < out.len() {
        out[at] = byte;
    }
    at + 1
}

pub fn put_bytes(out: &mut [u8], at: usize, text: &[u8]) -> usize
    requires { Ends at text.now }
    ensures { Wrote at text.now out.old result out.new }
{
    let mut place = at;
    for byte in text {
        place = put_byte(out, place, *byte);
    }
    place
}

// A number in decimal: the digits before the last one, and the last.
pub fn put_number(out: &mut [u8], at: usize, n: u64) -> usize
    requires { Ends at (decimal n) }
    ensures { Wrote at (decimal n) out.old result out.new }
{
    if n < 10 {
        put_byte(out, at, 48 + n as u8)
    } else {
        let last = put_number(out, at, n / 10);
        put_byte(out, last, 48 + (n % 10) as u8)
    }
}

// The same of a number of 32 bits.
pub fn put_decimal(out: &mut [u8], at: usize, n: u32) -> usize
    requires { Ends at (decimal n) }
    ensures { Wrote at (decimal n) out.old result out.new }
{
    put_number(out, at, n as u64)
}

// A blank and a number.
pub fn put_field(out: &mut [u8], at: usize, n: u32) -> usize
    requires { Ends at (blank ∷ decimal n) }
    ensures { Wrote at (blank ∷ decimal n) out.old result out.new }
{
    put_signed_field(out, at, n as i64)
}

// A whole number in decimal: a minus before the magnitude of one below zero.
pub fn put_signed(out: &mut [u8], at: usize, n: i64) -> usize
    requires { Ends at (signed_decimal n) }
    ensures { Wrote at (signed_decimal n) out.old result out.new }
{
    let size = signed::magnitude(n);
    if n < 0 {
        let digits = put_byte(out, at, b'-');
        put_number(out, digits, size)
    } else {
        put_number(out, at, size)
    }
}

// A blank and a whole number.
pub fn put_signed_field(out: &mut [u8], at: usize, n: i64) -> usize
    requires { Ends at (blank ∷ signed_decimal n) }
    ensures { Wrote at (blank ∷ signed_decimal n) out.old result out.new }
{
    let number = put_byte(out, at, b' ');
    put_signed(out, number, n)
}

// Decimal text and its number determine each other. The function does nothing; its promise is the statement.
pub fn decimals_read_back()
    ensures { DecimalsReadBack }
{}
