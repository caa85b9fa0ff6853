// Whole numbers with a sign: the one next to zero that is congruent to a residue, the magnitude of any, division rounded down.
#![tactic(auto)]

ghost use Rattle.std.specs.Prelude.{◌≡◌, ◌<◌};
ghost use Rattle.signed.specs.Integers.{nat_abs, centred, CentredOnly, FloorDivision};

// The whole number from -p/2 to p/2, rounded towards zero, that is congruent to x modulo an odd p.
pub fn centre(p: u32, x: u32) -> i32
    requires { (x < p) × (p < 2147483648) }
    ensures { result ≡ centred p x }
{
    if x <= p / 2 {
        x as i32
    } else {
        (x as i32) - (p as i32)
    }
}

// The magnitude of any number, of the least one too.
pub fn magnitude(x: i64) -> u64
    ensures { result ≡ nat_abs x }
{
    x.unsigned_abs()
}

// What `centred` gives is congruent to the residue and within the half range, and no other whole number is both. The function does
// nothing: it is there for its promise.
pub fn centred_only()
    ensures { CentredOnly }
{}

// A whole number divided by n and rounded down: the quotient times n and the remainder, which is from 0 to n - 1, make the number.
pub fn floor_division()
    ensures { FloorDivision }
{}
