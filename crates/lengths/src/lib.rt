// The lengths of a line: which are admitted, their factor lists, and how many pairs a packed line of each kind has.
//
// A factor list is a slice of bytes. An accepted one goes on as a number whose octal digits are the factors, the first lowest.
#![tactic(auto)]

pub mod stage; // stage.rt

ghost use Rattle.std.specs.Prelude.{◌≡◌, true, ◌<◌, ◌≤◌, eqb};
ghost use Rattle.lengths.specs.Lengths.{product, octal, admitted, factors_ok, pair_count};
ghost use Rattle.lengths.specs.Admitted.{is_factor};

// An even divisor of 2,880.
pub fn admitted(length: u32) -> bool
    ensures { result ≡ admitted length }
{
    if length == 0 {
        return false;
    }
    (length % 2 == 0) & (2880 % length == 0)
}

fn is_factor(x: u8) -> bool
    ensures { result ≡ is_factor x }
{
    (2 <= x) & (x <= 5)
}

// Every number is 2, 3, 4 or 5.
pub fn factors_ok(factors: &[u8]) -> bool
    ensures { result ≡ factors_ok factors.now }
{
    for factor in factors {
        if !is_factor(*factor) {
            return false;
        }
    }
    true
}

// Whether a factor list of any length has the product n: a partial product above n settles it.
pub fn has_product(factors: &[u8], n: u32) -> bool
    requires factors_value { factors_ok factors.now ≡ true }
    requires n_bound { n ≤ 1440 }
    ensures { result ≡ eqb (product factors.now) n }
{
    let mut done: u32 = 1;
    for factor in factors {
        done *= u32::from(*factor);
        if n < done {
            return false;
        }
    }
    done == n
}

// The octal digits of an accepted list.
pub fn packed(factors: &[u8]) -> u32
    requires factors_value { factors_ok factors.now ≡ true }
    requires factors_bound { product factors.now ≤ 1440 }
    ensures { result ≡ octal factors.now }
{
    let mut number: u32 = 0;
    for i in (0..factors.len()).rev() {
        number = u32::from(factors[i]) + 8 * number;
    }
    number
}

// How many pairs a packed line has.
pub fn pair_count(kind: u32, length: u32) -> usize
    requires { (kind < 6) × (2 ≤ length) × (length ≤ 2880) }
    ensures { (result ≡ pair_count kind length) × (result ≤ 2880) }
{
    let half = (length / 2) as usize;
    match kind {
        0 => 2 * half,
        1 | 2 | 3 => half,
        4 => half + 1,
        _ => half - 1,
    }
}
