// The quotient by the prime that m chooses, by multiplications alone: x over p is the part from 2^78 on of x times 2^78/p, rounded up, for every x
// below 2^60. There is no division by a variable, and no jump that tells the primes apart.
ghost use Rattle.std.specs.Prelude.{◌≡◌, ◌*◌, ◌/◌, ◌<◌, ◌≤◌};
ghost use Rattle.numbers.specs.Value.{prime, IsModulus};
ghost use Rattle.numbers.specs.Division.{scale};

pub fn quotient(m: u32, x: u64) -> u64
    requires { IsModulus m × (x < 1152921504606846976) }
    ensures { result ≡ x / prime m }
{
    high(x, scale_of(m)) / 16384
}

// 2^78/p, rounded up. Where it is computed from m, and not chosen among two constants, the compiler sees that the four products of `high` are those
// of the halves of two numbers.
fn scale_of(m: u32) -> u64
    requires { IsModulus m }
    ensures { (result ≡ scale m) × (result < 18446744073709551616) }
{
    let second = 2 - m;
    999445946923294369 + 2498643786796509028 * (second as u64)
}

// The part from 2^64 on of a product, from the halves of both numbers. The compiler makes one instruction of this.
fn high(x: u64, y: u64) -> u64
    ensures { result ≡ x * y / 18446744073709551616 }
{
    let a = x % 4294967296;
    let b = x / 4294967296;
    let c = y % 4294967296;
    let d = y / 4294967296;
    let middle = of_halves(b, c) + of_halves(a, c) / 4294967296;
    let carried = of_halves(a, d) + middle % 4294967296;
    of_halves(b, d) + middle / 4294967296 + carried / 4294967296
}

fn of_halves(a: u64, b: u64) -> u64
    requires { (a ≤ 4294967295) × (b ≤ 4294967295) }
    ensures { (result ≡ a * b) × (result ≤ 18446744065119617025) }
{
    a * b
}
