// A number divided by 2^32 modulo the prime: a multiple of the prime that makes it whole is added (Montgomery). Two
// products of 32 bits and no comparison, so that the compiler works on several numbers at a time.
ghost use Rattle.std.specs.Prelude.{◌≡◌, ◌+◌, ◌*◌, ◌<◌, ◌≤◌};
ghost use Rattle.numbers.specs.Value.{prime, IsModulus};
ghost use Rattle.batches.specs.Reduction.{Divided, minus_inverse};

pub fn divided(m: u32, x: u64) -> u32
    requires { IsModulus m × (x < prime m * 4294967296) }
    ensures { Divided m x result }
{
    let k = x % 4294967296 * inverse(m) % 4294967296;
    ((x + k * (numbers::modulus(m) as u64)) / 4294967296) as u32
}

#[tactic(auto, unfolding(crate::specs::Reduction::minus_inverse))]
fn inverse(m: u32) -> u64
    requires { IsModulus m }
    ensures { (result ≡ minus_inverse m) × (result < 4294967296) }
{
    if m == 1 { 743674241 } else { 2496671041 }
}

// c a + d b over 2^32.
pub fn weighed(m: u32, c: u32, a: u32, d: u32, b: u32) -> u32
    requires { IsModulus m × (c ≤ prime m) × (d ≤ prime m) × (a ≤ 2147483647) × (b ≤ 2147483647) }
    ensures { Divided m (c * a + d * b) result }
{
    divided(m, (c as u64) * (a as u64) + (d as u64) * (b as u64))
}

// c a over 2^32.
pub fn scaled(m: u32, c: u32, a: u32) -> u32
    requires { IsModulus m × (c ≤ prime m) × (a ≤ 2147483647) }
    ensures { Divided m (c * a) result }
{
    divided(m, (c as u64) * (a as u64))
}
