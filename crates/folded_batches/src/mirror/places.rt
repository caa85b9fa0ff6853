// Places of a batch added and subtracted, all 32 numbers alike. The result is a block of its own, as in `mixing`.
ghost use Rattle.std.specs.Prelude.{◌≡◌, get_or, length, ◌+◌, ◌*◌, ◌-◌, ◌≤◌};
ghost use Rattle.numbers.specs.Value.{prime, IsModulus};
ghost use Rattle.numbers.specs.Bounds.{zero_pair};
ghost use Rattle.batches.specs.Lanes.{UpTo};
ghost use Rattle.batches.specs.Groups.{PutLanes};
ghost use Rattle.folded_batches.specs.MirrorLanes.{Numbers, Raised};

// The places i and j added. This function and the two below share the line of their `for` alone: as one with a closure each would be its closure.
pub fn add_places(from: &[u32], i: usize, j: usize, y: &mut [u32; 32])
    requires { (32 * i + 32 ≤ length from.now) × (32 * j + 32 ≤ length from.now)
        × UpTo 1073741823 from.now × (length y.old ≡ 32) }
    ensures { Numbers (λ u. get_or from.now (32 * i + u) 0 + get_or from.now (32 * j + u) 0)
        32 y.new }
{
    for u in 0..32 {
        y[u] = crate::mixing::part(from, i, u) + crate::mixing::part(from, j, u);
    }
}

// The places i and j taken from zero: their numbers are no larger than the prime.
pub fn subtract_places(m: u32, from: &[u32], i: usize, j: usize, y: &mut [u32; 32])
    requires { IsModulus m × (32 * i + 32 ≤ length from.now) × (32 * j + 32 ≤ length from.now)
        × UpTo (prime m) from.now × (length y.old ≡ 32) }
    ensures { Numbers (λ u. 2 * prime m
        - (get_or from.now (32 * i + u) 0 + get_or from.now (32 * j + u) 0))
        32 y.new }
{
    let o = 2 * numbers::modulus(m);
    for u in 0..32 {
        y[u] = o - (from[32 * i + u] + from[32 * j + u]);
    }
}

// The place j added to a block.
pub fn add_to(from: &[u32], j: usize, y: &mut [u32; 32])
    requires { (32 * j + 32 ≤ length from.now) × UpTo 1073741823 from.now × (length y.old ≡ 32)
        × UpTo 1073741823 y.old }
    ensures { Raised (λ u. get_or from.now (32 * j + u) 0) 32 y.old y.new }
{
    for u in 0..32 {
        y[u] += crate::mixing::part(from, j, u);
    }
}

// Place j becomes zero.
pub fn clear_place(to: &mut [u32], j: usize)
    requires { 32 * j + 32 ≤ length to.old }
    ensures { PutLanes (λ v. zero_pair) j 16 to.old to.new }
{
    let place = 32 * j;
    to[place..place + 32].fill(0);
}
