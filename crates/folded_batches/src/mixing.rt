// Two values of each of sixteen lanes, multiplied by coefficients and added: what every pass of a fold does to a place
// that is not at an end.
//
// A coefficient acts on the parts of a value, so that it can be a complex number, one times a conjugate, or any real
// combination of the parts. Coefficients are held times 2^32, and each part of the result is divided by it once. The
// result is a block of its own, which the pass copies to its place: a local array, so that the compiler knows that
// nothing is read from where it is written; and a loop of sixteen turns, which it does several at a time.
ghost use Rattle.std.specs.Prelude.{◌≡◌, get_or, length, ◌+◌, ◌*◌, ◌<◌, ◌≤◌};
ghost use Rattle.numbers.specs.Value.{prime, IsModulus};
ghost use Rattle.batches.specs.Reduction.{Divided};
ghost use Rattle.batches.specs.Lanes.{lane_at, put_lane, UpTo};
ghost use Rattle.batches.specs.Copying.{PutBlock};
ghost use Rattle.folded_batches.specs.Mixing.{HeldMix, Mixed, MixedAlone};

// The real part of the result is a1 x.re + a2 x.im + b1 y.re + b2 y.im, its imaginary part a3 x.re + a4 x.im + b3 y.re
// + b4 y.im.
#[derive(Clone, Copy)]
pub struct Mix {
    pub a1: u32,
    pub a2: u32,
    pub a3: u32,
    pub a4: u32,
    pub b1: u32,
    pub b2: u32,
    pub b3: u32,
    pub b4: u32,
}

// Of the places i and j of `from`, in every lane.
pub fn mixed(m: u32, k: Mix, from: &[u32], i: usize, j: usize, y: &mut [u32; 32])
    requires modulus { IsModulus m × HeldMix m k × UpTo 1073741823 from.now × (length y.old ≡ 32) }
    requires i_in_bounds { (32 * i + 32 ≤ length from.now) × (32 * j + 32 ≤ length from.now) }
    ensures { Mixed m k from.now i j 16 y.new }
{
    for v in 0..16 {
        let a = of_two(m, k.a1, k.a2, k.b1, k.b2, from, i, j, v);
        let b = of_two(m, k.a3, k.a4, k.b3, k.b4, from, i, j, v);
        store_lane(y, v, a, b);
    }
}

// Of the place i alone: a1 x.re + a2 x.im and a3 x.re + a4 x.im. A function of its own: an alternating line calls it at every place, where the
// four products of `mixed` would be twice the work.
pub fn mixed_alone(m: u32, k: Mix, from: &[u32], i: usize, y: &mut [u32; 32])
    requires modulus { IsModulus m × HeldMix m k × UpTo 1073741823 from.now × (length y.old ≡ 32) }
    requires i_in_bounds { 32 * i + 32 ≤ length from.now }
    ensures { MixedAlone m k from.now i 16 y.new }
{
    for v in 0..16 {
        let a = of_one(m, k.a1, k.a2, from, i, v);
        let b = of_one(m, k.a3, k.a4, from, i, v);
        store_lane(y, v, a, b);
    }
}

// One part of lane v of two places.
#[tactic(auto, unfolding(batches::specs::Lanes::lane_at))]
fn of_two(
    m: u32,
    c1: u32,
    c2: u32,
    c3: u32,
    c4: u32,
    from: &[u32],
    i: usize,
    j: usize,
    v: usize,
) -> u32
    requires modulus { IsModulus m × (c1 ≤ prime m) × (c2 ≤ prime m) × (c3 ≤ prime m) × (c4 ≤ prime m) }
    requires v_bound { (v < 16) × (32 * i + 32 ≤ length from.now) × (32 * j + 32 ≤ length from.now)
        × UpTo 1073741823 from.now }
    ensures { Divided m (c1 * (lane_at from.now i v).re + c2 * (lane_at from.now i v).im
        + c3 * (lane_at from.now j v).re + c4 * (lane_at from.now j v).im) result }
{
    four(
        m,
        c1,
        part(from, i, v),
        c2,
        part(from, i, v + 16),
        c3,
        part(from, j, v),
        c4,
        part(from, j, v + 16),
    )
}

// One part of lane v of one place.
#[tactic(auto, unfolding(batches::specs::Lanes::lane_at))]
fn of_one(m: u32, c1: u32, c2: u32, from: &[u32], i: usize, v: usize) -> u32
    requires modulus { IsModulus m × (c1 ≤ prime m) × (c2 ≤ prime m) }
    requires v_bound { (v < 16) × (32 * i + 32 ≤ length from.now) × UpTo 1073741823 from.now }
    ensures { Divided m (c1 * (lane_at from.now i v).re
        + c2 * (lane_at from.now i v).im) result }
{
    batches::reduction::weighed(m, c1, part(from, i, v), c2, part(from, i, v + 16))
}

// The block y becomes place j.
pub fn put_place(y: &[u32; 32], to: &mut [u32], j: usize)
    requires { 32 * j + 32 ≤ length to.old }
    ensures { PutBlock y.now 0 j to.old to.new }
{
    let place = 32 * j;
    to[place..place + 32].copy_from_slice(y);
}

// A number of place i: lane v has its numbers v and 16 + v.
pub fn part(from: &[u32], i: usize, u: usize) -> u32
    requires { (u < 32) × (32 * i + 32 ≤ length from.now) × UpTo 1073741823 from.now }
    ensures { (result ≡ get_or from.now (32 * i + u) 0) × (result ≤ 1073741823) }
{
    from[32 * i + u]
}

// The pair a + b i goes to lane v of the block.
#[tactic(auto, unfolding(batches::specs::Lanes::put_lane))]
pub fn store_lane(y: &mut [u32; 32], v: usize, a: u32, b: u32)
    requires { v < 16 }
    ensures { y.new ≡ put_lane y.old 0 v (record { re = a; im = b }) }
{
    y[v] = a;
    y[v + 16] = b;
}

// c1 x1 + c2 x2 + c3 x3 + c4 x4 over 2^32.
#[tactic(auto, using(numbers::proofs::Primes::prime_most))]
fn four(m: u32, c1: u32, x1: u32, c2: u32, x2: u32, c3: u32, x3: u32, c4: u32, x4: u32) -> u32
    requires modulus { IsModulus m × (c1 ≤ prime m) × (c2 ≤ prime m) × (c3 ≤ prime m) × (c4 ≤ prime m) }
    requires x1_bound { (x1 ≤ 1073741823) × (x2 ≤ 1073741823) × (x3 ≤ 1073741823) × (x4 ≤ 1073741823) }
    ensures { Divided m (c1 * x1 + c2 * x2 + c3 * x3 + c4 * x4) result }
{
    batches::reduction::divided(
        m,
        product(c1, x1) + product(c2, x2) + product(c3, x3) + product(c4, x4),
    )
}

fn product(c: u32, x: u32) -> u64
    requires { (c ≤ 302399) × (x ≤ 1073741823) }
    ensures { result ≡ c * x }
{
    (c as u64) * (x as u64)
}
