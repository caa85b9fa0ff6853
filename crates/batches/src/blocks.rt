// The outer sums of equation (3) of document 001 for sixteen lanes at once: the values of one butterfly are read from
// a batch, multiplied by their factors e(b𝐚/AB), and their B sums written to a block of their own, which the step
// copies to its places. A local array, so that the compiler knows that nothing is read from where it is written; and
// a loop of sixteen turns, which it does several at a time.
//
// In the first step all factors are 1, and nothing is multiplied: FIRST says so, known when the loop is compiled.
ghost use Rattle.std.specs.Prelude.{◌≡◌, IsTrue, IsFalse, get_or, length, ◌+◌, ◌*◌, ◌<◌, ◌≤◌};
ghost use Rattle.numbers.specs.Value.{prime, IsModulus};
ghost use Rattle.roots.specs.Table.{table_root, RootTable};
ghost use Rattle.batches.specs.Reduction.{Divided, Held, ShiftedTable, factor_at};
ghost use Rattle.batches.specs.Lanes.{lane_at, put_lane, UpTo, Apart, FirstStep, Summed};

use crate::gathering::store_lane;
use crate::lane::Factor;
use butterflies::twiddle::Places;

// A number of the block for b: lane v has its numbers v and 16 + v.
fn part(at: Places, from: &[u32], b: usize, v: usize) -> u32
    requires { (b < 5) × (v < 32) × (32 * (b * at.stride + at.first) + 32 ≤ length from.now)
        × UpTo 1073741823 from.now }
    ensures { (result ≡ get_or from.now (32 * (b * at.stride + at.first) + v) 0)
        × (result ≤ 1073741823) }
{
    let k = 32 * (b * at.stride + at.first) + v;
    from[k]
}

// The real part of the value for b in lane v, times its factor.
#[tactic(auto, unfolding(crate::specs::Lanes::lane_at))]
fn turned_re<const FIRST: bool>(
    m: u32,
    w: Factor,
    at: Places,
    from: &[u32],
    b: usize,
    v: usize,
) -> u32
    requires modulus { IsModulus m × Held m w × (b < 5) × (v < 16)
        × (32 * (b * at.stride + at.first) + 32 ≤ length from.now) × UpTo 1073741823 from.now }
    requires first { IsTrue FIRST → UpTo (8 * prime m) from.now }
    ensures low { result ≤ 8 * prime m }
    ensures plain { IsTrue FIRST → result ≡ (lane_at from.now (b * at.stride + at.first) v).re }
    ensures turned { IsFalse FIRST → Divided m (w.re * (lane_at from.now (b * at.stride + at.first) v).re
        + w.minus * (lane_at from.now (b * at.stride + at.first) v).im) result }
{
    let x = part(at, from, b, v);
    if FIRST {
        x
    } else {
        crate::lane::turned_re(m, w, x, part(at, from, b, v + 16))
    }
}

// Its imaginary part: a function of its own, since a struct of both parts costs in every lane (lane.rt).
#[tactic(auto, unfolding(crate::specs::Lanes::lane_at))]
fn turned_im<const FIRST: bool>(
    m: u32,
    w: Factor,
    at: Places,
    from: &[u32],
    b: usize,
    v: usize,
) -> u32
    requires modulus { IsModulus m × Held m w × (b < 5) × (v < 16)
        × (32 * (b * at.stride + at.first) + 32 ≤ length from.now) × UpTo 1073741823 from.now }
    requires first { IsTrue FIRST → UpTo (8 * prime m) from.now }
    ensures low { result ≤ 8 * prime m }
    ensures plain { IsTrue FIRST → result ≡ (lane_at from.now (b * at.stride + at.first) v).im }
    ensures turned { IsFalse FIRST → Divided m (w.re * (lane_at from.now (b * at.stride + at.first) v).im
        + w.im * (lane_at from.now (b * at.stride + at.first) v).re) result }
{
    let y = part(at, from, b, v + 16);
    if FIRST {
        y
    } else {
        crate::lane::turned_im(m, w, part(at, from, b, v), y)
    }
}

// Radix 2.
pub fn two<'a, const FIRST: bool>(
    m: u32,
    re: &'a [u32; 2880],
    im: &'a [u32; 2880],
    sre: &'a [u32; 2880],
    sim: &'a [u32; 2880],
    at: Places,
    from: &[u32],
    y: &mut [u32; 160],
)
    requires modulus { IsModulus m
        × RootTable m re.now im.now
        × ShiftedTable m re.now im.now sre.now sim.now }
    requires apart { Apart 2 at from.now × UpTo 1073741823 from.now × (length y.old ≡ 160) }
    requires first { IsTrue FIRST → FirstStep m at from.now }
    ensures { Summed m (table_root m re.now im.now) 2 at from.now 16
        y.new }
{
    let k = at.k;
    let w1 = crate::lane::factor_at(m, sre, sim, k);
    let o = 8 * numbers::modulus(m);
    for v in 0..16 {
        let r0 = part(at, from, 0, v);
        let s0 = part(at, from, 0, v + 16);
        let r1 = turned_re::<FIRST>(m, w1, at, from, 1, v);
        let s1 = turned_im::<FIRST>(m, w1, at, from, 1, v);
        let a = crate::lane::sum(r0, r1);
        let b = crate::lane::sum(s0, s1);
        let c = crate::lane::apart(o, r0, r1);
        let d = crate::lane::apart(o, s0, s1);
        store_lane(y, 0, v, a, b);
        store_lane(y, 1, v, c, d);
    }
}

// Radix 3.
pub fn three<'a, const FIRST: bool>(
    m: u32,
    re: &'a [u32; 2880],
    im: &'a [u32; 2880],
    sre: &'a [u32; 2880],
    sim: &'a [u32; 2880],
    at: Places,
    from: &[u32],
    y: &mut [u32; 160],
)
    requires modulus { IsModulus m
        × RootTable m re.now im.now
        × ShiftedTable m re.now im.now sre.now sim.now }
    requires apart { Apart 3 at from.now × UpTo 1073741823 from.now × (length y.old ≡ 160) }
    requires first { IsTrue FIRST → FirstStep m at from.now }
    ensures { Summed m (table_root m re.now im.now) 3 at from.now 16
        y.new }
{
    let k = at.k;
    let w1 = crate::lane::factor_at(m, sre, sim, k);
    let w2 = crate::lane::factor_at(m, sre, sim, 2 * k);
    let z = crate::lane::factor_at(m, sre, sim, 960);
    let o = 8 * numbers::modulus(m);
    for v in 0..16 {
        let r0 = part(at, from, 0, v);
        let s0 = part(at, from, 0, v + 16);
        let r1 = turned_re::<FIRST>(m, w1, at, from, 1, v);
        let s1 = turned_im::<FIRST>(m, w1, at, from, 1, v);
        let r2 = turned_re::<FIRST>(m, w2, at, from, 2, v);
        let s2 = turned_im::<FIRST>(m, w2, at, from, 2, v);
        let g = crate::lane::apart(o, s2, s1);
        let h = crate::lane::apart(o, r1, r2);
        let p = crate::lane::of_three(m, z, o, r0, r1, r2, g);
        let q = crate::lane::of_three(m, z, o, s0, s1, s2, h);
        store_lane(y, 0, v, p.x0, q.x0);
        store_lane(y, 1, v, p.x1, q.x1);
        store_lane(y, 2, v, p.x2, q.x2);
    }
}

// Radix 4.
pub fn four<'a, const FIRST: bool>(
    m: u32,
    re: &'a [u32; 2880],
    im: &'a [u32; 2880],
    sre: &'a [u32; 2880],
    sim: &'a [u32; 2880],
    at: Places,
    from: &[u32],
    y: &mut [u32; 160],
)
    requires modulus { IsModulus m
        × RootTable m re.now im.now
        × ShiftedTable m re.now im.now sre.now sim.now }
    requires apart { Apart 4 at from.now × UpTo 1073741823 from.now × (length y.old ≡ 160) }
    requires first { IsTrue FIRST → FirstStep m at from.now }
    ensures { Summed m (table_root m re.now im.now) 4 at from.now 16
        y.new }
{
    let k = at.k;
    let w1 = crate::lane::factor_at(m, sre, sim, k);
    let w2 = crate::lane::factor_at(m, sre, sim, 2 * k);
    let w3 = crate::lane::factor_at(m, sre, sim, 3 * k);
    let o = 8 * numbers::modulus(m);
    let up = roots::root_at(re, im, 720).im == 1;
    for v in 0..16 {
        let r0 = part(at, from, 0, v);
        let s0 = part(at, from, 0, v + 16);
        let r1 = turned_re::<FIRST>(m, w1, at, from, 1, v);
        let s1 = turned_im::<FIRST>(m, w1, at, from, 1, v);
        let r2 = turned_re::<FIRST>(m, w2, at, from, 2, v);
        let s2 = turned_im::<FIRST>(m, w2, at, from, 2, v);
        let r3 = turned_re::<FIRST>(m, w3, at, from, 3, v);
        let s3 = turned_im::<FIRST>(m, w3, at, from, 3, v);
        let p = crate::lane::of_four(o, r0, r1, r2, r3, crate::lane::quarter(o, up, s3, s1));
        let q = crate::lane::of_four(o, s0, s1, s2, s3, crate::lane::quarter(o, up, r1, r3));
        store_lane(y, 0, v, p.x0, q.x0);
        store_lane(y, 1, v, p.x1, q.x1);
        store_lane(y, 2, v, p.x2, q.x2);
        store_lane(y, 3, v, p.x3, q.x3);
    }
}

// Radix 5.
pub fn five<'a, const FIRST: bool>(
    m: u32,
    re: &'a [u32; 2880],
    im: &'a [u32; 2880],
    sre: &'a [u32; 2880],
    sim: &'a [u32; 2880],
    at: Places,
    from: &[u32],
    y: &mut [u32; 160],
)
    requires modulus { IsModulus m
        × RootTable m re.now im.now
        × ShiftedTable m re.now im.now sre.now sim.now }
    requires apart { Apart 5 at from.now × UpTo 1073741823 from.now × (length y.old ≡ 160) }
    requires first { IsTrue FIRST → FirstStep m at from.now }
    ensures { Summed m (table_root m re.now im.now) 5 at from.now 16
        y.new }
{
    let k = at.k;
    let w1 = crate::lane::factor_at(m, sre, sim, k);
    let w2 = crate::lane::factor_at(m, sre, sim, 2 * k);
    let w3 = crate::lane::factor_at(m, sre, sim, 3 * k);
    let w4 = crate::lane::factor_at(m, sre, sim, 4 * k);
    let w = crate::lane::factor_at(m, sre, sim, 576);
    let z = crate::lane::factor_at(m, sre, sim, 1152);
    let o = 8 * numbers::modulus(m);
    for v in 0..16 {
        let r0 = part(at, from, 0, v);
        let s0 = part(at, from, 0, v + 16);
        let r1 = turned_re::<FIRST>(m, w1, at, from, 1, v);
        let s1 = turned_im::<FIRST>(m, w1, at, from, 1, v);
        let r2 = turned_re::<FIRST>(m, w2, at, from, 2, v);
        let s2 = turned_im::<FIRST>(m, w2, at, from, 2, v);
        let r3 = turned_re::<FIRST>(m, w3, at, from, 3, v);
        let s3 = turned_im::<FIRST>(m, w3, at, from, 3, v);
        let r4 = turned_re::<FIRST>(m, w4, at, from, 4, v);
        let s4 = turned_im::<FIRST>(m, w4, at, from, 4, v);
        let g = crate::lane::apart(o, s4, s1);
        let h = crate::lane::apart(o, r1, r4);
        let i = crate::lane::apart(o, s3, s2);
        let j = crate::lane::apart(o, r2, r3);
        let p = crate::lane::of_five(m, w, z, o, r0, r1, r2, r3, r4, g, i);
        let q = crate::lane::of_five(m, w, z, o, s0, s1, s2, s3, s4, h, j);
        store_lane(y, 0, v, p.x0, q.x0);
        store_lane(y, 1, v, p.x1, q.x1);
        store_lane(y, 2, v, p.x2, q.x2);
        store_lane(y, 3, v, p.x3, q.x3);
        store_lane(y, 4, v, p.x4, q.x4);
    }
}
