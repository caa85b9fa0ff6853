// Kind 3, the alternating line, sixteen lanes at a time: before the forward transform.
//
// Pair t of a lane is X(t) for 0 < t < A, and pair 0 has the one number of X(0) and the one of X(A) that can differ
// from 0. They are taken apart first, so that place j is X(j) for every j up to A; beyond,
// X(2A - j) = (-1)^j conj X(j). Then the short line is made by additions alone.
ghost use Rattle.std.specs.Prelude.{◌≡◌, ℕ, ◌+◌, ◌*◌, ◌<◌, ◌≤◌, get_or, length};
ghost use Rattle.numbers.specs.Value.{prime, IsModulus};
ghost use Rattle.batches.specs.Lanes.{lane_at, UpTo};
ghost use Rattle.folded_batches.specs.AlternatingLanes.{BlockOf, Filled, Unpacked};
ghost use Rattle.folded_batches.specs.AlternatingLanes.{odd_place, short_pair, OddSums};

use crate::alternating::lanes::{fill_lanes, lane};
use crate::mixing::put_place;
use numbers::Pair;

// Place 0 becomes X(0), and the place past the pairs X(A), from the second number of pair 0.
pub fn unpack(a: usize, line: &mut [u32])
    requires { (0 < a) × (length line.old ≡ 32 * (a + 1)) }
    ensures { Unpacked a line.old line.new }
{
    let mut y = [0u32; 32];
    fill_lanes(&mut y, |v| {
        fold_formulas::alternating::middle(a, lane(line, 0, v).im)
    });
    put_place(&y, line, a);
    first_block(line, &mut y);
    put_place(&y, line, 0);
}

// X(0), from the first number of pair 0.
pub fn first_block(line: &[u32], y: &mut [u32; 32])
    requires { (32 ≤ length line.now) × (length y.old ≡ 32) }
    ensures { BlockOf (λ v. record { re = (lane_at line.now 0 v).re; im = 0 }) 16 y.new }
{
    fill_lanes(y, |v| {
        let x = lane(line, 0, v);
        Pair { re: x.re, im: 0 }
    });
}

// The short line, before its transform: X(2t) + i X(2t + 1) in each lane.
pub fn short_line(m: u32, a: usize, line: &[u32], fold: &mut [u32])
    requires modulus { IsModulus m × (a ≤ 1440) × UpTo (prime m) line.now }
    requires line_len { (length line.now ≡ 32 * (a + 1)) × (length fold.old ≡ 32 * a) }
    ensures { Filled (λ t v x. x ≡ short_pair (prime m) a line.now t v) a fold.new }
{
    let o = numbers::modulus(m);
    let mut y = [0u32; 32];
    for t in 0..a {
        short_block(o, a, line, t, &mut y);
        put_place(&y, fold, t);
    }
}

// One place of it: x + i z of two places, or its conjugate.
fn short_block(o: u32, a: usize, line: &[u32], t: usize, y: &mut [u32; 32])
    requires o_bound { (o ≤ 302399) × (a ≤ 1440) × (t < a) × UpTo o line.now }
    requires line_len { (length line.now ≡ 32 * (a + 1)) × (length y.old ≡ 32) }
    ensures { BlockOf (short_pair o a line.now t) 16 y.new }
{
    if 2 * t + 1 <= a {
        fill_lanes(y, |v| {
            let x = lane(line, 2 * t, v);
            let z = lane(line, 2 * t + 1, v);
            Pair {
                re: x.re + (o - z.im),
                im: x.im + z.re,
            }
        });
    } else {
        // X(2t) = conj X(2A - 2t) and X(2t + 1) = -conj X(2A - 2t - 1)
        fill_lanes(y, |v| {
            let x = lane(line, 2 * (a - t), v);
            let z = lane(line, 2 * (a - t) - 1, v);
            Pair {
                re: x.re + (o - z.im),
                im: (o - x.im) + (o - z.re),
            }
        });
    }
}

// b(0) of X^(0) = E(0) + i b(0) in each lane: the sum of the imaginary parts at the odd places. The short transform at
// s = 0 is E(0) - b(0) and does not tell the two apart. X(2A - j) = -conj X(j) has the imaginary part of X(j).
pub fn odd_sums(m: u32, a: usize, line: &[u32], y: &mut [u32; 32])
    requires modulus { IsModulus m × (a ≤ 1440) × UpTo (prime m) line.now }
    requires line_len { (length line.now ≡ 32 * (a + 1)) × (length y.old ≡ 32) }
    ensures { OddSums m a line.now a y.new }
{
    y[..16].fill(0);
    for t in 0..a {
        add_imaginary(line, odd_place(a, t), y);
    }
}

fn odd_place(a: usize, t: usize) -> usize
    requires { (a ≤ 1440) × (t < a) }
    ensures { (result ≡ odd_place a t) × (result ≤ a) }
{
    if 2 * t + 1 <= a {
        2 * t + 1
    } else {
        2 * (a - t) - 1
    }
}

// The imaginary parts at place j are added to the first sixteen numbers.
fn add_imaginary(from: &[u32], j: usize, y: &mut [u32; 32])
    requires { UpTo 302399 from.now × (32 * j + 32 ≤ length from.now) × (length y.old ≡ 32)
        × ((v : ℕ) → v < 16 → get_or y.old v 0 ≤ 1073741823) }
    ensures { (length y.new ≡ 32)
        × ((v : ℕ) → v < 16 → get_or y.new v 0
        ≡ get_or y.old v 0 + (lane_at from.now j v).im) }
{
    for v in 0..16 {
        y[v] += lane(from, j, v).im;
    }
}
