// Kind 3, the alternating line, sixteen lanes at a time: the way back.
//
// The places of a batch are turned by their angles first (turning.rt). Place 0 is then E(0) - i b(0), from which
// 2 M = 2 (E(0) + b(0)) is kept and E(0) left. The transform y of the short line gives the whole line, times N,
//
//     X(2t) = y(t) + conj y(A - t),   X(2t + 1) = i (2 M - (y(t) + conj y(A - 1 - t))),
//
// by additions alone; of X(A) the one part that can differ from 0 goes into pair 0.
ghost use Rattle.std.specs.Prelude.{◌≡◌, ℕ, ◌+◌, ◌*◌, ◌/◌, ◌<◌, ◌≤◌, get_or, length};
ghost use Rattle.numbers.specs.Value.{prime, IsModulus};
ghost use Rattle.batches.specs.Lanes.{UpTo};
ghost use Rattle.folded_batches.specs.AlternatingLanes.{BlockOf, Filled, twice_pair, FirstTaken};
ghost use Rattle.folded_batches.specs.AlternatingLanes.{whole_pair, end_place, EndPacked};

use crate::alternating::lanes::{fill_lanes, lane};
use crate::mixing::put_place;
use numbers::Pair;

// 2 M of each lane, and E(0) left at place 0.
pub fn take_first(m: u32, fold: &mut [u32], twice: &mut [u32; 32])
    requires { IsModulus m × (32 ≤ length fold.old) × UpTo (2 * prime m) fold.old
        × (length twice.old ≡ 32) }
    ensures { FirstTaken m fold.old fold.new twice.new }
{
    let o = 2 * numbers::modulus(m);
    fill_lanes(twice, |v| {
        let x = lane(fold, 0, v);
        Pair {
            re: 2 * (x.re + (o - x.im)),
            im: 0,
        }
    });
    let mut y = [0u32; 32];
    crate::alternating::before::first_block(fold, &mut y);
    put_place(&y, fold, 0);
}

// The places 0 .. A of the whole line, times N.
pub fn whole_line(m: u32, a: usize, twice: &[u32; 32], fold: &[u32], line: &mut [u32])
    requires modulus { IsModulus m × (0 < a) × (a ≤ 1440) × UpTo (512 * prime m) fold.now
        × ((v : ℕ) → v < 16 → get_or twice.now v 0 ≤ 500000000) }
    requires fold_len { (length fold.now ≡ 32 * a) × (length line.old ≡ 32 * (a + 1)) }
    ensures { Filled (λ j v x. x
        ≡ whole_pair (512 * prime m) a twice.now fold.now j v) (a + 1) line.new }
{
    let o = 512 * numbers::modulus(m);
    let mut y = [0u32; 32];
    for j in 0..a + 1 {
        whole_block(o, a, twice, fold, j, &mut y);
        put_place(&y, line, j);
    }
}

// Place j of it: x + conj z of two places, or i (2 M - (x + conj z)).
fn whole_block(o: u32, a: usize, twice: &[u32; 32], fold: &[u32], j: usize, y: &mut [u32; 32])
    requires o_bound { (o ≤ 154828288) × (0 < a) × (a ≤ 1440) × (j ≤ a) × UpTo o fold.now
        × ((v : ℕ) → v < 16 → get_or twice.now v 0 ≤ 500000000) }
    requires fold_len { (length fold.now ≡ 32 * a) × (length y.old ≡ 32) }
    ensures { BlockOf (whole_pair o a twice.now fold.now j) 16 y.new }
{
    let t = j / 2;
    let k = folds::alternating::after::mate_of(a, (j + 1) / 2);
    if j % 2 == 0 {
        fill_lanes(y, |v| {
            let x = lane(fold, t, v);
            let z = lane(fold, k, v);
            Pair {
                re: x.re + z.re,
                im: x.im + (o - z.im),
            }
        });
    } else {
        fill_lanes(y, |v| {
            let x = lane(fold, t, v);
            let z = lane(fold, k, v);
            Pair {
                re: x.im + (o - z.im),
                im: twice[v] + ((o - x.re) + (o - z.re)),
            }
        });
    }
}

// X(0) is real, and its second number is free for the one number of X(A): the real part for an even A, and the
// imaginary part for an odd one.
pub fn pack(a: usize, line: &mut [u32])
    requires { (0 < a) × (a ≤ 1440) × (length line.old ≡ 32 * (a + 1)) }
    ensures { EndPacked a line.old line.new }
{
    let mut y = [0u32; 32];
    let end = end_place(a);
    fill_lanes(&mut y, |v| {
        let x = lane(line, 0, v);
        Pair {
            re: x.re,
            im: line[end + v],
        }
    });
    put_place(&y, line, 0);
}

// Where the one part of X(A) begins.
fn end_place(a: usize) -> usize
    requires { a ≤ 1440 }
    ensures { result ≡ end_place a }
{
    if a % 2 == 0 { 32 * a } else { 32 * a + 16 }
}
