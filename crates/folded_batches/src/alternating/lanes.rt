// Kind 3, the alternating line, sixteen lanes at a time: a lane of a batch is read as a pair, and a block of its own is
// written lane by lane.
ghost use Rattle.std.specs.Prelude.{◌≡◌, ℕ, ◌+◌, ◌*◌, ◌<◌, ◌≤◌, length};
ghost use Rattle.batches.specs.Lanes.{lane_at, UpTo};

use numbers::Pair;

// The pair of lane v at place j.
#[tactic(auto, unfolding(batches::specs::Lanes::lane_at))]
pub fn lane(from: &[u32], j: usize, v: usize) -> Pair
    requires { (v < 16) × (32 * j + 32 ≤ length from.now) }
    ensures is { result ≡ lane_at from.now j v }
    ensures re_low { (X : ℕ) → UpTo X from.now → result.re ≤ X }
    ensures im_low { (X : ℕ) → UpTo X from.now → result.im ≤ X }
{
    let re = 32 * j + v;
    Pair {
        re: from[re],
        im: from[re + 16],
    }
}

// Lane v of the block becomes f(v).
pub fn fill_lanes<F: Fn(usize) -> Pair>(y: &mut [u32; 32], f: F)
    requires { (v : ℕ) → v < 16 → F.pre f v }
    ensures long { length y.new ≡ 32 }
    ensures each { (v : ℕ) → v < 16 → F.post f v (lane_at y.new 0 v) }
{
    for v in 0..16 {
        let x = f(v);
        crate::mixing::store_lane(y, v, x.re, x.im);
    }
}
