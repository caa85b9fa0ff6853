// Kind 3, the alternating line, sixteen lanes at a time: after the forward transform.
//
// Y^(s) = u + i v in each lane, and X^(s) = (u + v cot) + i v csc for s > 0. At s = 0 the imaginary part b(0) was
// summed apart, and X^(0) = (u + b(0)) + i b(0).
ghost use Rattle.std.specs.Prelude.{◌≡◌, ℕ, ◌+◌, ◌*◌, ◌<◌, ◌≤◌, get_or, length};
ghost use Rattle.numbers.specs.Value.{IsModulus};
ghost use Rattle.fold_formulas.specs.FoldFormulas.{stride, Tangents};
ghost use Rattle.batches.specs.Lanes.{UpTo};
ghost use Rattle.folded_batches.specs.AlternatingLanes.{FirstPut, FinishedLanes};

use crate::alternating::lanes::{fill_lanes, lane};
use crate::mixing::put_place;
use numbers::Pair;

// The pass after the forward transform, in place, `odd` being the sums of the imaginary parts at the odd places.
pub fn finish(m: u32, rotated: bool, tan: &[u32; 1440], a: usize, odd: &[u32; 32], fold: &mut [u32])
    requires modulus { IsModulus m × Tangents m tan.now × (0 < a) × (a * stride a ≡ 1440) }
    requires fold_len { (length fold.old ≡ 32 * a) × UpTo 500000000 fold.old
        × ((v : ℕ) → v < 16 → get_or odd.now v 0 ≤ 500000000) }
    ensures { FinishedLanes m rotated a tan.now odd.now fold.old
        fold.new }
{
    put_first(odd, fold);
    crate::alternating::turning::turn_places(m, 0, rotated, tan, a, fold);
}

// X^(0) at place 0.
fn put_first(odd: &[u32; 32], fold: &mut [u32])
    requires { (32 ≤ length fold.old) × UpTo 500000000 fold.old
        × ((v : ℕ) → v < 16 → get_or odd.now v 0 ≤ 500000000) }
    ensures { FirstPut odd.now fold.old fold.new }
{
    let mut y = [0u32; 32];
    fill_lanes(&mut y, |v| {
        let b = odd[v];
        Pair {
            re: lane(fold, 0, v).re + b,
            im: b,
        }
    });
    put_place(&y, fold, 0);
}
