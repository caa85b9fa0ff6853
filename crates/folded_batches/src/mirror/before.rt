// Symmetric and antisymmetric lines side by side, before the transform of their short lines: in each lane the short
// line Y(t) = X(2 t) + X(2 t + 1), and for a symmetric line the sum of its odd places.
//
// The batch has the places 0 .. A of each line; a place above A is the mirror image of one of them, X(2 A - j) =
// sigma X(j). So the two places of Y(t) are either both as they are or both mirror images: where one of them is A, it is
// its own mirror image.
ghost use Rattle.std.specs.Prelude.{◌≡◌, ◌⊎◌, length, ℕ, ◌+◌, ◌*◌, ◌<◌, ◌≤◌};
ghost use Rattle.algebra.specs.lines.Folds.{mirror_point};
ghost use Rattle.numbers.specs.Value.{prime, IsModulus, Value, field};
ghost use Rattle.batches.specs.Lanes.{UpTo};
ghost use Rattle.folded_batches.specs.MirrorLanes.{BlockOf, Places, WholeLines, OddSums};

// The short lines.
pub fn short_lines(m: u32, first: usize, a: usize, line: &[u32], fold: &mut [u32])
    requires { IsModulus m × (first ≤ 1) × (length line.now ≡ 32 * (a + 1)) × UpTo (prime m) line.now
        × (length fold.old ≡ 32 * a) }
    ensures { (X : ℕ → ℕ → Value m) → WholeLines m a first line.now X
        → Places m (8 * prime m) (λ v. mirror_point (field m) (X v)) 0 a fold.new }
{
    let mut y = [0u32; 32];
    for t in 0..a {
        short_place(m, first, a, line, t, &mut y);
        crate::mixing::put_place(&y, fold, t);
    }
}

// Place t of the short lines.
#[tactic(auto, using(crate::proofs::MirrorBlocks::low_numbers))]
fn short_place(m: u32, first: usize, a: usize, line: &[u32], t: usize, y: &mut [u32; 32])
    requires { IsModulus m × (first ≤ 1) × (t < a) × (length line.now ≡ 32 * (a + 1))
        × UpTo (prime m) line.now × (length y.old ≡ 32) }
    ensures { (length y.new ≡ 32)
        × ((X : ℕ → ℕ → Value m) → WholeLines m a first line.now X
        → BlockOf m (8 * prime m) (λ v. mirror_point (field m) (X v) t) y.new) }
{
    if 2 * t + 1 <= a {
        crate::mirror::places::add_places(line, 2 * t, 2 * t + 1, y);
        return;
    }
    let i = 2 * (a - t);
    if first == 0 {
        crate::mirror::places::add_places(line, i, i - 1, y);
    } else {
        crate::mirror::places::subtract_places(m, line, i, i - 1, y);
    }
}

// The sums of the odd places. Antisymmetric lines ask for none: theirs cancel in pairs.
pub fn odd_sums(m: u32, first: usize, a: usize, line: &[u32]) -> [u32; 32]
    requires { IsModulus m × (0 < a) × (a ≤ 1440) × (length line.now ≡ 32 * (a + 1))
        × UpTo (prime m) line.now }
    ensures { OddSums m a first line.now result }
{
    let mut odds = [0u32; 32];
    if first == 0 {
        for t in 0..a {
            crate::mirror::places::add_to(line, odd_place(a, t), &mut odds);
        }
    }
    odds
}

// The place that stands for 2 t + 1. It is computed as in alternating/before.rt, and promised in other words: those of the sum over a symmetric line.
fn odd_place(a: usize, t: usize) -> usize
    requires { (t < a) × (a ≤ 1440) }
    ensures { (result ≤ a) × ((2 * t + 1 ≡ result) ⊎ ((2 * t + 1 + result ≡ 2 * a) × (0 < result))) }
{
    if 2 * t + 1 <= a {
        2 * t + 1
    } else {
        2 * (a - t) - 1
    }
}
