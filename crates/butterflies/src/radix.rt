// The outer sum of equation (3) of document 001 (`outer` in specs/Equation3.antt): one butterfly of a step, by its radix. Its values are read
// at their places and multiplied by their factors, summed over b, and the sums stored at theirs (`outer_sums` in specs/Butterflies.antt).
ghost use Rattle.std.specs.Prelude.{◌≡◌, ℕ, ◌≤◌};
ghost use Rattle.numbers.specs.Value.{prime, IsModulus};
ghost use Rattle.roots.specs.Table.{table_root, RootTable};
ghost use Rattle.slices.specs.Pairs.{Below};
ghost use Rattle.butterflies.specs.Butterflies.{FactorsOf, Reads, Stores, outer_sums};

use crate::twiddle::Places;
use crate::{FiveSums, FourSums, ThreeSums, TwoSums};

mod stores; // stores.rt: its sums at their places

// The B outer sums of one 𝐚, by the radix B.
pub fn outer_sums<'a>(
    m: u32,
    re: &'a [u32; 2880],
    im: &'a [u32; 2880],
    outer: usize,
    at: Places,
    from: &[u32],
    to: &mut [u32],
)
    requires modulus { IsModulus m × RootTable m re.now im.now }
    requires le_outer { (2 ≤ outer) × (outer ≤ 5) × Reads outer at from.now × Stores outer at to.old }
    requires below { Below (prime m) from.now }
    ensures { (A 𝐚 : ℕ) → FactorsOf A outer 𝐚 at → to.new
        ≡ outer_sums m (table_root m re.now im.now) A outer 𝐚 at from.now
        to.old }
{
    if outer == 4 {
        four_at(m, re, im, at, from, to);
    } else if outer == 2 {
        two_at(m, re, im, at, from, to);
    } else if outer == 3 {
        three_at(m, re, im, at, from, to);
    } else {
        five_at(m, re, im, at, from, to);
    }
}

// One function for each radix: they differ in their butterfly, and in the order in which it gives its pairs.
fn two_at<'a>(
    m: u32,
    re: &'a [u32; 2880],
    im: &'a [u32; 2880],
    at: Places,
    from: &[u32],
    to: &mut [u32],
)
    requires modulus { IsModulus m × RootTable m re.now im.now }
    requires reads { Reads 2 at from.now × Stores 2 at to.old × Below (prime m) from.now }
    ensures { (A 𝐚 : ℕ) → FactorsOf A 2 𝐚 at → to.new
        ≡ outer_sums m (table_root m re.now im.now) A 2 𝐚 at from.now
        to.old }
{
    let v = TwoSums {
        x0: crate::twiddle::times_factor(m, re, im, at, 0, from),
        x1: crate::twiddle::times_factor(m, re, im, at, 1, from),
    };
    let y = crate::two(m, v);
    stores::store_next(to, at, 0, y.x0, y.x1);
}

fn three_at<'a>(
    m: u32,
    re: &'a [u32; 2880],
    im: &'a [u32; 2880],
    at: Places,
    from: &[u32],
    to: &mut [u32],
)
    requires modulus { IsModulus m × RootTable m re.now im.now }
    requires reads { Reads 3 at from.now × Stores 3 at to.old × Below (prime m) from.now }
    ensures { (A 𝐚 : ℕ) → FactorsOf A 3 𝐚 at → to.new
        ≡ outer_sums m (table_root m re.now im.now) A 3 𝐚 at from.now
        to.old }
{
    let v = ThreeSums {
        x0: crate::twiddle::times_factor(m, re, im, at, 0, from),
        x1: crate::twiddle::times_factor(m, re, im, at, 1, from),
        x2: crate::twiddle::times_factor(m, re, im, at, 2, from),
    };
    let y = crate::three(m, re, im, v);
    stores::store_at(to, at, 0, y.x0);
    stores::store_next(to, at, 1, y.mates.x0, y.mates.x1);
}

fn four_at<'a>(
    m: u32,
    re: &'a [u32; 2880],
    im: &'a [u32; 2880],
    at: Places,
    from: &[u32],
    to: &mut [u32],
)
    requires modulus { IsModulus m × RootTable m re.now im.now }
    requires reads { Reads 4 at from.now × Stores 4 at to.old × Below (prime m) from.now }
    ensures { (A 𝐚 : ℕ) → FactorsOf A 4 𝐚 at → to.new
        ≡ outer_sums m (table_root m re.now im.now) A 4 𝐚 at from.now
        to.old }
{
    let v = FourSums {
        x0: crate::twiddle::times_factor(m, re, im, at, 0, from),
        x1: crate::twiddle::times_factor(m, re, im, at, 1, from),
        x2: crate::twiddle::times_factor(m, re, im, at, 2, from),
        x3: crate::twiddle::times_factor(m, re, im, at, 3, from),
    };
    let y = crate::four(m, re, im, v);
    stores::store_next(to, at, 0, y.near.x0, y.far.x0);
    stores::store_next(to, at, 2, y.near.x1, y.far.x1);
}

fn five_at<'a>(
    m: u32,
    re: &'a [u32; 2880],
    im: &'a [u32; 2880],
    at: Places,
    from: &[u32],
    to: &mut [u32],
)
    requires modulus { IsModulus m × RootTable m re.now im.now }
    requires reads { Reads 5 at from.now × Stores 5 at to.old × Below (prime m) from.now }
    ensures { (A 𝐚 : ℕ) → FactorsOf A 5 𝐚 at → to.new
        ≡ outer_sums m (table_root m re.now im.now) A 5 𝐚 at from.now
        to.old }
{
    let v = FiveSums {
        x0: crate::twiddle::times_factor(m, re, im, at, 0, from),
        x1: crate::twiddle::times_factor(m, re, im, at, 1, from),
        x2: crate::twiddle::times_factor(m, re, im, at, 2, from),
        x3: crate::twiddle::times_factor(m, re, im, at, 3, from),
        x4: crate::twiddle::times_factor(m, re, im, at, 4, from),
    };
    let y = crate::five(m, re, im, v);
    stores::store_at(to, at, 0, y.x0);
    stores::store_next(to, at, 1, y.near.x0, y.far.x0);
    stores::store_next(to, at, 3, y.far.x1, y.near.x1);
}
