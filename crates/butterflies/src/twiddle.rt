// The factor of equation (3) of document 001 (`factor` in specs/Equation3.antt): the values of one butterfly, which are inner sums, are read
// a stride apart and multiplied by e(b𝐚/AB), where 𝐚 is the index of the transform. The butterfly's sums go to places a gap apart.
// This module reads one value; module `radix` has the outer sums by their radix.
ghost use Rattle.std.specs.Prelude.{◌+◌, ◌*◌, ◌<◌, length};
ghost use Rattle.numbers.specs.Value.{prime, IsModulus};
ghost use Rattle.roots.specs.Table.{table_root, RootTable};
ghost use Rattle.slices.specs.Pairs.{Below};
ghost use Rattle.butterflies.specs.Butterflies.{Loaded};

use numbers::Accumulator;

// The value for b is read at first + b stride. W^k is e(𝐚/AB), so that W^(b k) is its factor. The sum for 𝐛 goes to base + 𝐛 gap.
#[derive(Clone, Copy)]
pub struct Places {
    pub first: usize,
    pub stride: usize,
    pub k: usize,
    pub base: usize,
    pub gap: usize,
}

// The value for b times its factor e(b𝐚/AB), not reduced. That of b = 0 needs none, and in the first step none does.
pub fn times_factor<'a>(
    m: u32,
    re: &'a [u32; 2880],
    im: &'a [u32; 2880],
    at: Places,
    b: usize,
    from: &[u32],
) -> Accumulator
    requires modulus { IsModulus m × RootTable m re.now im.now }
    requires first_in_bounds { (2 * (b * at.stride + at.first) + 1 < length from.now)
        × (b * at.k < 2880)
        × Below (prime m) from.now }
    ensures { Loaded m (table_root m re.now im.now) at from.now b result }
{
    let k = b * at.k;
    let v = slices::get(from, b * at.stride + at.first);
    if k == 0 {
        numbers::unreduced::of_pair(v)
    } else {
        numbers::unreduced::product(m, roots::root_at(re, im, k), v)
    }
}
