// The sums of one butterfly, stored a gap apart.
ghost use Rattle.std.specs.Prelude.{◌≡◌, ◌+◌, ◌*◌, ◌<◌, length};
ghost use Rattle.slices.specs.Pairs.{put};

use crate::twiddle::Places;
use numbers::Pair;

// v goes to the place of the sum for c, and w to that of the next.
pub fn store_next(to: &mut [u32], at: Places, c: usize, v: Pair, w: Pair)
    requires { (c < 5)
        × (2 * (at.base + c * at.gap) + 1 < length to.old)
        × (2 * (at.base + (c + 1) * at.gap) + 1 < length to.old) }
    ensures { to.new
        ≡ put (put to.old (at.base + c * at.gap) v) (at.base + (c + 1) * at.gap) w }
{
    store_at(to, at, c, v);
    store_at(to, at, c + 1, w);
}

// v goes to the place of the sum for c.
pub fn store_at(to: &mut [u32], at: Places, c: usize, v: Pair)
    requires { 2 * (at.base + c * at.gap) + 1 < length to.old }
    ensures { to.new ≡ put to.old (at.base + c * at.gap) v }
{
    slices::store(to, at.base + c * at.gap, v);
}
