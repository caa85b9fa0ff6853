// The pairs of a line that stand apart in a slice, gathered into another, and scattered back.
ghost use Rattle.std.specs.Prelude.{◌≡◌, ◌+◌, ◌*◌, ◌≤◌, length};
ghost use Rattle.slices.specs.Pairs.{at, puts, fills};

// The pairs at start, start + stride, .. of s go to places 0, 1, .. of d. The last of the n places lies inside s.
pub fn gather(s: &[u32], start: usize, stride: usize, d: &mut [u32], n: usize)
    requires stride_in_bounds { 2 * (start + n * stride) + 2 ≤ length s.now + 2 * stride }
    requires n_in_bounds { 2 * n ≤ length d.old }
    ensures { d.new
        ≡ fills (λ j. at s.now (start + j * stride)) n d.old }
{
    for j in 0..n {
        crate::store(d, j, crate::get(s, start + j * stride));
    }
}

// Its inverse: the pairs at 0, 1, .. of s go to places start, start + stride, .. of d.
pub fn scatter(s: &[u32], start: usize, stride: usize, d: &mut [u32], n: usize)
    requires n_in_bounds { 2 * n ≤ length s.now }
    requires stride_in_bounds { 2 * (start + n * stride) + 2 ≤ length d.old + 2 * stride }
    ensures { d.new ≡ puts (λ j. start + j * stride) (at s.now) n d.old }
{
    for j in 0..n {
        crate::store(d, start + j * stride, crate::get(s, j));
    }
}
