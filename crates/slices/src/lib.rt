// Pairs in a slice of u32: read, stored and copied. The pair at place j is the numbers 2 j and 2 j + 1.
// Nothing here computes with the values.
#![tactic(auto)]

pub mod buffers; // buffers.rt
pub mod gathering; // gathering.rt

ghost use Rattle.std.specs.Prelude.{◌≡◌, ◌+◌, ◌*◌, ◌<◌, ◌≤◌, length};
ghost use Rattle.slices.specs.Pairs.{at, put, fills};

use numbers::Pair;

// The pair at place j.
#[tactic(auto, unfolding(crate::specs::Pairs::at))]
pub fn get(s: &[u32], j: usize) -> Pair
    requires { 2 * j + 1 < length s.now }
    ensures { result ≡ at s.now j }
{
    let a = 2 * j;
    Pair {
        re: s[a],
        im: s[a + 1],
    }
}

// v goes to place j.
#[tactic(auto, unfolding(crate::specs::Pairs::put))]
pub fn store(d: &mut [u32], j: usize, v: Pair)
    requires { 2 * j + 1 < length d.old }
    ensures { d.new ≡ put d.old j v }
{
    let a = 2 * j;
    d[a] = v.re;
    d[a + 1] = v.im;
}

// The first n pairs of src go to the first n places of dst, pair by pair: where both slices are arguments, `copy_from_slice` becomes a call of
// memmove, for which a program that links the archive would have to provide.
pub fn copy(src: &[u32], dst: &mut [u32], n: usize)
    requires n_in_bounds { 2 * n ≤ length src.now }
    requires n_in_bounds_2 { 2 * n ≤ length dst.old }
    ensures { dst.new ≡ fills (at src.now) n dst.old }
{
    for j in 0..n {
        store(dst, j, get(src, j));
    }
}
