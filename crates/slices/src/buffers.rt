// A buffer of numbers, whatever they stand for: cleared, and scanned for one that is too large.
ghost use Rattle.std.specs.Prelude.{◌≡◌, ◌≤◌, ◌++◌, length, replicate, drop};
ghost use Rattle.slices.specs.Pairs.{all_below};

// The first n numbers become zero.
pub fn clear(d: &mut [u32], n: usize)
    requires { n ≤ length d.old }
    ensures { d.new ≡ replicate n 0 ++ drop n d.old }
{
    d[..n].fill(0);
}

// Every number becomes zero, however many there are.
pub fn zero(volume: &mut [u32])
    ensures { volume.new ≡ replicate (length volume.old) 0 }
{
    volume.fill(0);
}

// Every number of s is below p. The loop looks at all of them, wherever one is too large, so that it can go several at a time.
pub fn all_below(s: &[u32], p: u32) -> bool
    ensures { result ≡ all_below p s.now }
{
    let mut below = true;
    for x in s {
        below &= *x < p;
    }
    below
}
