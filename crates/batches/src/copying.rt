// A block of sums to its place in a batch.
ghost use Rattle.std.specs.Prelude.{◌≡◌, length, ◌+◌, ◌*◌, ◌<◌, ◌≤◌};
ghost use Rattle.batches.specs.Copying.{PutBlock, PutBlocks};

// Block c of y becomes block j of `to`.
pub fn put_block(y: &[u32; 160], c: usize, to: &mut [u32], j: usize)
    requires { (c < 5) × (32 * j + 32 ≤ length to.old) }
    ensures { PutBlock y.now c j to.old to.new }
{
    let first = 32 * c;
    let place = 32 * j;
    to[place..place + 32].copy_from_slice(&y[first..first + 32]);
}

// The first blocks of y go to the places base, base + gap, ..
pub fn put_blocks(y: &[u32; 160], count: usize, to: &mut [u32], base: usize, gap: usize)
    requires { (count ≤ 5) × (0 < gap) × (32 * (base + count * gap) + 32 ≤ length to.old + 32 * gap) }
    ensures { PutBlocks y.now base gap count to.old to.new }
{
    for c in 0..count {
        put_block(y, c, to, base + c * gap);
    }
}
