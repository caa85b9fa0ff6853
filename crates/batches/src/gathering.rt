// Up to sixteen neighbouring lines of a volume into a batch, and back. Line v of them has the pairs start + v, start
// + v + stride, ..
ghost use Rattle.std.specs.Prelude.{◌≡◌, length, ◌+◌, ◌*◌, ◌<◌, ◌≤◌};
ghost use Rattle.numbers.specs.Value.{prime, IsModulus};
ghost use Rattle.slices.specs.Pairs.{puts};
ghost use Rattle.batches.specs.Lanes.{lane_at, put_lane, UpTo};
ghost use Rattle.batches.specs.Groups.{lane_pair, PutLanes, Gathered, ReducedPlace, Scattered};

use numbers::Pair;

// Lane v of the batch becomes line v. The lanes that are not used become zero.
pub fn gather(volume: &[u32], start: usize, stride: usize, lanes: usize, n: usize, d: &mut [u32])
    requires { (lanes ≤ 16) × (2 * (start + n * stride + lanes) ≤ length volume.now + 2 * stride)
        × (length d.old ≡ 32 * n) }
    ensures { Gathered volume.now start stride lanes n d.new }
{
    for j in 0..n {
        gather_place(volume, start + j * stride, lanes, d, j);
    }
}

// Place j of the batch.
fn gather_place(volume: &[u32], first: usize, lanes: usize, d: &mut [u32], j: usize)
    requires { (lanes ≤ 16)
        × (2 * (first + lanes) ≤ length volume.now)
        × (32 * j + 32 ≤ length d.old) }
    ensures { PutLanes (lane_pair volume.now first lanes) j 16 d.old
        d.new }
{
    for v in 0..lanes {
        let x = slices::get(volume, first + v);
        store_lane(d, j, v, x.re, x.im);
    }
    for v in lanes..16 {
        store_lane(d, j, v, 0, 0);
    }
}

// The pair a + b i goes to lane v of place j.
#[tactic(auto, unfolding(crate::specs::Lanes::put_lane))]
pub fn store_lane(d: &mut [u32], j: usize, v: usize, a: u32, b: u32)
    requires { (v < 16) × (32 * j + 32 ≤ length d.old) }
    ensures { d.new ≡ put_lane d.old j v (record { re = a; im = b }) }
{
    let k = 32 * j + v;
    d[k] = a;
    d[k + 16] = b;
}

// Its inverse: line v becomes lane v of the batch, reduced, times what c stands for over 2^32. Every other place of
// the volume is as it was.
pub fn scatter(
    m: u32,
    c: u32,
    s: &[u32],
    n: usize,
    lanes: usize,
    start: usize,
    stride: usize,
    volume: &mut [u32],
)
    requires modulus { IsModulus m × (c < prime m) × (lanes ≤ 16) × (lanes ≤ stride) × (length s.now ≡ 32 * n)
        × UpTo 2147483647 s.now }
    requires lanes_in_bounds { 2 * (start + n * stride + lanes) ≤ length volume.old + 2 * stride }
    ensures { Scattered m c s.now start stride lanes n volume.old
        volume.new }
{
    let mut y = [0u32; 32];
    for j in 0..n {
        reduce_place(m, c, s, j, &mut y);
        put_place(&y, lanes, volume, start + j * stride);
    }
}

// The numbers of place j, reduced: a local array, so that the compiler does several at a time.
pub fn reduce_place(m: u32, c: u32, s: &[u32], j: usize, y: &mut [u32; 32])
    requires { IsModulus m × (c < prime m) × (32 * j + 32 ≤ length s.now) × UpTo 2147483647 s.now
        × (length y.old ≡ 32) }
    ensures { ReducedPlace m c s.now j 32 y.new }
{
    let first = 32 * j;
    for u in 0..32 {
        y[u] = crate::residues::residue(m, c, s[first + u]);
    }
}

fn put_place(y: &[u32; 32], lanes: usize, volume: &mut [u32], first: usize)
    requires { (lanes ≤ 16) × (2 * (first + lanes) ≤ length volume.old) }
    ensures { volume.new
        ≡ puts (λ v. first + v) (λ v. lane_at y.now 0 v) lanes volume.old }
{
    for v in 0..lanes {
        let x = Pair {
            re: y[v],
            im: y[v + 16],
        };
        slices::store(volume, first + v, x);
    }
}
