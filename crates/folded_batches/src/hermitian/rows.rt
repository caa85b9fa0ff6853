// Up to sixteen neighbouring rows into the lanes of a batch, and back: lane v is row v, packed as a Hermitian line.
//
// The two reals of a row share pair 0 of the packed line. Where they stand in the row is said by the place `second` of
// the second one: 2 B in a row of factors, which has them apart, and 1 in a row of map values, where they share a pair.
ghost use Rattle.std.specs.Prelude.{◌≡◌, ◌≢◌, get_or, length, ◌+◌, ◌*◌, ◌<◌, ◌≤◌};
ghost use Rattle.numbers.specs.Value.{prime, IsModulus};
ghost use Rattle.batches.specs.Lanes.{lane_at, UpTo};
ghost use Rattle.batches.specs.Groups.{PutLanes};
ghost use Rattle.folded_batches.specs.RowLanes.{second_of, SecondIn, row_pair, used_pair, GatheredRows};
ghost use Rattle.folded_batches.specs.RowLanes.{PutRows, ClosedRows};

// Lane v of the batch becomes row v. The lanes that are not used become zero.
pub fn gather(rows: &[u32], second: usize, b: usize, lanes: usize, d: &mut [u32])
    requires b_bound { (b ≤ 1440) × SecondIn b second × (lanes ≤ 16) × (length d.old ≡ 32 * b) }
    requires rows_len { length rows.now ≡ lanes * (2 * b + 2) }
    ensures { GatheredRows rows.now second b lanes b d.new }
{
    let width = 2 * b + 2;
    for j in 0..b {
        gather_place(rows, width, 2 * j, second_of(second, j), lanes, d, j);
    }
}

// Its inverse: row v becomes lane v of the batch, reduced, times what c stands for over 2^32. The two numbers of a row
// that the packed line does not have become zero.
pub fn scatter(m: u32, c: u32, s: &[u32], second: usize, b: usize, lanes: usize, rows: &mut [u32])
    requires modulus { IsModulus m × (c < prime m) × (length s.now ≡ 32 * b) × UpTo 2147483647 s.now }
    requires b_nonzero { (0 < b) × (b ≤ 1440) × SecondIn b second × (lanes ≤ 16)
        × (length rows.old ≡ lanes * (2 * b + 2)) }
    ensures { ClosedRows m c s.now second b lanes rows.old rows.new }
{
    let width = 2 * b + 2;
    let mut y = [0u32; 32];
    for j in 0..b {
        batches::gathering::reduce_place(m, c, s, j, &mut y);
        put_rows(&y, lanes, rows, width, 2 * j, second_of(second, j));
    }
    let zero = [0u32; 32];
    put_rows(&zero, lanes, rows, width, 2 * b + 1 - second, 2 * b + 1);
}

// The place of the second number of pair j of the packed line.
#[tactic(auto, unfolding(crate::specs::RowLanes::second_of))]
fn second_of(second: usize, j: usize) -> usize
    requires { j ≤ 1440 }
    ensures { result ≡ second_of second j }
{
    if j == 0 { second } else { 2 * j + 1 }
}

// The numbers `first` and `second` of every row, rows of `width` numbers, as place j of the batch.
fn gather_place(
    rows: &[u32],
    width: usize,
    first: usize,
    second: usize,
    lanes: usize,
    d: &mut [u32],
    j: usize,
)
    requires { (lanes ≤ 16) × (first < width) × (second < width) × (width ≤ 2882)
        × (lanes * width ≤ length rows.now) × (32 * j + 32 ≤ length d.old) }
    ensures { PutLanes (used_pair lanes (row_pair rows.now width first second)) j 16
        d.old d.new }
{
    for v in 0..lanes {
        batches::gathering::store_lane(
            d,
            j,
            v,
            number(rows, width, v, first),
            number(rows, width, v, second),
        );
    }
    for v in lanes..16 {
        batches::gathering::store_lane(d, j, v, 0, 0);
    }
}

// The number u of row v.
fn number(rows: &[u32], width: usize, v: usize, u: usize) -> u32
    requires { (v < 16) × (width ≤ 2882) × (u < width) × (v * width + width ≤ length rows.now) }
    ensures { result ≡ get_or rows.now (v * width + u) 0 }
{
    rows[v * width + u]
}

// Lane v of the block y to the numbers `first` and `second` of row v.
fn put_rows(
    y: &[u32; 32],
    lanes: usize,
    rows: &mut [u32],
    width: usize,
    first: usize,
    second: usize,
)
    requires { (lanes ≤ 16) × (first < width) × (second < width) × (first ≢ second) × (width ≤ 2882)
        × (lanes * width ≤ length rows.old) }
    ensures { PutRows (λ v. lane_at y.now 0 v) width first second lanes rows.old
        rows.new }
{
    for v in 0..lanes {
        let row = v * width;
        rows[row + first] = y[v];
        rows[row + second] = y[v + 16];
    }
}
