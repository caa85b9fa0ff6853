// The magnitudes of a combined map: the largest, and the sum of all. A row has 2 b points and two places more, which are not read.
ghost use Rattle.std.specs.Prelude.{◌≡◌, suc, ◌+◌, ◌*◌, ◌%◌, ◌<◌, ◌≤◌, ltb, length};
ghost use Rattle.combined.specs.CombinedMap.{limit};
ghost use Rattle.correlation.specs.Correlation.{larger, over};
ghost use Rattle.correlation.specs.Steps.{magnitude_at};

// The column after one, in rows of `width`.
pub fn next_column(column: usize, width: usize) -> usize
    requires { (column < width) × (width ≤ 5764) }
    ensures { result ≡ (column + 1) % width }
{
    let next = column + 1;
    if next < width { next } else { 0 }
}

// The magnitude at a place in this column.
fn magnitude_at(v: &[i64], n: usize, column: usize, b: usize) -> u64
    requires { (n < length v.now) × (column ≡ n % (2 * suc b)) × (b ≤ 1440) }
    ensures { result ≡ magnitude_at b v.now n }
{
    if column < 2 * b {
        signed::magnitude(v[n])
    } else {
        0
    }
}

// The largest magnitude.
pub fn largest_magnitude(v: &[i64], b: usize) -> u64
    requires { b ≤ 1440 }
    ensures { result ≡ over larger (length v.now) (magnitude_at b v.now) }
{
    let width = 2 * b + 2;
    let mut most: u64 = 0;
    let mut column: usize = 0;
    for n in 0..v.len() {
        most = most.max(magnitude_at(v, n, column, b));
        column = next_column(column, width);
    }
    most
}

// The sum of the magnitudes, none of which exceeds the limit: it is below 2^58.
pub fn sum_of_magnitudes(v: &[i64], b: usize) -> u64
    requires b_bound { (b ≤ 1440) × (length v.now ≤ 16777216) }
    requires v_bound { over larger (length v.now) (magnitude_at b v.now) ≤ limit }
    ensures { result ≡ over ◌+◌ (length v.now) (magnitude_at b v.now) }
{
    let width = 2 * b + 2;
    let mut sum: u64 = 0;
    let mut column: usize = 0;
    for n in 0..v.len() {
        sum += magnitude_at(v, n, column, b);
        column = next_column(column, width);
    }
    sum
}

// Whether x times y exceeds the limit. The product itself may be of more than 64 bits.
pub fn product_exceeds(x: u64, y: u64) -> bool
    ensures { result ≡ ltb limit (x * y) }
{
    if y == 0 {
        return false;
    }
    13063485600 / y < x
}
