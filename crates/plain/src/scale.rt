// A line times a residue, in its place: the last pass of an inverse, which divides by the length of its line. And a line times i or over
// i, for the lines that are stored so.
ghost use Rattle.std.specs.Prelude.{◌≡◌, ◌*◌, ◌<◌, ◌≤◌, length};
ghost use Rattle.algebra.specs.ring.Ring.{Ops};
ghost use Rattle.numbers.specs.Value.{prime, IsModulus, field, part, real, value_of, pair_of};
ghost use Rattle.numbers.specs.Bounds.{res, Small};
ghost use Rattle.slices.specs.Pairs.{Below, values_of, list_of};
ghost use Rattle.plain.specs.Plain.{rotation};

use numbers::Pair;

// Every pair of the line divided by n, the number of its pairs.
pub fn divide(m: u32, n: usize, line: &mut [u32])
    requires modulus { IsModulus m × (0 < n) × (n ≤ 2880) }
    requires line_len { length line.old ≡ 2 * n }
    requires below { Below (prime m) line.old }
    ensures { line.new
        ≡ list_of n (λ t. (field m).mul (real m (part m n)) (values_of m line.old t)) }
{
    if 1 < n {
        scale(m, numbers::reciprocals::reciprocal(m, n as u32), n, line);
    }
}

// Every pair of the line times the residue c.
pub fn scale(m: u32, c: u32, n: usize, line: &mut [u32])
    requires modulus { IsModulus m × (c < prime m) }
    requires line_len { length line.old ≡ 2 * n }
    requires below { Below (prime m) line.old }
    ensures { line.new
        ≡ list_of n (λ t. (field m).mul (real m (res m c)) (values_of m line.old t)) }
{
    for j in 0..n {
        let v = slices::get(line, j);
        slices::store(line, j, numbers::scaled(m, c, v));
    }
}

// Every pair of the line times i, or over i.
pub fn rotate(m: u32, over: bool, n: usize, line: &mut [u32])
    requires modulus { IsModulus m }
    requires line_len { length line.old ≡ 2 * n }
    requires below { Below (prime m) line.old }
    ensures { line.new
        ≡ list_of n (λ t. (field m).mul (rotation m over) (values_of m line.old t)) }
{
    for j in 0..n {
        let v = slices::get(line, j);
        slices::store(line, j, rotated(m, over, v));
    }
}

fn rotated(m: u32, over: bool, v: Pair) -> Pair
    requires { IsModulus m × Small (prime m) v }
    ensures { result ≡ pair_of ((field m).mul (rotation m over) (value_of m v)) }
{
    if over {
        numbers::over_i(m, v)
    } else {
        numbers::times_i(m, v)
    }
}
