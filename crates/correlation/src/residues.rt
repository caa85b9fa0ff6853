// The numbers of a combined map modulo a prime, in the layout of a map: each row ends in two zeros, whatever the map has there.
ghost use Rattle.std.specs.Prelude.{◌≡◌, suc, ◌+◌, ◌*◌, ◌%◌, ◌<◌, ◌≤◌, length};
ghost use Rattle.signed.specs.Integers.{residue_z};
ghost use Rattle.numbers.specs.Value.{prime, IsModulus};
ghost use Rattle.slices.specs.Pairs.{tab};
ghost use Rattle.correlation.specs.Steps.{residue_pair};

use numbers::Pair;

// The residue of any number, of the least one too.
fn residue(m: u32, x: i64) -> u32
    requires { IsModulus m }
    ensures { result ≡ residue_z (prime m) x }
{
    let size = signed::magnitude(x);
    if x < 0 {
        numbers::modulus(m) - 1 - numbers::reduce(m, size - 1)
    } else {
        numbers::reduce(m, size)
    }
}

// The residues of pair j, which stands in this column.
fn residue_pair(m: u32, v: &[i64], j: usize, column: usize, b: usize) -> Pair
    requires { IsModulus m × (2 * j + 1 < length v.now) × (column ≡ j % suc b) }
    ensures { result ≡ residue_pair (prime m) b v.now j }
{
    if column < b {
        let a = 2 * j;
        Pair {
            re: residue(m, v[a]),
            im: residue(m, v[a + 1]),
        }
    } else {
        Pair { re: 0, im: 0 }
    }
}

// The n pairs of a map, in rows of b + 1.
pub fn fill_residues(m: u32, n: usize, b: usize, v: &[i64], d: &mut [u32])
    requires modulus { IsModulus m × (b ≤ 1440) }
    requires v_len { (length v.now ≡ 2 * n) × (length d.old ≡ 2 * n) }
    ensures { d.new ≡ tab n (residue_pair (prime m) b v.now) }
{
    let width = b + 1;
    let mut column: usize = 0;
    for j in 0..n {
        slices::store(d, j, residue_pair(m, v, j, column, b));
        column = crate::magnitudes::next_column(column, width);
    }
}
