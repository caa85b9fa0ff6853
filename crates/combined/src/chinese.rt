// The Chinese remainder theorem: two residues, one modulo each prime, as the whole number next to zero that has both.
ghost use Rattle.std.specs.Prelude.{◌≡◌, ◌<◌, length};
ghost use Rattle.signed.specs.Integers.{centred};
ghost use Rattle.slices.specs.Pairs.{Below};
ghost use Rattle.combined.specs.Chinese.{combined, combined_numbers, CombinedOnly};

// The whole number next to zero that is congruent to n modulo 86,399 * 302,399.
fn nearest(n: u64) -> i64
    requires { n < 26126971201 }
    ensures { result ≡ centred 26126971201 n }
{
    if n <= 13063485600 {
        n as i64
    } else {
        (n as i64) - 26126971201
    }
}

// The whole number next to zero with the residues x modulo 86,399 and y modulo 302,399. No product here reaches 2^37.
pub fn combine(x: u32, y: u32) -> i64
    requires { (x < 86399) × (y < 302399) }
    ensures { result ≡ combined x y }
{
    let a = x as u64;
    let b = y as u64;
    nearest(a + 86399 * ((b + 302399 - a) * 181438 % 302399))
}

// Two lists of residues, one modulo each prime, number by number.
pub fn combine_all(first: &[u32], second: &[u32], output: &mut [i64])
    requires below { Below 86399 first.now × Below 302399 second.now }
    requires second_len { (length second.now ≡ length first.now) × (length output.old ≡ length first.now) }
    ensures { output.new ≡ combined_numbers first.now second.now }
{
    for (n, number) in output.iter_mut().enumerate() {
        *number = combine(first[n], second[n]);
    }
}

// What `combined` gives has both residues and is within the half range, and no other whole number is both. The function does
// nothing: it is there for its promise.
pub fn combined_only()
    ensures { CombinedOnly }
{}
