// A set of small numbers in a lent slice of words: number q is in the set if bit q % 64 of word q / 64 is 1.
#![tactic(auto)]

ghost use Rattle.std.specs.Prelude.{◌≡◌, ◌*◌, ◌<◌, length};
ghost use Rattle.bits.specs.Set.{in_set, Inserted};

// Whether q was in the set; afterwards it is.
pub fn insert(set: &mut [u64], q: usize) -> bool
    requires { q < 64 * length set.old }
    ensures { (result ≡ in_set set.old q) × Inserted q set.old set.new }
{
    let word = q / 64;
    let bit = (q % 64) as u64;
    let old = set[word];
    if (old >> bit) % 2 == 1 {
        return true;
    }
    set[word] = old + (1 << bit);
    false
}
