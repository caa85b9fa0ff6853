// The formulas of the folds: each folded kind of line is transformed by a plain transform of half its length, with a pass before it and
// a pass after it (crate `folds`). Here are the formulas of one pair, and what all kinds share.
//
// A line of N = 2 A values is lent packed, as its kind says. The ends of a line (the pair 0, the middle) have formulas of their own.
// The forms are those of document 001, proved equal to the direct sums in crate `line`.
#![tactic(auto)]

pub mod alternating; // alternating.rt
pub mod hermitian; // hermitian.rt
pub mod mirror; // mirror.rt

ghost use Rattle.std.specs.Prelude.{◌≡◌, ◌*◌, ◌<◌, ◌≤◌};
ghost use Rattle.numbers.specs.Value.{prime, IsModulus, part};

// 1/N, by which the inverse of every folded line is multiplied: N = 2 A is the length of the line, not that of the short transform.
pub fn share(m: u32, a: usize) -> u32
    requires { IsModulus m × (0 < a) × (a ≤ 1440) }
    ensures { (result ≡ (part m (2 * a)).val) × (result < prime m) }
{
    numbers::reciprocals::reciprocal(m, (2 * a) as u32)
}
