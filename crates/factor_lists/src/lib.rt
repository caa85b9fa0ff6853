// The factor list of a length, chosen: for a caller who has no list of his own.
//
// No transform depends on the list, so any will do. This one has as few factors as can be, 4 before the others.
#![tactic(auto)]

ghost use Rattle.std.specs.Prelude.{◌≡◌, ◌≤◌, length};
ghost use Rattle.lengths.specs.Lengths.{product};
ghost use Rattle.output.specs.Written.{Wrote};
ghost use Rattle.output.specs.Answers.{fill_outcome};
ghost use Rattle.factor_lists.specs.Chosen.{next_factor, factored, list_step, ChosenLists};

use refusals::Refusal;

// The list goes to the output's first places, or the call is refused and changes nothing.
pub fn factor_list(length: u32, out: &mut [u8]) -> Result<usize, Refusal>
    ensures { fill_outcome result out.new ≡ list_step length out.old }
{
    if !lengths::admitted(length) {
        return Err(Refusal::Length);
    }
    let half = length / 2;
    if out.len() < count_factors(half) {
        return Err(Refusal::OutputTooShort);
    }
    Ok(put_factors(half, out))
}

// How many there are: a byte beyond the output is counted and not stored.
fn count_factors(n: u32) -> usize
    requires { product (factored 8 n) ≡ n }
    ensures { result ≡ length (factored 8 n) }
{
    let mut small = [0u8; 1];
    put_factors(n, &mut small)
}

// A factor after the other, each taken off what is left.
fn put_factors(n: u32, out: &mut [u8]) -> usize
    requires { product (factored 8 n) ≡ n }
    ensures { Wrote 0 (factored 8 n) out.old result out.new }
{
    let mut at = 0;
    let mut rest = n;
    // A `while`: what is left of the number says when its factors end.
    while 1 < rest {
        let factor = next_factor(rest);
        at = output::put_byte(out, at, factor as u8);
        rest /= factor;
    }
    at
}

// 4 where it goes into n, else 5, else 3, else 2.
#[tactic(auto, unfolding(crate::specs::Chosen::next_factor))]
fn next_factor(n: u32) -> u32
    ensures { (result ≡ next_factor n) × (2 ≤ result) × (result ≤ 5) }
{
    if n % 4 == 0 {
        4
    } else if n % 5 == 0 {
        5
    } else if n % 3 == 0 {
        3
    } else {
        2
    }
}

// Every chosen list is a factor list of its length, and none is shorter. The function does nothing; its promise is the statement.
pub fn chosen_lists()
    ensures { ChosenLists }
{}
