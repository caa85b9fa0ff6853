// The refusals of the window's call: the number is that of the first test of the paper's order that holds.
ghost use Rattle.std.specs.Prelude.{◌≡◌, ◌+◌, ◌-◌, ◌<◌};
ghost use Rattle.refusals.specs.Refusals.{first};
ghost use Rattle.refusals.specs.Checks.{checked_number};
ghost use Rattle.sliding_window.specs.Window.{window_tests};
ghost use Rattle.sliding_window.specs.Orders.{WindowRefusals};

use refusals::Refusal;

// How many windows of w entries a run has. A window of none, which the call refuses, is counted as the definition counts it.
pub fn window_count(length: usize, w: u32) -> usize
    requires { length < 18446744073709551615 }
    ensures { result ≡ length + 1 - w }
{
    (length + 1).saturating_sub(w as usize)
}

// The refusals, in the paper's order. The outputs count by their lengths alone.
#[tactic(auto, using(refusals::proofs::Tests::refusals))]
pub fn check_window(
    w: u32,
    count: usize,
    least: usize,
    greatest: usize,
    least_at: usize,
    greatest_at: usize,
) -> Result<(), Refusal>
    ensures { checked_number result
        ≡ first (window_tests w count least greatest least_at greatest_at) }
{
    if w == 0 {
        return Err(Refusal::Window);
    }
    if 65 <= w {
        return Err(Refusal::Window);
    }
    if least < count {
        return Err(Refusal::OutputTooShort);
    }
    if greatest < count {
        return Err(Refusal::OutputTooShort);
    }
    if least_at < count {
        return Err(Refusal::OutputTooShort);
    }
    if greatest_at < count {
        return Err(Refusal::OutputTooShort);
    }
    Ok(())
}

// The refusals stand in the papers' order, and 34 is exactly that of a window that is not of 1 to 64 entries.
pub fn refusal_order()
    ensures { WindowRefusals }
{}
