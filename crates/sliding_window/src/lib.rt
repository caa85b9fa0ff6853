// The drift of a crystal: over a run of scores, the least and the greatest of every w neighbouring entries, and the first place of each.
//
// A window moves over the run one entry at a time. The work is the same for every w: `extremes` takes w windows at a time.
#![tactic(auto)]

pub mod check; // check.rt
pub mod extremes; // extremes.rt
pub mod order; // order.rt

ghost use Rattle.std.specs.Prelude.{◌≡◌};
ghost use Rattle.sliding_window.specs.Window.{window_step};
ghost use Rattle.sliding_window.specs.Answers.{window_outcome};
ghost use Rattle.sliding_window.specs.FirstBest.{FirstBest, EachWindow};

use refusals::Refusal;

// The least and the greatest score of each window of w entries, and the first places of both, counted in the run; the answer is how
// many windows there are, or a refusal.
pub fn window_extremes(
    run: &[i64],
    w: u32,
    least: &mut [i64],
    greatest: &mut [i64],
    least_at: &mut [u64],
    greatest_at: &mut [u64],
) -> Result<usize, Refusal>
    ensures { window_outcome result least.exit.now greatest.new least_at.new
        greatest_at.new
        ≡ window_step run.now w (record {
          least = least.entry.now;
          greatest = greatest.old;
          place_of_least = least_at.old;
          place_of_greatest = greatest_at.old;
        }) }
{
    let count = crate::check::window_count(run.len(), w);
    crate::check::check_window(
        w,
        count,
        least.len(),
        greatest.len(),
        least_at.len(),
        greatest_at.len(),
    )?;
    let size = w as usize;
    crate::extremes::extremes(false, run, size, count, least, least_at);
    crate::extremes::extremes(true, run, size, count, greatest, greatest_at);
    Ok(count)
}

// The place of each window is the first one of its best score: in the window, beaten by no score there, and better than every earlier one.
pub fn first_best()
    ensures { FirstBest × EachWindow }
{}
