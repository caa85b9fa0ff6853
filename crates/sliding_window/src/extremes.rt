// The best of every window of a run, by van Herk's method of blocks: three comparisons an entry, whatever the window's length.
ghost use Rattle.std.specs.Prelude.{◌≡◌, ◌+◌, ◌-◌, ◌≤◌, ◌<◌, length};
ghost use Rattle.slices.specs.Filling.{stores};
ghost use Rattle.sliding_window.specs.Window.{best_of, best_score, filled_by, window_count};
ghost use Rattle.sliding_window.specs.Blocks.{Suffixes, Block};

use crate::order::better;

// The best scores of `count` windows and their places, at the first places of two outputs.
pub fn extremes(
    greatest: bool,
    run: &[i64],
    w: usize,
    count: usize,
    scores: &mut [i64],
    places: &mut [u64],
)
    requires { (1 ≤ w)
        × (w ≤ 64)
        × (count ≤ window_count run.now w)
        × (count ≤ length scores.old)
        × (count ≤ length places.old) }
    ensures scores_after { scores.new
        ≡ filled_by (λ j. best_score greatest run.now j w) count scores.old }
    ensures places_after { places.new
        ≡ filled_by (λ j. best_of greatest run.now j w) count places.old }
{
    let mut best = [0usize; 64];
    // What is left is counted down: from `count - start` the compiler does not see that a block of one entry has one window, and those
    // runs take three quarters more.
    let mut left = count;
    for start in (0..count).step_by(w) {
        let size = w.min(left);
        suffixes(greatest, run, start, w, &mut best);
        windows(greatest, run, start, w, size, &best, scores, places);
        left -= size;
    }
}

// The windows of a block: each is the better of its stretch inside the block and of what lies from the block's last entry on.
fn windows(
    greatest: bool,
    run: &[i64],
    start: usize,
    w: usize,
    size: usize,
    best: &[usize],
    scores: &mut [i64],
    places: &mut [u64],
)
    requires { Block run.now start w size
        × Suffixes greatest run.now start w 0 best.now
        × (start + size ≤ length scores.old)
        × (start + size ≤ length places.old) }
    ensures scores_after { scores.new
        ≡ stores (λ r. start + r) (λ r. best_score greatest run.now (start + r) w) size
        scores.old }
    ensures places_after { places.new
        ≡ stores (λ r. start + r) (λ r. best_of greatest run.now (start + r) w) size
        places.old }
{
    let end = start + (w - 1);
    let mut ahead = end;
    for r in 0..size {
        ahead = better(greatest, run, ahead, end + r);
        let place = better(greatest, run, best[r], ahead);
        scores[start + r] = run[place];
        places[start + r] = place as u64;
    }
}

// The best places of the stretches of a block that end with it.
fn suffixes(greatest: bool, run: &[i64], start: usize, w: usize, best: &mut [usize])
    requires { (1 ≤ w) × (w ≤ 64) × (start + w ≤ length run.now) × (length best.old ≡ 64) }
    ensures { Suffixes greatest run.now start w 0 best.new }
{
    best[w - 1] = start + (w - 1);
    for t in (0..w - 1).rev() {
        best[t] = better(greatest, run, start + t, best[t + 1]);
    }
}
