// The combined map of two jobs: two maps of one cell, one for each prime, become one of signed whole numbers.
#![tactic(auto)]

pub mod check; // check.rt: the refusals

ghost use Rattle.std.specs.Prelude.{◌≡◌};
ghost use Rattle.combining.specs.Combining.{combine_step};
ghost use Rattle.combining.specs.Answers.{combine_outcome};
ghost use Rattle.combining.specs.Points.{CombinedPoints, CombinedRestores};

use job::Job;
use refusals::Refusal;

// Each number of the output becomes the only whole number from -13,063,485,600 to 13,063,485,600 that has both maps' residues. The
// answer is how many numbers there are, or a refusal, which leaves the output as it was.
pub fn combine_maps(
    first: Job,
    first_map: &[u32],
    second: Job,
    second_map: &[u32],
    output: &mut [i64],
) -> Result<usize, Refusal>
    ensures { combine_outcome result output.new
        ≡ combine_step first first_map.now second second_map.now
        output.old }
{
    let count = output.len();
    crate::check::check_maps(first, first_map, second, second_map, count)?;
    combined::chinese::combine_all(first_map, second_map, output);
    Ok(count)
}

// At every point of the cell the output has the only whole number within the limit that is congruent to both jobs' readings; a cell
// of whole numbers within the limit is restored from its residues. The function does nothing: it is there for its promise.
pub fn combined_points()
    ensures { CombinedPoints × CombinedRestores }
{}
