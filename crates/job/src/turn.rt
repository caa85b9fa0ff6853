// One line of a synthesis, in a turn of its own.
ghost use Rattle.std.specs.Prelude.{◌≡◌, true, ◌<◌, ◌≤◌};
ghost use Rattle.job.specs.Job.{valid_job};
ghost use Rattle.job.specs.Turns.{lines_of, turn_step};
ghost use Rattle.job.specs.Answers.{turn_outcome};

use crate::check::tests;
use crate::{Job, plan};
use refusals::Refusal;

impl Job {
    // How many lines the job has, along the three axes.
    pub fn line_count(self) -> usize
        requires { valid_job self ≡ true }
        ensures { (result ≡ lines_of self) × (result ≤ 16594560) }
    {
        let counts = volume_transform::axis_lines::line_counts(plan::plan_of(self, 0));
        counts.l + counts.h + counts.k
    }

    // Line n is transformed in its place; a refused turn changes nothing. Only the numbers of that line are looked at.
    pub fn turn(self, n: usize, volume: &mut [u32], scratch: &mut [u32]) -> Result<(), Refusal>
        requires { (valid_job self ≡ true) × (n < lines_of self) }
        ensures { turn_outcome result volume.new scratch.new
            ≡ turn_step self n volume.old scratch.old }
    {
        if !tests::fits(self.unit_cell(), &volume[..]) {
            return Err(Refusal::BufferLength);
        }
        if scratch.len() < 11520 {
            return Err(Refusal::ScratchTooShort);
        }
        let plan = plan::plan_of(self, 0);
        let counts = volume_transform::axis_lines::line_counts(plan);
        let line = volume_transform::numbering::line_in_turn(plan, counts, n);
        if !volume_transform::one_line::turn_alone(line, volume, scratch) {
            return Err(Refusal::NotResidue);
        }
        Ok(())
    }
}
