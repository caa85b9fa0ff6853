// Synthesis: from the structure factors of a job to its map.
ghost use Rattle.std.specs.Prelude.{◌≡◌};
ghost use Rattle.job.specs.Job.{synthesis_step};
ghost use Rattle.job.specs.Answers.{worked};

use crate::{Job, plan};
use refusals::Refusal;

impl Job {
    // The factors that the volume holds become the map that they stand for; a refused call changes nothing.
    pub fn synthesis(mut self, volume: &mut [u32], scratch: &mut [u32]) -> Result<Job, Refusal>
        ensures { worked self result volume.new scratch.new
            ≡ synthesis_step self volume.old scratch.old }
    {
        self.check_synthesis(&volume[..], scratch.len())?;
        volume_transform::transform_volume(plan::plan_of(self, 0), volume, scratch);
        self.state = 2;
        Ok(self)
    }
}
