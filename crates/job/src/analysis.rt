// Analysis: from the map of a job to its structure factors.
ghost use Rattle.std.specs.Prelude.{◌≡◌};
ghost use Rattle.job.specs.Job.{analysis_step};
ghost use Rattle.job.specs.Answers.{worked};

use crate::{Job, plan};
use refusals::Refusal;

impl Job {
    // The map that the volume holds becomes its factors; a refused call changes nothing.
    pub fn analysis(mut self, volume: &mut [u32], scratch: &mut [u32]) -> Result<Job, Refusal>
        ensures { worked self result volume.new scratch.new
            ≡ analysis_step self volume.old scratch.old }
    {
        self.check_analysis(&volume[..], scratch.len())?;
        volume_transform::transform_volume(plan::plan_of(self, 1), volume, scratch);
        self.state = 1;
        Ok(self)
    }
}
