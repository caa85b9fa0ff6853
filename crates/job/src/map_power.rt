// The power of a map: the sum of its squares over the whole cell, modulo the prime.
ghost use Rattle.std.specs.Prelude.{◌≡◌};
ghost use Rattle.job.specs.Job.{map_power_step};
ghost use Rattle.job.specs.Answers.{said_power};

use crate::Job;
use refusals::Refusal;

impl Job {
    // It is checked as an analysis that has scratch enough: it needs none.
    pub fn map_power(self, volume: &[u32]) -> Result<u32, Refusal>
        ensures { said_power result ≡ (map_power_step self volume.now).answer }
    {
        self.check_analysis(volume, 11520)?;
        Ok(power::map_power(self.modulus, self.unit_cell(), volume))
    }
}
