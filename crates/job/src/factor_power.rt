// The power of the factors: the sum of F × conj F over the whole cell, modulo the prime.
ghost use Rattle.std.specs.Prelude.{◌≡◌};
ghost use Rattle.job.specs.Job.{factor_power_step};
ghost use Rattle.job.specs.Answers.{said_power};

use crate::Job;
use refusals::Refusal;

impl Job {
    // It is checked as a synthesis that has scratch enough: it needs none.
    pub fn factor_power(self, volume: &[u32]) -> Result<u32, Refusal>
        ensures { said_power result ≡ (factor_power_step self volume.now).answer }
    {
        self.check_synthesis(volume, 11520)?;
        Ok(power::factor_power(self.modulus, self.unit_cell(), volume))
    }
}
