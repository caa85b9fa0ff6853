// The reading of a structure factor.
ghost use Rattle.std.specs.Prelude.{◌≡◌};
ghost use Rattle.job.specs.Job.{factor_step};
ghost use Rattle.job.specs.Answers.{said_factor};

use crate::{Job, Reflection};
use cell::operations::Index;
use numbers::Pair;
use refusals::Refusal;

impl Job {
    // The factor at an index anywhere in the cell.
    pub fn factor(self, at: Reflection, volume: &[u32]) -> Result<Pair, Refusal>
        ensures { said_factor result ≡ (factor_step self at volume.now).answer }
    {
        let cell = self.unit_cell();
        let j = Index {
            h: at.0,
            k: at.1,
            l: at.2,
        };
        self.check_factor(j, volume)?;
        Ok(volume::read::factor_at(self.modulus, cell, j, volume))
    }
}
