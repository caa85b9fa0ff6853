// The recording of a structure factor: its value at its index, and the implied values at all images.
ghost use Rattle.std.specs.Prelude.{◌≡◌};
ghost use Rattle.job.specs.Job.{record_step};
ghost use Rattle.job.specs.Answers.{outcome};

use crate::{Job, Reflection};
use cell::operations::Index;
use numbers::Pair;
use refusals::Refusal;

impl Job {
    // The value a + b i goes to its index, and what it implies to the images that are stored.
    pub fn record(
        mut self,
        at: Reflection,
        a: u32,
        b: u32,
        volume: &mut [u32],
    ) -> Result<Job, Refusal>
        ensures { outcome self result volume.new ≡ record_step self at a b volume.old }
    {
        let cell = self.unit_cell();
        let j = Index {
            h: at.0,
            k: at.1,
            l: at.2,
        };
        let x = Pair { re: a, im: b };
        self.check_record(j, x, &volume[..])?;
        volume::record::write_images(self.modulus, cell, j, x, volume);
        Ok(self)
    }
}
