// The reading of a point of the map.
ghost use Rattle.std.specs.Prelude.{◌≡◌};
ghost use Rattle.job.specs.Job.{point_step};
ghost use Rattle.job.specs.Answers.{said_point};

use crate::{GridPoint, Job};
use cell::operations::Point;
use cell::places;
use refusals::Refusal;

impl Job {
    // The density at a point anywhere in the cell, with its sign.
    pub fn point(self, at: GridPoint, volume: &[u32]) -> Result<i32, Refusal>
        ensures { said_point result ≡ (point_step self at volume.now).answer }
    {
        let cell = self.unit_cell();
        let point = Point {
            x: at.0,
            y: at.1,
            z: at.2,
        };
        self.check_point(point, volume)?;
        let place = places::density_place(cell, point);
        Ok(signed::centre(numbers::modulus(self.modulus), volume[place]))
    }
}
