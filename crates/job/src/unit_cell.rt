// The unit cell of a job.
ghost use Rattle.std.specs.Prelude.{◌≡◌};
ghost use Rattle.job.specs.Job.{job_cell};

use crate::Job;
use cell::operations::UnitCell;

impl Job {
    // The job's group and the lengths of its axes.
    pub fn unit_cell(self) -> UnitCell
        ensures { result ≡ job_cell self }
    {
        UnitCell {
            group: self.group,
            n1: self.a.length,
            n2: self.b.length,
            n3: self.c.length,
        }
    }
}
