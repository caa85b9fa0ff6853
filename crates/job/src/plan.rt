// What is to be done with the volume of a job: its numbers, as the lines of a volume take them.
ghost use Rattle.std.specs.Prelude.{◌≡◌};
ghost use Rattle.job.specs.Plans.{plan_of};

use crate::Job;
use volume_transform::plan::Plan;

// Direction 0 for a synthesis, 1 for an analysis.
pub fn plan_of(job: Job, direction: u32) -> Plan
    ensures { result ≡ plan_of job direction }
{
    Plan {
        m: job.modulus,
        direction,
        cell: job.unit_cell(),
        f1: job.a.factors,
        f2: job.b.factors,
        f3: job.c.factors,
    }
}
