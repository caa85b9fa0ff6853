// Refusal 25: whether an opening or a later call could have made a job. Its modulus is 1 or 2, and its other numbers are tested as a
// header whose lists are the octal digits of the factor numbers.
ghost use Rattle.std.specs.Prelude.{◌≡◌};
ghost use Rattle.job.specs.Job.{valid_job};

use crate::Job;
use header::packed;

// An opening or a later call could have made the job.
pub fn valid_job(job: Job) -> bool
    ensures { result ≡ valid_job job }
{
    if 5 <= job.group {
        return false;
    }
    if !numbers::is_modulus(job.modulus) {
        return false;
    }
    if !packed::valid_header(job.unit_cell(), job.a.factors, job.b.factors, job.c.factors) {
        return false;
    }
    job.state < 3
}
