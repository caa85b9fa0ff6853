// The opening of a job: to collect records in a volume that is zeroed, or with a volume that is a map.
ghost use Rattle.std.specs.Prelude.{◌≡◌, true, ◌≤◌};
ghost use Rattle.lengths.specs.Lengths.{product, octal, factors_ok};
ghost use Rattle.refusals.specs.Refusals.{first};
ghost use Rattle.job.specs.Job.{cell_header, axis_tests, job_of, open_step};
ghost use Rattle.job.specs.Answers.{open_outcome};

use crate::{Axis, Job};
use cell::operations::UnitCell;
use refusals::Refusal;

// An axis of a job: the list goes on as octal digits.
fn axis(length: u32, factors: &[u8]) -> Axis
    requires { (factors_ok factors.now ≡ true) × (product factors.now ≤ 1440) }
    ensures { result ≡ record { length = length; factors = octal factors.now } }
{
    Axis {
        length,
        factors: lengths::packed(factors),
    }
}

// The job of a modulus number and a header that no test refuses.
fn opened(modulus: u32, cell: UnitCell, f1: &[u8], f2: &[u8], f3: &[u8], state: u32) -> Job
    requires { 0 ≡ first (axis_tests (cell_header cell f1.now f2.now f3.now)) }
    ensures { result
        ≡ job_of modulus (cell_header cell f1.now f2.now f3.now) state }
{
    Job {
        group: cell.group,
        modulus,
        a: axis(cell.n1, f1),
        b: axis(cell.n2, f2),
        c: axis(cell.n3, f3),
        state,
    }
}

// Kind 0 zeroes the volume and collects, kind 1 takes it as a map.
pub fn open(
    group: u32,
    modulus: u32,
    kind: u32,
    n1: u32,
    n2: u32,
    n3: u32,
    f1: &[u8],
    f2: &[u8],
    f3: &[u8],
    volume: &mut [u32],
) -> Result<Job, Refusal>
    ensures { open_outcome result volume.new
        ≡ open_step modulus
        (record {
          group = group;
          lengths = (n1, n2, n3);
          list1 = f1.now;
          list2 = f2.now;
          list3 = f3.now;
        }) kind
        volume.old }
{
    let cell = UnitCell { group, n1, n2, n3 };
    crate::check::open::check_open(modulus, cell, kind, f1, f2, f3, &volume[..])?;
    if kind == 0 {
        slices::buffers::zero(volume);
        Ok(opened(modulus, cell, f1, f2, f3, 0))
    } else {
        Ok(opened(modulus, cell, f1, f2, f3, 2))
    }
}
