// A scheduler and a job by their numbers: those of a lane are its lines left and the nine of its job, those of a scheduler the ten of each
// lane and the last lane served.
ghost use Rattle.std.specs.Prelude.{◌≤◌};

use job::{Axis, Job};
use scheduler::{Lane, Scheduler};

// The job at a place of a list, whether or not any opening could have made it.
pub fn job_at(r: &[u32], i: usize) -> Job
    requires { i ≤ 81 }
{
    Job {
        group: test_io::at(r, i),
        modulus: test_io::at(r, i + 1),
        a: axis_at(r, i + 2),
        b: axis_at(r, i + 4),
        c: axis_at(r, i + 6),
        state: test_io::at(r, i + 8),
    }
}

fn axis_at(r: &[u32], i: usize) -> Axis
    requires { i ≤ 87 }
{
    Axis {
        length: test_io::at(r, i),
        factors: test_io::at(r, i + 1),
    }
}

// The scheduler of the first 81 numbers, whether or not any calls could have left it.
pub fn scheduler_in(r: &[u32]) -> Scheduler {
    let mut s = Scheduler::new();
    for i in 0..8 {
        s.lanes[i] = Lane {
            left: test_io::at(r, 10 * i),
            job: job_at(r, 10 * i + 1),
        };
    }
    s.last = test_io::at(r, 80);
    s
}

// Its numbers at the first 81 places.
pub fn put_scheduler(s: Scheduler, r: &mut [u32]) {
    for i in 0..8 {
        let lane = s.lanes[i as usize];
        test_io::put_at(r, 10 * i, lane.left);
        put_job(lane.job, 10 * i + 1, r);
    }
    test_io::put_at(r, 80, s.last);
}

// A job's numbers from a place on.
fn put_job(j: Job, i: u32, r: &mut [u32])
    requires { i ≤ 81 }
{
    test_io::put_at(r, i, j.group);
    test_io::put_at(r, i + 1, j.modulus);
    put_axis(j.a, i + 2, r);
    put_axis(j.b, i + 4, r);
    put_axis(j.c, i + 6, r);
    test_io::put_at(r, i + 8, j.state);
}

fn put_axis(a: Axis, i: u32, r: &mut [u32])
    requires { i ≤ 87 }
{
    test_io::put_at(r, i, a.length);
    test_io::put_at(r, i + 1, a.factors);
}

pub fn job_checksum(j: Job) -> u32 {
    let mut numbers = [0u32; 9];
    put_job(j, 0, &mut numbers);
    test_io::checksum(&numbers)
}

// All its numbers are 0: what stands for the job where a call gives none.
pub fn no_job() -> Job {
    let none = [0u32; 9];
    job_at(&none, 0)
}
