// The calls of a script that transform nothing: a record, the two readings and the two powers, by their numbers, each answered as three numbers.
ghost use Rattle.std.specs.Prelude.{◌≡◌, List, ℕ, ◌≤◌};
ghost use Rattle.job.specs.Answers.{said, job_after, reply_of};
ghost use Rattle.scripts.specs.Script.{call_said, call_step, call_outcome};

use crate::layout::CallNumbers;
use job::reply::Reply;
use job::{GridPoint, Job, Reflection, reply};
use refusals::Refusal;

#[derive(Clone, Copy)]
pub struct Called {
    pub reply: Reply,
    pub job: Job,
}

// A refused call leaves the job as it was.
pub fn of_answered(job: Job, answer: Result<Job, Refusal>) -> Called
    ensures { (result.reply ≡ reply_of (said answer)) × (result.job ≡ job_after job answer) }
{
    Called {
        reply: reply::of_answer(answer),
        job: answer.unwrap_or(job),
    }
}

pub fn record_call(job: Job, n: CallNumbers, volume: &mut [u32]) -> Called
    requires { n.operation ≡ 0 }
    ensures { (s : List ℕ) →
        call_outcome result volume.new s ≡ call_step job volume.old s (call_said s n) }
{
    of_answered(job, job.record(Reflection(n.h, n.k, n.l), n.x, n.y, volume))
}

// A reading or a power hands no job back: the one that was handed in goes on.
pub fn point_call(job: Job, n: CallNumbers, volume: &[u32]) -> Called
    requires { n.operation ≡ 3 }
    ensures { (s : List ℕ) →
        call_outcome result volume.now s ≡ call_step job volume.now s (call_said s n) }
{
    Called {
        reply: reply::of_point(job.point(GridPoint(n.h, n.k, n.l), volume)),
        job,
    }
}

pub fn factor_call(job: Job, n: CallNumbers, volume: &[u32]) -> Called
    requires { (4 ≤ n.operation) × (n.operation ≡ 5 → ⊥) × (n.operation ≡ 6 → ⊥) }
    ensures { (s : List ℕ) →
        call_outcome result volume.now s ≡ call_step job volume.now s (call_said s n) }
{
    Called {
        reply: reply::of_factor(job.factor(Reflection(n.h, n.k, n.l), volume)),
        job,
    }
}

pub fn map_power_call(job: Job, n: CallNumbers, volume: &[u32]) -> Called
    requires { n.operation ≡ 5 }
    ensures { (s : List ℕ) →
        call_outcome result volume.now s ≡ call_step job volume.now s (call_said s n) }
{
    Called {
        reply: reply::of_power(job.map_power(volume)),
        job,
    }
}

pub fn factor_power_call(job: Job, n: CallNumbers, volume: &[u32]) -> Called
    requires { n.operation ≡ 6 }
    ensures { (s : List ℕ) →
        call_outcome result volume.now s ≡ call_step job volume.now s (call_said s n) }
{
    Called {
        reply: reply::of_power(job.factor_power(volume)),
        job,
    }
}
