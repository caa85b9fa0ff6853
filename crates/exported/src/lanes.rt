// What the calls of a scheduler answer, as numbers, for programs in C: crate exported passes them on.
//
// A lane is 1 to 8; 0 stands for none, where no lane runs and in a refused call.
ghost use Rattle.std.specs.Prelude.{◌≡◌, []};
ghost use Rattle.scheduler.specs.Answers.{said_lane, scheduler_after, said_next, said_turn, turn_outcome};
ghost use Rattle.exported.specs.Answers.{no_job};
ghost use Rattle.exported.specs.Lanes.{next_coded, stepped_coded, turned_coded, turn_coded};

use job::Job;
use refusals::Refusal;
use scheduler::{Progress, Scheduler, Turned};

// The lane that the next turn serves.
#[repr(C)]
#[derive(Clone, Copy)]
pub struct NextCoded {
    pub number: u32,
    pub lane: u32,
}

// The answer of entering and of withdrawing.
#[repr(C)]
#[derive(Clone, Copy)]
pub struct LaneCoded {
    pub number: u32,
    pub scheduler: Scheduler,
}

// The answer of a turn: the lane that it served, whether it was its last, 1 or 0, and then the job, map held.
#[repr(C)]
#[derive(Clone, Copy)]
pub struct TurnCoded {
    pub number: u32,
    pub lane: u32,
    pub finished: u32,
    pub job: Job,
    pub scheduler: Scheduler,
}

impl From<Result<Option<u32>, Refusal>> for NextCoded {
    ghost from_gives = { λ a c. c ≡ next_coded (said_next a) };

    fn from(answer: Result<Option<u32>, Refusal>) -> NextCoded {
        match answer {
            Ok(Some(lane)) => NextCoded { number: 0, lane },
            Ok(None) => NextCoded { number: 0, lane: 0 },
            Err(refusal) => NextCoded {
                number: refusals::number_of(refusal),
                lane: 0,
            },
        }
    }
}

impl LaneCoded {
    // A refused call leaves the scheduler as it was held.
    pub fn answered(held: Scheduler, answer: Result<Scheduler, Refusal>) -> LaneCoded
        ensures { result ≡ stepped_coded (said_lane answer) (scheduler_after held answer) }
    {
        match answer {
            Ok(scheduler) => LaneCoded {
                number: 0,
                scheduler,
            },
            Err(refusal) => LaneCoded {
                number: refusals::number_of(refusal),
                scheduler: held,
            },
        }
    }
}

impl TurnCoded {
    pub fn answered(held: Scheduler, answer: Result<Turned, Refusal>) -> TurnCoded
        ensures { result ≡ (turn_coded (turn_outcome held answer [] [])).0 }
    {
        match answer {
            Ok(turned) => turned_coded(turned.progress, turned.scheduler),
            Err(refusal) => unfinished(refusals::number_of(refusal), 0, held),
        }
    }
}

fn turned_coded(progress: Progress, scheduler: Scheduler) -> TurnCoded
    ensures { result ≡ turned_coded (said_turn progress) scheduler }
{
    match progress {
        Progress::Idle => unfinished(0, 0, scheduler),
        Progress::Served(lane) => unfinished(0, lane, scheduler),
        Progress::Finished(lane, job) => TurnCoded {
            number: 0,
            lane,
            finished: 1,
            job,
            scheduler,
        },
    }
}

// A turn that gives no job.
fn unfinished(number: u32, lane: u32, scheduler: Scheduler) -> TurnCoded
    ensures { result
        ≡ record { number = number; lane = lane; finished = 0; job = no_job; scheduler = scheduler } }
{
    TurnCoded {
        number,
        lane,
        finished: 0,
        job: crate::answers::no_job(),
        scheduler,
    }
}
