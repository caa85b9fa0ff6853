// What a call of a job answers, as three numbers: the refusal's number or 0, then the density and 0, or the two numbers of the factor, or
// the power and 0, or twice 0. A density has a sign; 64 bits hold it and every residue.
ghost use Rattle.std.specs.Prelude.{◌≡◌};
ghost use Rattle.refusals.specs.Refusals.{number_of};
ghost use Rattle.job.specs.Job.{refused};
ghost use Rattle.job.specs.Answers.{said, said_point, said_factor, said_power, reply_of};

use crate::Job;
use numbers::Pair;
use refusals::Refusal;

#[derive(Clone, Copy)]
pub struct Reply {
    pub number: u32,
    pub x: i64,
    pub y: i64,
}

pub fn of_answer(answer: Result<Job, Refusal>) -> Reply
    ensures { result ≡ reply_of (said answer) }
{
    match answer {
        Ok(_) => Reply {
            number: 0,
            x: 0,
            y: 0,
        },
        Err(refusal) => of_refusal(refusal),
    }
}

pub fn of_point(answer: Result<i32, Refusal>) -> Reply
    ensures { result ≡ reply_of (said_point answer) }
{
    match answer {
        Ok(x) => Reply {
            number: 0,
            x: x as i64,
            y: 0,
        },
        Err(refusal) => of_refusal(refusal),
    }
}

pub fn of_factor(answer: Result<Pair, Refusal>) -> Reply
    ensures { result ≡ reply_of (said_factor answer) }
{
    match answer {
        Ok(x) => Reply {
            number: 0,
            x: x.re as i64,
            y: x.im as i64,
        },
        Err(refusal) => of_refusal(refusal),
    }
}

pub fn of_power(answer: Result<u32, Refusal>) -> Reply
    ensures { result ≡ reply_of (said_power answer) }
{
    match answer {
        Ok(x) => Reply {
            number: 0,
            x: x as i64,
            y: 0,
        },
        Err(refusal) => of_refusal(refusal),
    }
}

fn of_refusal(refusal: Refusal) -> Reply
    ensures { result ≡ reply_of (refused (number_of refusal)) }
{
    Reply {
        number: refusals::number_of(refusal),
        x: 0,
        y: 0,
    }
}
