// A script of calls replayed on a job and a volume: call after call, each on what the one before left, and the answers as numbers.
mod call; // call.rt: one call of a script

ghost use Rattle.std.specs.Prelude.{◌≡◌, ℕ, ◌/◌, min};
ghost use Rattle.model.specs.Model.{Model};
ghost use Rattle.demands.specs.Demands.{Start, Started};
ghost use Rattle.scripts.specs.Script.{replay_outcome, replay_step, model_replay};

use job::Job;

// The job after the calls, and how many numbers of answers were written.
#[derive(Clone, Copy)]
pub struct Replayed {
    pub job: Job,
    pub written: usize,
}

// As many calls as the script has whole and the output has room to answer.
fn call_count(script: usize, answers: usize) -> usize
    ensures { result ≡ min (script / 6) (answers / 3) }
{
    let calls = script / 6;
    let room = answers / 3;
    if calls < room {
        return calls;
    }
    room
}

// Any job, script, volume, scratch and output. From an accepted opening or file on, what is answered and left is the reference model's.
pub fn replay(
    job: Job,
    script: &[u32],
    volume: &mut [u32],
    scratch: &mut [u32],
    answers: &mut [i64],
) -> Replayed
    ensures answers_after { replay_outcome result volume.new scratch.new answers.new
        ≡ replay_step job script.now volume.old scratch.old
        answers.old }
    ensures by_index { (μ : ℕ) (s : Start μ) (m : Model μ) →
        Started s job volume.old m →
        replay_outcome result volume.new
        scratch.new answers.new
        ≡ model_replay m script.now scratch.old answers.old }
{
    let count = call_count(script.len(), answers.len());
    let mut held = job;
    for i in 0..count {
        let called = call::call_at(held, script, i, volume, scratch);
        crate::layout::write_reply(answers, i, called.reply);
        held = called.job;
    }
    Replayed {
        job: held,
        written: 3 * count,
    }
}
