// One call of a script: its six numbers told apart by the first, the job's call that they stand for, and the answer as three numbers.
ghost use Rattle.std.specs.Prelude.{◌≡◌, ◌+◌, ◌*◌, ◌≤◌, length};
ghost use Rattle.scripts.specs.Script.{synthesis, analysis, call_at, call_step, call_outcome};

use crate::calls::Called;
use job::Job;

// The call number i of a script.
pub fn call_at(
    job: Job,
    script: &[u32],
    i: usize,
    volume: &mut [u32],
    scratch: &mut [u32],
) -> Called
    requires { 6 * i + 6 ≤ length script.now }
    ensures { call_outcome result volume.new scratch.new
        ≡ call_step job volume.old scratch.old
        (call_at scratch.old script.now i) }
{
    let numbers = crate::layout::numbers_at(script, i);
    let operation = numbers.operation;
    match operation {
        0 => return crate::calls::record_call(job, numbers, volume),
        1 => return synthesis_call(job, volume, scratch),
        2 => return analysis_call(job, volume, scratch),
        3 => return crate::calls::point_call(job, numbers, &volume[..]),
        5 => return crate::calls::map_power_call(job, numbers, &volume[..]),
        6 => return crate::calls::factor_power_call(job, numbers, &volume[..]),
        _ => return crate::calls::factor_call(job, numbers, &volume[..]),
    }
}

fn synthesis_call(job: Job, volume: &mut [u32], scratch: &mut [u32]) -> Called
    ensures { call_outcome result volume.new scratch.new
        ≡ call_step job volume.old scratch.old (synthesis scratch.old) }
{
    crate::calls::of_answered(job, job.synthesis(volume, scratch))
}

fn analysis_call(job: Job, volume: &mut [u32], scratch: &mut [u32]) -> Called
    ensures { call_outcome result volume.new scratch.new
        ≡ call_step job volume.old scratch.old (analysis scratch.old) }
{
    crate::calls::of_answered(job, job.analysis(volume, scratch))
}
