// The numbers of a script: where the six numbers of a call are read, and where the three numbers of its answer are written.
ghost use Rattle.std.specs.Prelude.{◌≡◌, ◌++◌, ◌+◌, ◌*◌, ◌≤◌, length, take, drop};
ghost use Rattle.scripts.specs.Script.{numbers_at, reply_numbers};

use job::reply::Reply;

// A call as numbers: its operation, three of an index or a point, two of a value.
#[derive(Clone, Copy)]
pub struct CallNumbers {
    pub operation: u32,
    pub h: u32,
    pub k: u32,
    pub l: u32,
    pub x: u32,
    pub y: u32,
}

// The numbers of call i.
pub fn numbers_at(script: &[u32], i: usize) -> CallNumbers
    requires { 6 * i + 6 ≤ length script.now }
    ensures { result ≡ numbers_at script.now i }
{
    let at = 6 * i;
    CallNumbers {
        operation: script[at],
        h: script[at + 1],
        k: script[at + 2],
        l: script[at + 3],
        x: script[at + 4],
        y: script[at + 5],
    }
}

// The answer number i goes to its three places.
pub fn write_reply(answers: &mut [i64], i: usize, reply: Reply)
    requires { 3 * i + 3 ≤ length answers.old }
    ensures { answers.new ≡ take (3 * i) answers.old ++ reply_numbers reply
        ++ drop (3 * i + 3) answers.old }
{
    let at = 3 * i;
    let number = reply.number as i64;
    let x = reply.x;
    let y = reply.y;
    answers[at] = number;
    answers[at + 1] = x;
    answers[at + 2] = y;
}
