// Factor lists: the factors of a length, 2 to 5 each, packed as octal digits with the first factor lowest (specs/Lengths.antt).
//
// A length is the product of its list. The plain transform has a step for each factor and comes from stage to stage by them (specs/Stages.antt).
ghost use Rattle.std.specs.Prelude.{◌≡◌, ◌<◌};
ghost use Rattle.lengths.specs.Lengths.{octal, octal_digits, doubled_list};
ghost use Rattle.lengths.specs.Stages.{after, Ahead};

// A stage of a transform: the factors that are left, the product of those that are done, and the number of lines, which is the product of those
// that are left.
#[derive(Clone, Copy)]
pub struct Stage {
    pub left: u32,
    pub inner: usize,
    pub lines: usize,
}

// The stage after the step of the next factor.
pub fn next(at: Stage) -> Stage
    requires { Ahead at }
    ensures { result ≡ after at }
{
    let outer = (at.left % 8) as usize;
    let longer = at.inner * outer;
    Stage {
        left: at.left / 8,
        inner: longer,
        lines: at.lines / outer,
    }
}

// The list of twice the length (`doubled_list`): its first 2 becomes a 4, or, where it has none, a 2 is added at its end.
pub fn doubled(factors: u32) -> u32
    requires { factors < 16777216 }
    ensures { result ≡ octal (doubled_list (octal_digits factors)) }
{
    let mut left = factors;
    let mut place = 1;
    // no index is counted: the number itself says when its digits end
    while left != 0 {
        if left % 8 == 2 {
            return factors + 2 * place;
        }
        left = left / 8;
        place = place * 8;
    }
    factors + 2 * place
}
