// Which of two scores is the better: the less where the least is sought, the greater where the greatest is.
ghost use Rattle.std.specs.Prelude.{◌≡◌, ◌<◌, length};
ghost use Rattle.sliding_window.specs.Window.{beats, better_of};

// y is better than x.
pub fn is_better(greatest: bool, y: i64, x: i64) -> bool
    ensures { result ≡ beats greatest y x }
{
    if greatest { x < y } else { y < x }
}

// The better of two places of a run: the first where the scores are equal.
pub fn better(greatest: bool, run: &[i64], a: usize, b: usize) -> usize
    requires { (a < length run.now) × (b < length run.now) }
    ensures { result ≡ better_of greatest run.now a b }
{
    let later = is_better(greatest, run[b], run[a]);
    if later { b } else { a }
}
