// The numbers of one lane: a factor times a value, and the outer sums of 3 to 5 values, the real parts and the
// imaginary ones by the same formulas.
//
// A sum of values has one formula for both parts, but for the quarter turn of a difference, i (x - y): its real part
// is y.im - x.im, and its imaginary part x.re - y.re. It is handed on as a number. o is 8 p, a zero that no number
// that is taken away exceeds.
//
// No function here takes or gives a struct of two numbers of 32 bits: the compiler would carry it as one number of
// 64, and undo that in every lane.
ghost use Rattle.std.specs.Prelude.{◌≡◌, cond, get_or, length, ◌+◌, ◌*◌, ◌-◌, ◌<◌, ◌≤◌};
ghost use Rattle.numbers.specs.Value.{prime, IsModulus};
ghost use Rattle.batches.specs.Reduction.{Divided, Held, factor_at};
ghost use Rattle.batches.specs.Formulas.{ThreeOf, FourOf, FiveOf};

// A power of the root times 2^32: its parts, and minus the imaginary one.
#[derive(Clone, Copy)]
pub struct Factor {
    pub re: u32,
    pub im: u32,
    pub minus: u32,
}

#[derive(Clone, Copy)]
pub struct Three {
    pub x0: u32,
    pub x1: u32,
    pub x2: u32,
}

#[derive(Clone, Copy)]
pub struct Four {
    pub x0: u32,
    pub x1: u32,
    pub x2: u32,
    pub x3: u32,
}

#[derive(Clone, Copy)]
pub struct Five {
    pub x0: u32,
    pub x1: u32,
    pub x2: u32,
    pub x3: u32,
    pub x4: u32,
}

// The factor at place k of tables that are held times 2^32.
pub fn factor_at<'a>(m: u32, re: &'a [u32; 2880], im: &'a [u32; 2880], k: usize) -> Factor
    requires { IsModulus m × (k < 2880) × (get_or im.now k 0 ≤ prime m) }
    ensures { result ≡ factor_at m re.now im.now k }
{
    let s = im[k];
    let p = numbers::modulus(m);
    Factor {
        re: re[k],
        im: s,
        minus: p - s,
    }
}

// The real part of the factor times a + b i.
pub fn turned_re(m: u32, w: Factor, a: u32, b: u32) -> u32
    requires { IsModulus m × Held m w × (a ≤ 2147483647) × (b ≤ 2147483647) }
    ensures { Divided m (w.re * a + w.minus * b) result }
{
    crate::reduction::weighed(m, w.re, a, w.minus, b)
}

// Its imaginary part.
pub fn turned_im(m: u32, w: Factor, a: u32, b: u32) -> u32
    requires { IsModulus m × Held m w × (a ≤ 2147483647) × (b ≤ 2147483647) }
    ensures { Divided m (w.re * b + w.im * a) result }
{
    crate::reduction::weighed(m, w.re, b, w.im, a)
}

// x - y, or y - x.
pub fn quarter(o: u32, up: bool, x: u32, y: u32) -> u32
    requires { (o ≤ 2419192) × (x ≤ o) × (y ≤ o) }
    ensures { (result ≡ cond up (x + (o - y)) (y + (o - x))) × (result ≤ o + o) }
{
    if up { x + (o - y) } else { y + (o - x) }
}

// a + b.
pub fn sum(a: u32, b: u32) -> u32
    requires { (a ≤ 1073741823) × (b ≤ 2419192) }
    ensures { result ≡ a + b }
{
    a + b
}

// a - b.
pub fn apart(o: u32, a: u32, b: u32) -> u32
    requires { (o ≤ 2419192) × (a ≤ 1073741823) × (b ≤ o) }
    ensures { result ≡ a + (o - b) }
{
    a + (o - b)
}

// Radix 3: the sums' parts of a, b and c, where `turn` is that part of i (b - c).
#[tactic(auto, using(numbers::proofs::Primes::prime_most))]
pub fn of_three(m: u32, z: Factor, o: u32, a: u32, b: u32, c: u32, turn: u32) -> Three
    requires { IsModulus m
        × Held m z
        × (o ≡ 8 * prime m)
        × (a ≤ 1073741823)
        × (b ≤ o)
        × (c ≤ o)
        × (turn ≤ o + o) }
    ensures { ThreeOf m z o a b c turn result }
{
    let t = b + c;
    let even = a + crate::reduction::scaled(m, z.re, t);
    let odd = crate::reduction::scaled(m, z.im, turn);
    Three {
        x0: a + t,
        x1: even + odd,
        x2: even + (o - odd),
    }
}

// Radix 4: `turn` is the part of e(1/4) (b - d).
pub fn of_four(o: u32, a: u32, b: u32, c: u32, d: u32, turn: u32) -> Four
    requires { (o ≤ 2419192)
        × (a ≤ 1073741823)
        × (b ≤ o)
        × (c ≤ o)
        × (d ≤ o)
        × (turn ≤ o + o) }
    ensures { FourOf o a b c d turn result }
{
    let even = a + c;
    let odd = b + d;
    let away = a + (o - c);
    Four {
        x0: even + odd,
        x1: away + turn,
        x2: even + (o + o - odd),
        x3: away + (o + o - turn),
    }
}

// Radix 5: w = e(1/5) and z = e(2/5); `outer` is the part of i (b - e), `inner` that of i (c - d).
#[tactic(auto, using(numbers::proofs::Primes::prime_most))]
pub fn of_five(
    m: u32,
    w: Factor,
    z: Factor,
    o: u32,
    a: u32,
    b: u32,
    c: u32,
    d: u32,
    e: u32,
    outer: u32,
    inner: u32,
) -> Five
    requires modulus { IsModulus m × Held m w × Held m z × (o ≡ 8 * prime m) × (a ≤ 1073741823) }
    requires b_le_o { (b ≤ o) × (c ≤ o) × (d ≤ o) × (e ≤ o) × (outer ≤ o + o) × (inner ≤ o + o) }
    ensures { FiveOf m w z o a b c d e outer inner result }
{
    let t = b + e;
    let s = c + d;
    let near = a + crate::reduction::weighed(m, w.re, t, z.re, s);
    let far = a + crate::reduction::weighed(m, z.re, t, w.re, s);
    let near_odd = crate::reduction::weighed(m, w.im, outer, z.im, inner);
    let far_odd = crate::reduction::weighed(m, z.im, outer, w.minus, inner);
    Five {
        x0: a + t + s,
        x1: near + near_odd,
        x2: far + far_odd,
        x3: far + (o - far_odd),
        x4: near + (o - near_odd),
    }
}
