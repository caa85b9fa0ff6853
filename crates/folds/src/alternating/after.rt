// Kind 3, the alternating line: the pass after its forward transform, and the two passes of the way back.
//
// The forward transform of the short line Y(t) = X(2t) + i X(2t + 1) is Y^(s) = E(s) - e(-s/N) b(s) with real E(s) and b(s), and the line's is
// X^(s) = E(s) + i b(s): the pass after it takes the two apart. The way back makes a short line of them anew and transforms it; the last pass reads the
// whole line from that, and packs it.
ghost use Rattle.std.specs.Prelude.{◌≡◌, ℕ, ◌*◌, ◌<◌, ◌≤◌, length};
ghost use Rattle.algebra.specs.ring.Ring.{Ops};
ghost use Rattle.algebra.specs.lines.Packings.{pack_b3};
ghost use Rattle.algebra.specs.lines.Folds.{mate, csc, cot, finish3, alternating_spectrum, twice_M, line3};
ghost use Rattle.numbers.specs.Value.{prime, IsModulus, field, conj, i, real, half, pair_of, on_values};
ghost use Rattle.numbers.specs.Bounds.{res, Small};
ghost use Rattle.slices.specs.Pairs.{Below, values_of, list_of};
ghost use Rattle.fold_formulas.specs.FoldFormulas.{stride, tangent, Tangents};

use numbers::Pair;

// The pass after the forward transform, `odd` being the sum of the imaginary parts at the odd places.
pub fn finish(m: u32, tan: &[u32; 1440], a: usize, odd: u32, fold: &[u32], line: &mut [u32])
    requires modulus { IsModulus m × Tangents m tan.now × (odd < prime m) }
    requires a_nonzero { (0 < a) × (a * stride a ≡ 1440) }
    requires fold_len { (length fold.now ≡ 2 * a) × Below (prime m) fold.now }
    requires line_len { length line.old ≡ 2 * a }
    ensures { line.new ≡ list_of a
        (on_values m finish3 a (tangent m a tan.now)
        (values_of m fold.now) (real m (res m odd))) }
{
    let step = 1440 / a;
    for s in 0..a {
        slices::store(line, s, finish_at(m, tan, step, a, odd, fold, s));
    }
}

// The short line of the inverse, before its transform. From X^(s) = E(s) + i b(s) it is the V(s) for which V(s) + conj V(s) = 2 E(s) and
// V(s) + e(-s/A) conj V(s) = -2 e(-s/N) b(s): one short transform then serves the even places and the odd ones. Its imaginary part is
// E(s) times the cotangent and b(s) times the cosecant of the angle of e(s/N); those of the lent half tangents are of the opposite angle.
pub fn inverse_short_line(m: u32, tan: &[u32; 1440], a: usize, line: &[u32], fold: &mut [u32])
    requires modulus { IsModulus m × Tangents m tan.now }
    requires a_nonzero { (0 < a) × (a * stride a ≡ 1440) }
    requires line_len { (length line.now ≡ 2 * a) × Below (prime m) line.now }
    requires fold_len { length fold.old ≡ 2 * a }
    ensures { fold.new ≡ list_of a
        (on_values m alternating_spectrum a (λ s. (field m).neg (tangent m a tan.now s))
        (values_of m line.now)) }
{
    let step = 1440 / a;
    for s in 0..a {
        slices::store(fold, s, inverse_short_at(m, tan, step, a, line, s));
    }
}

// 2 (E(0) + b(0)), what V(0) + conj V(0) is above the -2 b(0) of the second rule.
pub fn twice_sum(m: u32, line: &[u32]) -> u32
    requires modulus { IsModulus m }
    requires in_bounds { (1 < length line.now) × Below (prime m) line.now }
    ensures { (result < prime m)
        × ((A : ℕ) → real m (res m result) ≡ on_values m twice_M A (values_of m line.now)) }
{
    let z = slices::get(line, 0);
    let s = numbers::add(m, z.re, z.im);
    numbers::add(m, s, s)
}

// The pass after the transform of the way back: the whole line, packed.
pub fn pack(m: u32, part: u32, twice: u32, a: usize, fold: &[u32], line: &mut [u32])
    requires modulus { IsModulus m × (part < prime m) × (twice < prime m) }
    requires fold_len { (length fold.now ≡ 2 * a) × Below (prime m) fold.now }
    requires line_len { length line.old ≡ 2 * a }
    ensures { line.new ≡ list_of a
        (on_values m pack_b3 a
        (on_values m line3 a (real m (res m part)) (values_of m fold.now) (real m (res m twice)))) }
{
    for t in 0..a {
        slices::store(line, t, pack_at(m, part, twice, a, fold, t));
    }
}

// One result of the forward transform.
fn finish_at(
    m: u32,
    tan: &[u32; 1440],
    step: usize,
    a: usize,
    odd: u32,
    fold: &[u32],
    s: usize,
) -> Pair
    requires modulus { IsModulus m × Tangents m tan.now × (odd < prime m) }
    requires step_value { (step ≡ stride a) × (a * step ≡ 1440) × (s < a) }
    requires fold_len { (length fold.now ≡ 2 * a) × Below (prime m) fold.now }
    ensures { result
        ≡ pair_of
        (on_values m finish3 a (tangent m a tan.now) (values_of m fold.now)
        (real m (res m odd)) s) }
{
    let v = slices::get(fold, s);
    if s == 0 {
        // X^(0) = E(0) + i b(0), and Y^(0) = E(0) - b(0)
        Pair {
            re: numbers::add(m, v.re, odd),
            im: odd,
        }
    } else {
        // E(s) = Re Y^(s) + b(s) cos and b(s) = Im Y^(s)/sin
        let b = numbers::scaled(m, v.im, angle(m, tan, step, a, s));
        Pair {
            re: numbers::add(m, v.re, b.re),
            im: b.im,
        }
    }
}

// One value of the short line of the inverse.
fn inverse_short_at(
    m: u32,
    tan: &[u32; 1440],
    step: usize,
    a: usize,
    line: &[u32],
    s: usize,
) -> Pair
    requires modulus { IsModulus m × Tangents m tan.now }
    requires step_value { (step ≡ stride a) × (a * step ≡ 1440) × (s < a) }
    requires line_len { (length line.now ≡ 2 * a) × Below (prime m) line.now }
    ensures { result
        ≡ pair_of
        (on_values m alternating_spectrum a (λ s. (field m).neg (tangent m a tan.now s))
        (values_of m line.now) s) }
{
    let z = slices::get(line, s);
    if s == 0 {
        // V(0) = E(0): the first rule alone, as the two disagree there
        Pair { re: z.re, im: 0 }
    } else {
        let of = angle(m, tan, step, a, s);
        let along = numbers::mul(m, z.re, of.re);
        let up = numbers::mul(m, z.im, of.im);
        Pair {
            re: z.re,
            im: numbers::neg(m, numbers::add(m, along, up)),
        }
    }
}

// The cotangent and the cosecant of the angle of e(s/N), as the parts of a pair: from its half tangent tau(s) and tau(A - s) = 1/tau(s).
fn angle(m: u32, tan: &[u32; 1440], step: usize, a: usize, s: usize) -> Pair
    requires modulus { IsModulus m × Tangents m tan.now }
    requires step_value { (step ≡ stride a) × (a * step ≡ 1440) × (0 < s) × (s < a) }
    ensures { Small (prime m) result
        × (real m (res m result.re) ≡ cot (field m) (real m (half m)) a (tangent m a tan.now) s)
        × (real m (res m result.im) ≡ csc (field m) (real m (half m)) a (tangent m a tan.now) s) }
{
    let near = tan[step * s];
    let far = tan[step * (a - s)];
    Pair {
        re: numbers::halve(m, numbers::sub(m, far, near)),
        im: numbers::halve(m, numbers::add(m, near, far)),
    }
}

// One pair of the packed line.
fn pack_at(m: u32, part: u32, twice: u32, a: usize, fold: &[u32], t: usize) -> Pair
    requires modulus { IsModulus m × (part < prime m) × (twice < prime m) × (t < a) }
    requires fold_len { (length fold.now ≡ 2 * a) × Below (prime m) fold.now }
    ensures { result
        ≡ pair_of
        (on_values m pack_b3 a
        (on_values m line3 a (real m (res m part)) (values_of m fold.now) (real m (res m twice))) t) }
{
    let x = line_at(m, part, twice, a, fold, t);
    if t == 0 {
        // X(0) is real, and its second number is free for the one number of X(A): the real part for an even A,
        // and for an odd A the imaginary part, which is at that place already
        let y = line_at(m, part, twice, a, fold, a);
        if a % 2 == 0 {
            numbers::sum(m, x, numbers::times_i(m, y))
        } else {
            numbers::sum(m, x, y)
        }
    } else {
        x
    }
}

// X(j), j < N, from the short transform y, `twice_sum` and 1/N. With y(t) go the conjugates of y(A - t) for X(2t), and of y(A - t - 1) for X(2t + 1).
fn line_at(m: u32, part: u32, twice: u32, a: usize, fold: &[u32], j: usize) -> Pair
    requires modulus { IsModulus m × (part < prime m) × (twice < prime m) × (j < 2 * a) }
    requires fold_len { (length fold.now ≡ 2 * a) × Below (prime m) fold.now }
    ensures { result
        ≡ pair_of
        (on_values m line3 a (real m (res m part)) (values_of m fold.now) (real m (res m twice)) j) }
{
    let y = slices::get(fold, j / 2);
    let c = numbers::conjugate(m, slices::get(fold, mate_of(a, (j + 1) / 2)));
    let both = numbers::sum(m, y, c);
    if j % 2 == 0 {
        numbers::scaled(m, part, both)
    } else {
        let d = numbers::difference(m, Pair { re: twice, im: 0 }, both);
        numbers::scaled(m, part, numbers::times_i(m, d))
    }
}

// The place A - t, and 0 for 0: the short transform's places are counted modulo A.
pub fn mate_of(a: usize, t: usize) -> usize
    requires { (0 < a) × (t ≤ a) }
    ensures { (result ≡ mate a t) × (result < a) }
{
    if t == 0 { 0 } else { a - t }
}
