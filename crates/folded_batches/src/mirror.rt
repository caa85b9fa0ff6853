// Kinds 4 and 5 side by side: a group of up to sixteen neighbouring symmetric or antisymmetric lines of a volume.
//
// As in crate folds, both are one piece of code, told apart by the place `first` of the first value that is stored: 0
// for a symmetric line, which stores the places 0 .. A, and 1 for an antisymmetric one, which is zero at 0 and A and
// stores 1 .. A - 1. The batch has the places 0 .. A of every line. The way back is the way forward with the other
// root, divided by N: only the last factor is another.
pub mod places; // mirror/places.rt
pub mod before; // mirror/before.rt
pub mod after; // mirror/after.rt

ghost use Rattle.std.specs.Prelude.{◌≡◌, false, List, length, ℕ, ◌+◌, ◌*◌, ◌<◌, ◌≤◌};
ghost use Rattle.algebra.specs.lines.Kinds.{slots};
ghost use Rattle.numbers.specs.Value.{prime, IsModulus};
ghost use Rattle.lengths.specs.Admitted.{Factored};
ghost use Rattle.batches.specs.Reduction.{ShiftedTable, Holds};
ghost use Rattle.batches.specs.Lanes.{UpTo};
ghost use Rattle.batches.specs.Groups.{LinesBelow};
ghost use Rattle.fold_formulas.specs.FoldFormulas.{Frame, Tangents};
ghost use Rattle.folds.specs.FoldedLines.{mirror_kind, stored_count, whole_line};
ghost use Rattle.folded_batches.specs.FoldedGroups.{folded_lines};
ghost use Rattle.folded_batches.specs.MirrorLanes.{WholeLines, PackedLines, ClearedEnds, Unpacked};
ghost use Rattle.folded_batches.specs.MirrorLanes.{TurnedBatch, mirror_scale};

// What the lines become is what they become one after the other.
#[tactic(auto, using(crate::proofs::MirrorGroups::slots_stored))]
pub fn turn_lines<'a>(
    m: u32,
    direction: u32,
    first: usize,
    re: &'a [u32; 2880],
    im: &'a [u32; 2880],
    tan: &'a [u32; 1440],
    sre: &'a [u32; 2880],
    sim: &'a [u32; 2880],
    factors: u32,
    a: usize,
    start: usize,
    stride: usize,
    lanes: usize,
    volume: &mut [u32],
    line: &mut [u32],
    fold: &mut [u32],
)
    requires frame { Frame m a re.now im.now
        × Tangents m tan.now
        × ShiftedTable m re.now im.now sre.now sim.now
        × Factored factors a
        × (first ≤ 1) }
    requires direction_bound { (direction < 2) × (a ≤ 359) × (length line.old ≡ 32 * (a + 1)) × (length fold.old ≡ 32 * a)
        × (lanes ≤ 16) × (lanes ≤ stride) }
    requires lanes_in_bounds { (2 * (start + slots (mirror_kind first) a * stride + lanes) ≤ length volume.old + 2 * stride)
        × LinesBelow m start stride (slots (mirror_kind first) a) lanes volume.old }
    ensures { volume.new
        ≡ folded_lines m direction false a re.now im.now tan.now (mirror_kind first)
        start stride lanes volume.old }
{
    let n = a + 1 - 2 * first;
    let b = 32 * first;
    let e = 32 * (a + 1 - first);
    let c = last_factor(m, direction, a);
    unpack(volume, first, a, start, stride, lanes, line);
    turn_batch(m, first, re, im, tan, sre, sim, factors, a, line, fold);
    batches::gathering::scatter(m, c, &line[b..e], n, lanes, start, stride, volume);
}

// The places 0 .. A of every line.
fn unpack(
    volume: &[u32],
    first: usize,
    a: usize,
    start: usize,
    stride: usize,
    lanes: usize,
    line: &mut [u32],
)
    requires { (first ≤ 1) × (0 < a) × (a ≤ 359) × (lanes ≤ 16) × (length line.old ≡ 32 * (a + 1))
        × (2 * (start + stored_count a first * stride + lanes) ≤ length volume.now + 2 * stride) }
    ensures { Unpacked volume.now first a start stride lanes line.new }
{
    let n = a + 1 - 2 * first;
    let b = 32 * first;
    let e = 32 * (a + 1 - first);
    clear_ends(first, a, line);
    batches::gathering::gather(volume, start, stride, lanes, n, &mut line[b..e]);
}

// An antisymmetric line is zero at its ends, which are not stored.
fn clear_ends(first: usize, a: usize, line: &mut [u32])
    requires { (a ≤ 359) × (length line.old ≡ 32 * (a + 1)) }
    ensures { ClearedEnds first a line.old line.new }
{
    if first == 1 {
        crate::mirror::places::clear_place(line, 0);
        crate::mirror::places::clear_place(line, a);
    }
}

// The pass before, the short transform and the pass after: in each lane twice the fold of its line.
#[tactic(auto, using(fold_formulas::proofs::Frames::half_divides))]
fn turn_batch<'a>(
    m: u32,
    first: usize,
    re: &'a [u32; 2880],
    im: &'a [u32; 2880],
    tan: &'a [u32; 1440],
    sre: &'a [u32; 2880],
    sim: &'a [u32; 2880],
    factors: u32,
    a: usize,
    line: &mut [u32],
    fold: &mut [u32],
)
    requires frame { Frame m a re.now im.now
        × Tangents m tan.now
        × ShiftedTable m re.now im.now sre.now sim.now
        × Factored factors a }
    requires first_bound { (first ≤ 1) × (length line.old ≡ 32 * (a + 1)) × (length fold.old ≡ 32 * a)
        × UpTo (prime m) line.old × PackedLines m a first line.old }
    ensures { (L : ℕ → List ℕ)
        → WholeLines m a first line.old (λ v. whole_line m a first (L v))
        → TurnedBatch m a first re.now im.now tan.now L line.new }
{
    let size = 32 * a;
    let odds = crate::mirror::before::odd_sums(m, first, a, line);
    crate::mirror::before::short_lines(m, first, a, line, fold);
    batches::transform::transform(m, re, im, sre, sim, factors, a, fold, &mut line[..size]);
    crate::mirror::after::finish(m, tan, first, a, &odds, fold, line);
}

// What the numbers of a lane are multiplied by as they are reduced, where the passes made twice the line: 2^32 over 2,
// and in analysis over N as well.
pub(crate) fn last_factor(m: u32, direction: u32, a: usize) -> u32
    requires { IsModulus m × (direction < 2) × (0 < a) × (a ≤ 1440) }
    ensures { (result < prime m) × Holds m result (mirror_scale m direction a) }
{
    let half = numbers::halve(m, batches::residues::shift(m));
    if direction == 0 {
        half
    } else {
        numbers::mul(m, half, fold_formulas::share(m, a))
    }
}
