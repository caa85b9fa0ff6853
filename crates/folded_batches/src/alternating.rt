// Kind 3, the alternating line, sixteen lanes at a time: as folds::alternating, lane by lane.
//
// A lane's pairs are X(0) .. X(A - 1) of a line with X(2A - t) = (-1)^t conj X(t), pair 0 as it is packed. The short
// line Y(t) = X(2t) + i X(2t + 1) is made by additions, the batch of short lines is transformed, and each place of it
// is turned by its angle; the way back does these things in the other order. The last reduction, as the lines go back
// into the volume, divides by N.
mod lanes; // alternating/lanes.rt: a block, lane by lane
pub mod before; // alternating/before.rt: before the forward transform
pub mod after; // alternating/after.rt: after it
pub mod turning; // alternating/turning.rt: each place by its angle
pub mod back; // alternating/back.rt: the way back

ghost use Rattle.std.specs.Prelude.{◌≡◌, ◌+◌, ◌*◌, ◌<◌, ◌≤◌, length};
ghost use Rattle.algebra.specs.lines.Kinds.{Kind.alternating};
ghost use Rattle.lengths.specs.Admitted.{Factored};
ghost use Rattle.numbers.specs.Value.{prime};
ghost use Rattle.fold_formulas.specs.FoldFormulas.{Frame, Tangents};
ghost use Rattle.batches.specs.Reduction.{ShiftedTable};
ghost use Rattle.batches.specs.Lanes.{UpTo};
ghost use Rattle.batches.specs.Groups.{LinesBelow};
ghost use Rattle.folded_batches.specs.FoldedGroups.{folded_lines};
ghost use Rattle.folded_batches.specs.AlternatingLanes.{Packed, SynthesisLanes, AnalysisLanes};

// A group of up to sixteen neighbouring lines: what they become is what they become one after the other. Direction 0 is
// synthesis, with the tables of the root, and 1 analysis, with the tables of its conjugate; a line that is stored times
// i, `rotated`, loses it after a synthesis, and is given it before an analysis.
pub fn turn_lines<'a>(
    m: u32,
    direction: u32,
    rotated: bool,
    re: &'a [u32; 2880],
    im: &'a [u32; 2880],
    tan: &'a [u32; 1440],
    sre: &'a [u32; 2880],
    sim: &'a [u32; 2880],
    factors: u32,
    a: usize,
    start: usize,
    stride: usize,
    lanes: usize,
    volume: &mut [u32],
    line: &mut [u32],
    fold: &mut [u32],
)
    requires frame { Frame m a re.now im.now × Tangents m tan.now
        × ShiftedTable m re.now im.now sre.now sim.now × Factored factors a }
    requires direction_bound { (direction < 2) × (a ≤ 359) × (length line.old ≡ 32 * (a + 1)) × (length fold.old ≡ 32 * a)
        × (lanes ≤ 16) × (lanes ≤ stride) }
    requires lanes_in_bounds { (2 * (start + a * stride + lanes) ≤ length volume.old + 2 * stride)
        × LinesBelow m start stride a lanes volume.old }
    ensures { volume.new
        ≡ folded_lines m direction rotated a re.now im.now tan.now alternating
        start stride lanes volume.old }
{
    if direction == 0 {
        synthesis_lines(
            m, rotated, re, im, tan, sre, sim, factors, a, start, stride, lanes, volume, line, fold,
        );
    } else {
        analysis_lines(
            m, rotated, re, im, tan, sre, sim, factors, a, start, stride, lanes, volume, line, fold,
        );
    }
}

// The two directions gather, transform and scatter parts of other lengths, so that each has a function.
fn synthesis_lines<'a>(
    m: u32,
    rotated: bool,
    re: &'a [u32; 2880],
    im: &'a [u32; 2880],
    tan: &'a [u32; 1440],
    sre: &'a [u32; 2880],
    sim: &'a [u32; 2880],
    factors: u32,
    a: usize,
    start: usize,
    stride: usize,
    lanes: usize,
    volume: &mut [u32],
    line: &mut [u32],
    fold: &mut [u32],
)
    requires frame { Frame m a re.now im.now × Tangents m tan.now
        × ShiftedTable m re.now im.now sre.now sim.now × Factored factors a }
    requires a_bound { (a ≤ 359) × (length line.old ≡ 32 * (a + 1)) × (length fold.old ≡ 32 * a)
        × (lanes ≤ 16) × (lanes ≤ stride) }
    requires lanes_in_bounds { (2 * (start + a * stride + lanes) ≤ length volume.old + 2 * stride)
        × LinesBelow m start stride a lanes volume.old }
    ensures { volume.new
        ≡ folded_lines m 0 rotated a re.now im.now tan.now alternating
        start stride lanes volume.old }
{
    let size = 32 * a;
    batches::gathering::gather(volume, start, stride, lanes, a, &mut line[..size]);
    synthesis(m, rotated, re, im, tan, sre, sim, factors, a, line, fold);
    let c = batches::residues::shift(m);
    batches::gathering::scatter(m, c, fold, a, lanes, start, stride, volume);
}

fn analysis_lines<'a>(
    m: u32,
    rotated: bool,
    re: &'a [u32; 2880],
    im: &'a [u32; 2880],
    tan: &'a [u32; 1440],
    sre: &'a [u32; 2880],
    sim: &'a [u32; 2880],
    factors: u32,
    a: usize,
    start: usize,
    stride: usize,
    lanes: usize,
    volume: &mut [u32],
    line: &mut [u32],
    fold: &mut [u32],
)
    requires frame { Frame m a re.now im.now × Tangents m tan.now
        × ShiftedTable m re.now im.now sre.now sim.now × Factored factors a }
    requires a_bound { (a ≤ 359) × (length line.old ≡ 32 * (a + 1)) × (length fold.old ≡ 32 * a)
        × (lanes ≤ 16) × (lanes ≤ stride) }
    requires lanes_in_bounds { (2 * (start + a * stride + lanes) ≤ length volume.old + 2 * stride)
        × LinesBelow m start stride a lanes volume.old }
    ensures { volume.new
        ≡ folded_lines m 1 rotated a re.now im.now tan.now alternating
        start stride lanes volume.old }
{
    let size = 32 * a;
    batches::gathering::gather(volume, start, stride, lanes, a, fold);
    analysis(m, rotated, re, im, tan, sre, sim, factors, a, fold, line);
    let c = numbers::mul(m, batches::residues::shift(m), fold_formulas::share(m, a));
    batches::gathering::scatter(m, c, &line[..size], a, lanes, start, stride, volume);
}

// The synthesis of each lane of `line`, into `fold`.
fn synthesis<'a>(
    m: u32,
    rotated: bool,
    re: &'a [u32; 2880],
    im: &'a [u32; 2880],
    tan: &'a [u32; 1440],
    sre: &'a [u32; 2880],
    sim: &'a [u32; 2880],
    factors: u32,
    a: usize,
    line: &mut [u32],
    fold: &mut [u32],
)
    requires frame { Frame m a re.now im.now × Tangents m tan.now
        × ShiftedTable m re.now im.now sre.now sim.now × Factored factors a }
    requires a_bound { (a ≤ 359) × (length line.old ≡ 32 * (a + 1)) × (length fold.old ≡ 32 * a)
        × Packed m a line.old }
    ensures { SynthesisLanes m rotated a re.now im.now tan.now
        line.old fold.new }
{
    let size = 32 * a;
    let mut odd = [0u32; 32];
    crate::alternating::before::unpack(a, line);
    crate::alternating::before::odd_sums(m, a, line, &mut odd);
    crate::alternating::before::short_line(m, a, line, fold);
    batches::transform::transform(m, re, im, sre, sim, factors, a, fold, &mut line[..size]);
    crate::alternating::after::finish(m, rotated, tan, a, &odd, fold);
}

// N times the analysis of each lane of `fold`, into `line`.
fn analysis<'a>(
    m: u32,
    rotated: bool,
    re: &'a [u32; 2880],
    im: &'a [u32; 2880],
    tan: &'a [u32; 1440],
    sre: &'a [u32; 2880],
    sim: &'a [u32; 2880],
    factors: u32,
    a: usize,
    fold: &mut [u32],
    line: &mut [u32],
)
    requires frame { Frame m a re.now im.now × Tangents m tan.now
        × ShiftedTable m re.now im.now sre.now sim.now × Factored factors a }
    requires a_bound { (a ≤ 359) × (length line.old ≡ 32 * (a + 1)) × (length fold.old ≡ 32 * a)
        × UpTo (8 * prime m) fold.old }
    ensures { AnalysisLanes m rotated a re.now im.now tan.now
        fold.old line.new }
{
    let size = 32 * a;
    let mut twice = [0u32; 32];
    crate::alternating::turning::turn_places(m, 1, rotated, tan, a, fold);
    crate::alternating::back::take_first(m, fold, &mut twice);
    batches::transform::transform(m, re, im, sre, sim, factors, a, fold, &mut line[..size]);
    crate::alternating::back::whole_line(m, a, &twice, fold, line);
    crate::alternating::back::pack(a, line);
}
