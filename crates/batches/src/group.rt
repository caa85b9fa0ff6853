// A group of up to sixteen neighbouring plain lines of a volume: gathered into a batch, transformed, and scattered
// back.
ghost use Rattle.std.specs.Prelude.{◌≡◌, length, ◌+◌, ◌*◌, ◌/◌, ◌<◌, ◌≤◌};
ghost use Rattle.numbers.specs.Value.{prime, IsModulus, Residue};
ghost use Rattle.roots.specs.Table.{table_root, RootTable};
ghost use Rattle.lengths.specs.Admitted.{Factored};
ghost use Rattle.batches.specs.Reduction.{ShiftedTable, Holds};
ghost use Rattle.batches.specs.Groups.{LinesBelow, turned_lines};

// What the lines become is what they become one after the other. c stands for 1 or 1/n, times 2^32.
pub fn turn_lines<'a>(
    m: u32,
    c: u32,
    re: &'a [u32; 2880],
    im: &'a [u32; 2880],
    sre: &'a [u32; 2880],
    sim: &'a [u32; 2880],
    factors: u32,
    n: usize,
    start: usize,
    stride: usize,
    lanes: usize,
    volume: &mut [u32],
    line: &mut [u32],
    work: &mut [u32],
)
    requires modulus { IsModulus m
        × RootTable m re.now im.now
        × ShiftedTable m re.now im.now sre.now sim.now }
    requires factored { Factored factors n × (n * (2880 / n) ≡ 2880) }
    requires line_len { (length line.old ≡ 32 * n) × (length work.old ≡ 32 * n) × (c < prime m) × (lanes ≤ 16)
        × (lanes ≤ stride) }
    requires lanes_in_bounds { (2 * (start + n * stride + lanes) ≤ length volume.old + 2 * stride)
        × LinesBelow m start stride n lanes volume.old }
    ensures { (z : Residue m) → Holds m c z
        → volume.new
        ≡ turned_lines m (table_root m re.now im.now) z start stride n lanes
        volume.old }
{
    crate::gathering::gather(volume, start, stride, lanes, n, line);
    crate::transform::transform(m, re, im, sre, sim, factors, n, line, work);
    crate::gathering::scatter(m, c, line, n, lanes, start, stride, volume);
}
