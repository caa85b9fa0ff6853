// The outer sums of one butterfly of sixteen lanes, by its radix.
ghost use Rattle.std.specs.Prelude.{◌≡◌, IsTrue, length, ◌≤◌};
ghost use Rattle.numbers.specs.Value.{IsModulus};
ghost use Rattle.roots.specs.Table.{table_root, RootTable};
ghost use Rattle.batches.specs.Reduction.{ShiftedTable};
ghost use Rattle.batches.specs.Lanes.{UpTo, Apart, FirstStep, Summed};

use butterflies::twiddle::Places;

// FIRST says that it is one of the first step, where nothing is multiplied.
pub fn sums<'a, const FIRST: bool>(
    m: u32,
    re: &'a [u32; 2880],
    im: &'a [u32; 2880],
    sre: &'a [u32; 2880],
    sim: &'a [u32; 2880],
    outer: usize,
    at: Places,
    from: &[u32],
    y: &mut [u32; 160],
)
    requires modulus { IsModulus m
        × RootTable m re.now im.now
        × ShiftedTable m re.now im.now sre.now sim.now }
    requires le_outer { (2 ≤ outer) × (outer ≤ 5) × Apart outer at from.now × UpTo 1073741823 from.now
        × (length y.old ≡ 160) }
    requires first { IsTrue FIRST → FirstStep m at from.now }
    ensures { Summed m (table_root m re.now im.now) outer at from.now 16
        y.new }
{
    match outer {
        2 => crate::blocks::two::<FIRST>(m, re, im, sre, sim, at, from, y),
        3 => crate::blocks::three::<FIRST>(m, re, im, sre, sim, at, from, y),
        4 => crate::blocks::four::<FIRST>(m, re, im, sre, sim, at, from, y),
        _ => crate::blocks::five::<FIRST>(m, re, im, sre, sim, at, from, y),
    }
}
