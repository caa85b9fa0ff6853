// The tables of the powers of the root, times 2^32: made once for a call.
ghost use Rattle.std.specs.Prelude.{◌≡◌, length, get_or, ℕ, ◌<◌};
ghost use Rattle.numbers.specs.Value.{prime, IsModulus};
ghost use Rattle.roots.specs.Table.{RootTable};
ghost use Rattle.batches.specs.Reduction.{ShiftedTable, ShiftedList};

pub fn shift_tables<'a>(
    m: u32,
    re: &'a [u32; 2880],
    im: &'a [u32; 2880],
    sre: &mut [u32; 2880],
    sim: &mut [u32; 2880],
)
    requires { IsModulus m
        × RootTable m re.now im.now
        × (length sre.old ≡ 2880)
        × (length sim.old ≡ 2880) }
    ensures { ShiftedTable m re.now im.now sre.new sim.new }
{
    shift_list(m, re, sre);
    shift_list(m, im, sim);
}

fn shift_list<'a>(m: u32, from: &'a [u32; 2880], to: &mut [u32; 2880])
    requires { IsModulus m
        × ((k : ℕ) → k < 2880 → get_or from.now k 0 < prime m)
        × (length to.old ≡ 2880) }
    ensures { ShiftedList m from.now 2880 to.new }
{
    let c = crate::residues::shift(m);
    for k in 0..2880 {
        to[k] = numbers::mul(m, c, from[k]);
    }
}
