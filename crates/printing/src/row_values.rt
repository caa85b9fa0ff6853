// The values of a row of a volume: whether they are residues modulo p, and their text on an output.
ghost use Rattle.std.specs.Prelude.{◌≡◌, true, ◌+◌, ◌<◌, ◌≤◌, ltb, length, get_or};
ghost use Rattle.algebra.specs.cells.Cell.{below};
ghost use Rattle.output.specs.Output.{each};
ghost use Rattle.output.specs.Written.{Wrote, Ends};
ghost use Rattle.printing.specs.Text.{value_text};

// The n numbers of a volume from `start` on are residues.
pub fn are_residues(p: u32, volume: &[u32], start: usize, n: usize) -> bool
    requires { start + n ≤ length volume.now }
    ensures { result ≡ below n (λ y. ltb (get_or volume.now (start + y) 0) p) }
{
    volume[start..start + n].iter().all(|value| *value < p)
}

// The n numbers of a volume from `start` on, which are residues, with their signs, a blank before each.
pub fn put_values(
    out: &mut [u8],
    at: usize,
    p: u32,
    volume: &[u32],
    start: usize,
    n: usize,
) -> usize
    requires n_in_bounds { (start + n ≤ length volume.now)
        × (below n (λ y. ltb (get_or volume.now (start + y) 0) p) ≡ true)
        × (p ≤ 302399) }
    requires ends { Ends at (each n (λ y. value_text p (get_or volume.now (start + y) 0))) }
    ensures { Wrote at (each n (λ y. value_text p (get_or volume.now (start + y) 0)))
        out.old result out.new }
{
    let mut place = at;
    for y in 0..n {
        let value = volume[start + y];
        place = put_value(out, place, p, value);
    }
    place
}

// The density of one residue, a blank before it.
fn put_value(out: &mut [u8], at: usize, p: u32, value: u32) -> usize
    requires value_lt_p { (value < p) × (p ≤ 302399) }
    requires ends { Ends at (value_text p value) }
    ensures { Wrote at (value_text p value) out.old result out.new }
{
    output::put_signed_field(out, at, signed::centre(p, value) as i64)
}
