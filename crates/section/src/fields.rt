// Numbers that end at a place of the line: blanks, then the number. And the closing lines, which have one each.
ghost use Rattle.std.specs.Prelude.{[], ◌∷◌, ◌-◌, ◌≤◌, replicate};
ghost use Rattle.output.specs.Output.{signed_decimal, blank};
ghost use Rattle.output.specs.Written.{Wrote, Ends};
ghost use Rattle.section.specs.Section.{aligned, closing_line, closing_text};

// The blanks of a field of `width` places that has `used` others; none where it has no room.
pub fn put_blanks(out: &mut [u8], at: usize, used: usize, width: usize) -> usize
    requires { Ends at (replicate (width - used) blank) }
    ensures { Wrote at (replicate (width - used) blank) out.old result out.new }
{
    let mut place = at;
    for _ in used..width {
        place = output::put_byte(out, place, b' ');
    }
    place
}

// A whole number, right-aligned. Its text is measured on an output of no bytes.
pub fn put_aligned(out: &mut [u8], at: usize, width: usize, n: i64) -> usize
    requires { Ends at (aligned width (signed_decimal n)) }
    ensures { Wrote at (aligned width (signed_decimal n)) out.old result out.new }
{
    let mut nothing = [0u8; 0];
    let used = output::put_signed(&mut nothing, 0, n);
    let number = put_blanks(out, at, used, width);
    output::put_signed(out, number, n)
}

fn put_closing_line(out: &mut [u8], at: usize, letter: u8, n: i64) -> usize
    requires { Ends at (closing_line letter n) }
    ensures { Wrote at (closing_line letter n) out.old result out.new }
{
    let field = output::put_byte(out, at, letter);
    let end = put_aligned(out, field, 68, n);
    output::put_byte(out, end, b'\n')
}

// The total, the mean and the remainder.
pub fn put_closing(out: &mut [u8], at: usize, total: i64, points: u64) -> usize
    requires le_points { (1 ≤ points) × (points ≤ 8294400) }
    requires ends { Ends at (closing_text total points) }
    ensures { Wrote at (closing_text total points) out.old result out.new }
{
    let count = points as i64;
    let mean = total.div_euclid(count);
    let rest = total.rem_euclid(count);
    let second = put_closing_line(out, at, b'T', total);
    let third = put_closing_line(out, second, b'M', mean);
    put_closing_line(out, third, b'R', rest)
}
