// Runs the plain transform and its inverse for both primes and many lists, on lines of the test programs' generator. A line is printed
// for each call: the modulus number, the direction (0 forward, 1 the inverse), the packed list and a checksum of the line that is left.
// The first factor of a list is its lowest octal digit. What it must print was computed by direct sums (tools/plain_expected.py).
#![tactic(auto)]

ghost use Rattle.std.specs.Prelude.{◌≡◌, ◌*◌, ◌/◌, ◌<◌, length};
ghost use Rattle.numbers.specs.Value.{IsModulus};
ghost use Rattle.roots.specs.Table.{RealTable, ImaginaryTable, RootTable};
ghost use Rattle.lengths.specs.Admitted.{Factored};

use std::io;
use std::io::Write;

fn main(rt: HostRuntime) -> io::Result<()> {
    let mut to = rt.stdout();
    each(&mut to, 0, 1)?;
    each(&mut to, 0o2, 2)?;
    each(&mut to, 0o3, 3)?;
    each(&mut to, 0o4, 4)?;
    each(&mut to, 0o5, 5)?;
    each(&mut to, 0o32, 6)?;
    each(&mut to, 0o23, 6)?;
    each(&mut to, 0o335, 45)?;
    each(&mut to, 0o353, 45)?;
    each(&mut to, 0o32432, 144)?;
    each(&mut to, 0o4334, 144)?;
    each(&mut to, 0o33444, 576)?;
    each(&mut to, 0o43453, 720)?;
    each(&mut to, 0o53322222, 1440)?;
    each(&mut to, 0o233445, 1440)?;
    each(&mut to, 0o533222222, 2880)?;
    each(&mut to, 0o2434352, 2880)
}

// Each prime.
fn each<W: Write>(to: &mut W, factors: u32, n: usize) -> io::Result<()>
    requires { Factored factors n × (n * (2880 / n) ≡ 2880) }
{
    each_way(
        to,
        1,
        roots::powers::real_parts(1),
        roots::powers::imaginary_parts(1),
        factors,
        n,
    )?;
    each_way(
        to,
        2,
        roots::powers::real_parts(2),
        roots::powers::imaginary_parts(2),
        factors,
        n,
    )
}

// Each direction. The negated imaginary parts are those of the inverse's root.
fn each_way<W: Write>(
    to: &mut W,
    m: u32,
    re: [u32; 2880],
    im: [u32; 2880],
    factors: u32,
    n: usize,
) -> io::Result<()>
    requires modulus { IsModulus m × RealTable m re × ImaginaryTable m im }
    requires factored { Factored factors n × (n * (2880 / n) ≡ 2880) }
{
    lend(to, m, 0, &re, &im, factors, n)?;
    let mut back = im;
    roots::negate(m, &mut back);
    lend(to, m, 1, &re, &back, factors, n)
}

// Makes the buffers.
fn lend<'a, W: Write>(
    to: &mut W,
    m: u32,
    direction: u32,
    re: &'a [u32; 2880],
    im: &'a [u32; 2880],
    factors: u32,
    n: usize,
) -> io::Result<()>
    requires modulus { IsModulus m × (direction < 2) × RootTable m re.now im.now }
    requires factored { Factored factors n × (n * (2880 / n) ≡ 2880) }
{
    let mut line = [0u32; 5760];
    let mut work = [0u32; 5760];
    let e = 2 * n;
    run(
        to,
        m,
        direction,
        re,
        im,
        factors,
        n,
        &mut line[..e],
        &mut work[..e],
    )
}

fn run<'a, W: Write>(
    to: &mut W,
    m: u32,
    direction: u32,
    re: &'a [u32; 2880],
    im: &'a [u32; 2880],
    factors: u32,
    n: usize,
    line: &mut [u32],
    work: &mut [u32],
) -> io::Result<()>
    requires modulus { IsModulus m × (direction < 2) × RootTable m re.now im.now }
    requires factored { Factored factors n × (n * (2880 / n) ≡ 2880) }
    requires line_len { (length line.old ≡ 2 * n) × (length work.old ≡ 2 * n) }
{
    test_io::fill(line, direction + 1);
    if direction == 0 {
        plain::transform(m, re, im, factors, n, line, work);
        report(to, m, direction, factors, &line[..])
    } else {
        plain::inverse(m, re, im, factors, n, line, work);
        report(to, m, direction, factors, &line[..])
    }
}

fn report<W: Write>(
    to: &mut W,
    m: u32,
    direction: u32,
    factors: u32,
    line: &[u32],
) -> io::Result<()> {
    let said = [m, direction, factors, test_io::checksum(line)];
    test_io::print_line(to, &said)?;
    Ok(())
}
