// Numbers in two and in four bytes, the higher byte first.
ghost use Rattle.std.specs.Prelude.{◌<◌};
ghost use Rattle.output.specs.Output.{big_endian};
ghost use Rattle.output.specs.Written.{Wrote, Ends};

use crate::put_byte;

pub fn put_two(out: &mut [u8], at: usize, x: u32) -> usize
    requires { (x < 65536) × Ends at (big_endian 2 x) }
    ensures { Wrote at (big_endian 2 x) out.old result out.new }
{
    let low = put_byte(out, at, (x / 256) as u8);
    put_byte(out, low, (x % 256) as u8)
}

pub fn put_four(out: &mut [u8], at: usize, x: u32) -> usize
    requires { Ends at (big_endian 4 x) }
    ensures { Wrote at (big_endian 4 x) out.old result out.new }
{
    let low = put_two(out, at, x / 65536);
    put_two(out, low, x % 65536)
}
