// Numbers in four bytes, the lowest byte first.
ghost use Rattle.output.specs.Output.{little_endian};
ghost use Rattle.output.specs.Written.{Wrote, Ends};

use crate::put_byte;

pub fn put_four(out: &mut [u8], at: usize, x: u32) -> usize
    requires { Ends at (little_endian 4 x) }
    ensures { Wrote at (little_endian 4 x) out.old result out.new }
{
    let second = put_byte(out, at, (x % 256) as u8);
    let third = put_byte(out, second, (x / 256 % 256) as u8);
    let fourth = put_byte(out, third, (x / 65536 % 256) as u8);
    put_byte(out, fourth, (x / 16777216) as u8)
}
