// Whole numbers as 32-bit floats, and a float's bits.
ghost use Rattle.std.specs.Prelude.{◌≡◌, not, suc, ◌≤◌, T, nat_abs};
ghost use Rattle.std.specs.Float.Ieee.{is_nan};
ghost use Rattle.mrc.specs.Floats.{float_of, bits, exact_limit};

// The float that is exactly n: up to 2^24 there is one.
pub fn float_of(n: i64) -> f32
    requires { nat_abs n ≤ suc exact_limit }
    ensures { result ≡ float_of n }
{
    n as f32
}

pub fn bits_of(x: f32) -> u32
    requires { T (not (is_nan x)) }
    ensures { result ≡ bits x }
{
    f32::to_bits(x)
}

// The bits of the float that is exactly n.
pub fn float_bits(n: i64) -> u32
    requires { nat_abs n ≤ exact_limit }
    ensures { result ≡ bits (float_of n) }
{
    bits_of(float_of(n))
}
