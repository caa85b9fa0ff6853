// The reciprocal of a length: 1/N = (p + 1)/N, since every admitted length divides 2,880 and 2,880 divides p + 1.
ghost use Rattle.std.specs.Prelude.{◌≡◌, ◌<◌, ◌≤◌};
ghost use Rattle.algebra.specs.ring.Ring.{Res};
ghost use Rattle.numbers.specs.Value.{prime, IsModulus, part};

// 1/N of an admitted N.
pub fn reciprocal(m: u32, n: u32) -> u32
    requires { IsModulus m × (2 ≤ n) }
    ensures { (result ≡ (part m n).val) × (result < prime m) }
{
    let p = crate::modulus(m);
    (p + 1) / n
}
