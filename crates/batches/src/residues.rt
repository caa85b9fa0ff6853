// The residue of a number of a lane: times c over 2^32, with one comparison. 2^32 as c gives the residue of the
// number itself; 2^32/N divides it by N as well.
ghost use Rattle.std.specs.Prelude.{◌≡◌, ◌<◌, ◌≤◌};
ghost use Rattle.algebra.specs.ring.Ring.{Ops};
ghost use Rattle.numbers.specs.Value.{prime, IsModulus, Residue, ring};
ghost use Rattle.numbers.specs.Bounds.{res};
ghost use Rattle.batches.specs.Reduction.{Holds};

// 2^32.
pub fn shift(m: u32) -> u32
    requires { IsModulus m }
    ensures { result ≡ (res m 4294967296).val }
{
    if m == 1 { 73006 } else { 296698 }
}

pub fn residue(m: u32, c: u32, x: u32) -> u32
    requires { IsModulus m × (c < prime m) × (x ≤ 2147483647) }
    ensures { (c₀ : Residue m) → Holds m c c₀ → result ≡ ((ring m).mul c₀ (res m x)).val }
{
    let p = numbers::modulus(m);
    let r = crate::reduction::scaled(m, c, x);
    if r < p { r } else { r - p }
}
