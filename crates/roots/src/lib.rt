// The root r of order 2,880: the constant tables of its powers and of its half tangents, how a table is read and negated, and its laws.
//
// The negated imaginary parts and half tangents are those of 1/r, so that one and the same code serves both directions.
#![tactic(auto)]

pub mod powers; // powers.rt: the real and the imaginary parts of the powers
pub mod half_tangents; // half_tangents.rt

ghost use Rattle.std.specs.Prelude.{◌≡◌, ℕ, ◌<◌, length};
ghost use Rattle.numbers.specs.Value.{prime, IsModulus};
ghost use Rattle.roots.specs.Table.{entry_at};
ghost use Rattle.roots.specs.TableLaws.{AllBelow, NegatedTable, RootLaws};

use numbers::{Pair, neg};

// The power at place k of the two arrays of powers.
#[tactic(auto, unfolding(crate::specs::Table::entry_at))]
pub fn root_at<'a>(re: &'a [u32; 2880], im: &'a [u32; 2880], k: usize) -> Pair
    requires { k < 2880 }
    ensures { result ≡ entry_at re.now im.now k }
{
    Pair {
        re: re[k],
        im: im[k],
    }
}

// Negates every number of a table.
pub fn negate(m: u32, t: &mut [u32])
    requires { IsModulus m × AllBelow (prime m) t.old }
    ensures { NegatedTable m (length t.old) t.old t.new }
{
    for x in t.iter_mut() {
        *x = neg(m, *x);
    }
}

// What is proved of the root and its tables, as a contract, so that none of it can be missed.
pub fn root_laws()
    ensures { (m : ℕ) → IsModulus m → RootLaws m }
{}
