// The refusals of a line's call: the number is that of the first test of the paper's order that holds.
//
// The check takes the numbers and the lent buffers, and works nothing.
ghost use Rattle.std.specs.Prelude.{◌≡◌};
ghost use Rattle.refusals.specs.Refusals.{first};
ghost use Rattle.refusals.specs.Checks.{checked_number};
ghost use Rattle.line.specs.Line.{line_tests};
ghost use Rattle.line.specs.Orders.{LineRefusals};

use refusals::Refusal;

// The refusals of a line, in the paper's order. Residues are those of the modulus; the scratch counts by its length.
pub fn check_line(
    modulus: u32,
    kind: u32,
    direction: u32,
    length: u32,
    factors: &[u8],
    line: &[u32],
    scratch: usize,
) -> Result<(), Refusal>
    ensures { checked_number result
        ≡ first (line_tests modulus kind direction length factors.now line.now scratch) }
{
    if !numbers::is_modulus(modulus) {
        return Err(Refusal::Modulus);
    }
    if 6 <= kind {
        return Err(Refusal::LineKind);
    }
    if 2 <= direction {
        return Err(Refusal::Direction);
    }
    if !lengths::admitted(length) {
        return Err(Refusal::Length);
    }
    if !lengths::factors_ok(factors) {
        return Err(Refusal::Factor);
    }
    if !lengths::has_product(factors, length / 2) {
        return Err(Refusal::Product);
    }
    let pairs = lengths::pair_count(kind, length);
    if line.len() != 2 * pairs {
        return Err(Refusal::BufferLength);
    }
    if scratch < 11520 {
        return Err(Refusal::ScratchTooShort);
    }
    if !slices::buffers::all_below(line, numbers::modulus(modulus)) {
        return Err(Refusal::NotResidue);
    }
    Ok(())
}

// The refusals of a line stand in the papers' order, and 26 is exactly that of a modulus that is neither 1 nor 2.
pub fn refusal_order()
    ensures { LineRefusals }
{}
