// The refusals of a correlation: the number is that of the first test of the paper's order that holds.
ghost use Rattle.std.specs.Prelude.{◌≡◌, ◌≤◌, length};
ghost use Rattle.algebra.specs.cells.Cell.{P1};
ghost use Rattle.refusals.specs.Refusals.{first};
ghost use Rattle.refusals.specs.Checks.{checked_number};
ghost use Rattle.cell.specs.Operations.{cell_halves, cell_lengths, Sizes};
ghost use Rattle.cell.specs.Volume.{volume_length};
ghost use Rattle.correlation.specs.Correlation.{all_long, buffers_tests, correlation_tests, header_of};
ghost use Rattle.correlation.specs.Steps.{exceeds_at};
ghost use Rattle.correlation.specs.Orders.{CorrelationRefusals};

use cell::operations::UnitCell;
use refusals::Refusal;

// 3, 4, 5, each over the three axes, 9, then the buffers'.
pub fn check_correlation(
    n1: u32,
    n2: u32,
    n3: u32,
    f1: &[u8],
    f2: &[u8],
    f3: &[u8],
    a: &[i64],
    b: &[i64],
    output: usize,
    work1: usize,
    work2: usize,
    work3: usize,
    scratch: usize,
) -> Result<(), Refusal>
    ensures { checked_number result
        ≡ first
        (correlation_tests (header_of (n1, n2, n3) f1.now f2.now f3.now)
        a.now b.now output work1 work2 work3 scratch) }
{
    let cell = UnitCell {
        group: 0,
        n1,
        n2,
        n3,
    };
    header::bytes::check_header(cell, f1, f2, f3)?;
    check_buffers(cell, a, b, output, work1, work2, work3, scratch)
}

// 6, 13, 28, where the lengths and lists are those of a cell.
fn check_buffers(
    cell: UnitCell,
    a: &[i64],
    b: &[i64],
    output: usize,
    work1: usize,
    work2: usize,
    work3: usize,
    scratch: usize,
) -> Result<(), Refusal>
    requires { Sizes cell × (cell.group ≡ 0) × (volume_length P1 (cell_halves cell) ≤ 16777216) }
    ensures { checked_number result
        ≡ first
        (buffers_tests (cell_lengths cell) a.now b.now output work1 work2 work3 scratch) }
{
    let needed = header::bytes::volume_length(cell);
    if !all_long(needed, a.len(), b.len(), output, work1, work2, work3) {
        return Err(Refusal::BufferLength);
    }
    if scratch < 11520 {
        return Err(Refusal::ScratchTooShort);
    }
    if exceeds_limit((cell.n2 / 2) as usize, a, b) {
        return Err(Refusal::Magnitude);
    }
    Ok(())
}

// The maps, the output and the work volumes are each as long as is asked for.
fn all_long(
    needed: u64,
    a: usize,
    b: usize,
    output: usize,
    work1: usize,
    work2: usize,
    work3: usize,
) -> bool
    ensures { result ≡ all_long needed a b output work1 work2 work3 }
{
    (a as u64 == needed)
        & ((b as u64 == needed)
            & ((output as u64 == needed)
                & ((work1 as u64 == needed)
                    & ((work2 as u64 == needed) & (work3 as u64 == needed)))))
}

// Whether a magnitude of either map exceeds the limit, or the sum of those in a times the largest in b does. The rows of both have
// 2 half points.
fn exceeds_limit(half: usize, a: &[i64], b: &[i64]) -> bool
    requires { (half ≤ 1440) × (length a.now ≤ 16777216) }
    ensures { result ≡ exceeds_at half a.now b.now }
{
    let most_a = crate::magnitudes::largest_magnitude(a, half);
    if 13063485600 < most_a {
        return true;
    }
    let most_b = crate::magnitudes::largest_magnitude(b, half);
    if 13063485600 < most_b {
        return true;
    }
    let sum = crate::magnitudes::sum_of_magnitudes(a, half);
    crate::magnitudes::product_exceeds(sum, most_b)
}

// The refusals stand in the papers' order, and 28 is exactly that of magnitudes, or of a product of them, beyond the
// limit.
pub fn refusal_order()
    ensures { CorrelationRefusals }
{}
