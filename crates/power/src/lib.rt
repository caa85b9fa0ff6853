// The power of a map and of its factors: two sums over the whole cell, each from the stored numbers, by how often they stand in it.
//
// A row is reduced once, at its end: 64 bits hold the squares of its numbers, twice over.
#![tactic(auto)]

ghost use Rattle.std.specs.Prelude.{◌≡◌, true, false, ℕ, ◌+◌, ◌*◌, ◌/◌, ◌<◌, ◌≤◌, length};
ghost use Rattle.algebra.specs.ring.Ring.{Res};
ghost use Rattle.numbers.specs.Value.{prime, IsModulus};
ghost use Rattle.numbers.specs.Bounds.{res};
ghost use Rattle.slices.specs.Pairs.{Below};
ghost use Rattle.cell.specs.Volume.{layers};
ghost use Rattle.cell.specs.Consistency.{consistent_factors};
ghost use Rattle.cell.specs.Operations.{cell_group, cell_halves, Sizes};
ghost use Rattle.cell.specs.TestSteps.{IsVolume};
ghost use Rattle.cell.specs.Lent.{of_residues};
ghost use Rattle.power.specs.Power.{map_power, factor_power};
ghost use Rattle.power.specs.PowerSteps.{layer_twice, squares, row_power, layer_power, stored_power};

use cell::lent::Residues;
use cell::operations::UnitCell;
use cell::places;

// The sum of the squares of a map of residues.
pub fn map_power(m: u32, cell: UnitCell, volume: &[u32]) -> u32
    requires { IsVolume cell volume.now × IsModulus m × Below (prime m) volume.now }
    ensures { result ≡ map_power (cell_group cell) (cell_halves cell) m volume.now }
{
    stored_power(&Residues { m, cell, volume }, true)
}

// The sum of F × conj F of consistent factors: the pairs that are no part of a line are zero, and count for nothing.
pub fn factor_power(m: u32, cell: UnitCell, volume: &[u32]) -> u32
    requires volume { IsVolume cell volume.now × IsModulus m × Below (prime m) volume.now }
    requires volume_value { consistent_factors (cell_group cell) (cell_halves cell) m volume.now ≡ true }
    ensures { result ≡ factor_power (cell_group cell) (cell_halves cell) m volume.now }
{
    stored_power(&Residues { m, cell, volume }, false)
}

// The squares of some neighbouring numbers, not reduced.
fn square_sum(volume: &[u32], start: usize, count: usize) -> u64
    requires { (start + count ≤ length volume.now) × (count ≤ 2880) × Below 302399 volume.now }
    ensures upper_bound { result ≤ 263362046978880 }
    ensures by_index { (m : ℕ) → res m result ≡ squares m volume.now start count }
{
    let mut total = 0;
    for x in &volume[start..start + count] {
        total += numbers::whole(*x, *x);
    }
    total
}

// A row of a map: its N2 numbers, without the two zeros.
fn map_row(r: &Residues, w: u32, h: u32) -> u32
    requires { (w < layers (cell_group r.now.cell) (cell_halves r.now.cell)) × (h < r.now.cell.n1) }
    ensures { result ≡ (of_residues row_power r.now true w h).val }
{
    let start = 2 * places::pair_place(r.cell, w, h, 0);
    numbers::reduce_below(r.m, square_sum(r.volume, start, r.cell.n2 as usize))
}

// A row of factors: the pairs 0 and B once, those between, which stand for k and -k, twice.
fn factor_row(r: &Residues, w: u32, h: u32) -> u32
    requires { (w < layers (cell_group r.now.cell) (cell_halves r.now.cell)) × (h < r.now.cell.n1) }
    ensures { result ≡ (of_residues row_power r.now false w h).val }
{
    let first = square_sum(r.volume, 2 * places::pair_place(r.cell, w, h, 0), 2);
    let last = square_sum(
        r.volume,
        2 * places::pair_place(r.cell, w, h, r.cell.n2 / 2),
        2,
    );
    let inner = square_sum(
        r.volume,
        2 * places::pair_place(r.cell, w, h, 1),
        (r.cell.n2 - 2) as usize,
    );
    numbers::reduce_below(r.m, (first + last) + (inner + inner))
}

// Layer w stands twice in the cell.
fn layer_twice(cell: UnitCell, density: bool, w: u32) -> bool
    requires { Sizes cell }
    ensures { result ≡ layer_twice density (cell_group cell) (cell.n3 / 2) w }
{
    let kind = places::line_kind(cell.group, 0);
    let inner = !places::is_end(cell.n3, w);
    if kind == 0 {
        false
    } else if kind == 3 {
        density | inner
    } else {
        inner
    }
}

// Layer w: its rows, as often as they stand in the cell.
fn layer_power(r: &Residues, density: bool, w: u32) -> u32
    requires { w < layers (cell_group r.now.cell) (cell_halves r.now.cell) }
    ensures { result ≡ (of_residues layer_power r.now density w).val }
{
    let mut total = 0;
    for h in 0..r.cell.n1 {
        let row = row_power(r, density, w, h);
        total = numbers::add(r.m, total, row);
    }
    if layer_twice(r.cell, density, w) {
        numbers::add(r.m, total, total)
    } else {
        total
    }
}

// A row of the one or the other.
fn row_power(r: &Residues, density: bool, w: u32, h: u32) -> u32
    requires { (w < layers (cell_group r.now.cell) (cell_halves r.now.cell)) × (h < r.now.cell.n1) }
    ensures { result ≡ (of_residues row_power r.now density w h).val }
{
    if density {
        map_row(r, w, h)
    } else {
        factor_row(r, w, h)
    }
}

// All layers.
fn stored_power(r: &Residues, density: bool) -> u32
    ensures { result ≡ (of_residues stored_power r.now density).val }
{
    let mut total = 0;
    for w in 0..places::layer_count(r.cell) {
        let layer = layer_power(r, density, w);
        total = numbers::add(r.m, total, layer);
    }
    total
}
