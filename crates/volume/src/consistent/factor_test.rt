// Refusal 14 of packed factors. A volume passes exactly if each stored image of each stored factor has the implied value,
// and the pairs 0 and A are zero where they are no part of their line.
//
// The places are tested in the order in which they lie in the volume.
ghost use Rattle.std.specs.Prelude.{◌≡◌, true, suc, ◌*◌, ◌/◌, ◌<◌, ◌≤◌};
ghost use Rattle.algebra.specs.lines.Kinds.{Kind.antisymmetric};
ghost use Rattle.algebra.specs.cells.Cell.{span, neg_i, below};
ghost use Rattle.numbers.specs.Value.{prime, IsModulus};
ghost use Rattle.slices.specs.Pairs.{Below};
ghost use Rattle.cell.specs.Volume.{line_kind};
ghost use Rattle.cell.specs.Consistency.{line_agrees, consistent_factors};
ghost use Rattle.cell.specs.Operations.{cell_group, cell_halves, triple_of, sym_of};
ghost use Rattle.cell.specs.Lent.{of_volume, of_residues};
ghost use Rattle.cell.specs.TestSteps.{IsVolume, IsStored, mirrored, image_agrees, line_row_agrees, row_ends_agree};
ghost use Rattle.cell.specs.TestSteps.{InnerAgree, lines_agree, empty_ends, left_out_empty};

use cell::lent::{LentVolume, Residues};
use cell::operations::{Index, Operation, UnitCell};
use cell::{operations, places};

// The volume is the packed factors of some cell that obeys group and Friedel.
pub fn consistent_factors(m: u32, cell: UnitCell, volume: &[u32]) -> bool
    requires { IsVolume cell volume.now × IsModulus m × Below (prime m) volume.now }
    ensures { result ≡ consistent_factors (cell_group cell) (cell_halves cell) m volume.now }
{
    // a group has antisymmetric lines at h = 1 or nowhere
    factors_agree(&Residues { m, cell, volume })
        && (places::line_kind(cell.group, 1) != 5 || odd_rows_empty(&LentVolume { cell, volume }))
}

// The image of j under o, where it is stored, has the value that the factor at j implies.
fn image_agrees(r: &Residues, o: Operation, j: Index) -> bool
    requires { IsStored r.now.cell j }
    ensures { result ≡ of_residues image_agrees r.now (triple_of j) (sym_of o) }
{
    let i = operations::image(o, r.cell, j);
    if places::is_stored(r.cell, i) {
        let x = crate::stored::stored_value(r.m, r.cell, r.volume, j);
        let y = crate::stored::stored_value(r.m, r.cell, r.volume, i);
        crate::stored::same(y, operations::implied(r.m, o, j, x))
    } else {
        true
    }
}

// Every stored image of j agrees. Between the ends of k and of l one operation of P2₁2₁2₁ alone leads to a stored index, the last: it changes
// the sign of h and no other. It leads back from -h to h, so that beyond N1/2 it has been tried at -h.
fn factor_agrees(r: &Residues, j: Index) -> bool
    requires stored { IsStored r.now.cell j }
    requires l_value { r.now.cell.n1 / 2 < j.h →
        of_residues line_agrees r.now (neg_i (r.now.cell.n1 / 2) j.h, j.k, j.l) ≡ true }
    ensures { result ≡ of_residues line_agrees r.now (triple_of j) }
{
    if (r.cell.group == 4) & (between(j.k, r.cell.n2 / 2) & between(j.l, r.cell.n3 / 2)) {
        if j.h <= r.cell.n1 / 2 {
            mirrored_agrees(r, j)
        } else {
            true
        }
    } else {
        images_agree(r, j)
    }
}

// The same by that operation, which leads j to a stored index between the ends too.
fn mirrored_agrees(r: &Residues, j: Index) -> bool
    requires stored { IsStored r.now.cell j × (r.now.cell.group ≡ 4) }
    requires l_nonzero { (0 < j.l) × (j.l < r.now.cell.n3 / 2) }
    ensures { result ≡ of_residues image_agrees r.now (triple_of j) mirrored }
{
    let o = operations::operation_at(r.cell.group, 7);
    let i = operations::image(o, r.cell, j);
    let x = crate::stored::between_value(r.m, r.cell, r.volume, j);
    let y = crate::stored::between_value(r.m, r.cell, r.volume, i);
    crate::stored::same(y, operations::implied(r.m, o, j, x))
}

fn between(x: u32, end: u32) -> bool
    ensures { result ≡ true → (0 < x) × (x < end) }
{
    (0 < x) & (x < end)
}

// The first operation leaves j where it is, and need not be tried.
#[tactic(auto, using(algebra::proofs::cells::Passing::tested_members))]
fn images_agree(r: &Residues, j: Index) -> bool
    requires { IsStored r.now.cell j }
    ensures { result ≡ of_residues line_agrees r.now (triple_of j) }
{
    for number in 1..operations::operation_count(r.cell.group) {
        let o = operations::operation_at(r.cell.group, number);
        if !image_agrees(r, o, j) {
            return false;
        }
    }
    true
}

// Of a row at l nothing is to be tried but its two ends: each operation but the first changes the sign of k, or that of l between its
// ends, and leads an index between the ends of k out of what is stored. In P2₁2₁2₁ one does not.
fn ends_alone(cell: UnitCell, l: u32) -> bool
    requires { cell.group < 5 }
    ensures { result ≡ true → InnerAgree cell l }
{
    (cell.group == 0) | ((cell.group != 4) & between(l, cell.n3 / 2))
}

// The ends k = 0 and k = B of the row (l, h).
fn ends_agree(r: &Residues, l: u32, h: u32) -> bool
    requires { (l < span (cell_group r.now.cell) (r.now.cell.n3 / 2)) × (h < r.now.cell.n1) }
    ensures { result ≡ of_residues row_ends_agree r.now l h }
{
    let k = r.cell.n2 / 2;
    images_agree(r, Index { h, k: 0, l }) && images_agree(r, Index { h, k, l })
}

// All k of the row (l, h), after those of the row (l, -h) where h is beyond N1/2.
#[tactic(auto, using(algebra::proofs::cells::Passing::tested))]
fn row_agrees(r: &Residues, l: u32, h: u32) -> bool
    requires place { (l < span (cell_group r.now.cell) (r.now.cell.n3 / 2)) × (h < r.now.cell.n1) }
    requires h_value { r.now.cell.n1 / 2 < h →
        of_residues line_row_agrees r.now l (neg_i (r.now.cell.n1 / 2) h) ≡ true }
    ensures { result ≡ of_residues line_row_agrees r.now l h }
{
    if ends_alone(r.cell, l) {
        return ends_agree(r, l, h);
    }
    for k in 0..=r.cell.n2 / 2 {
        if !factor_agrees(r, Index { h, k, l }) {
            return false;
        }
    }
    true
}

// All h of the layer l, rising: a row is tested after that of -h.
#[tactic(auto, using(algebra::proofs::cells::Passing::tested))]
fn layer_agrees(r: &Residues, l: u32) -> bool
    requires { l < span (cell_group r.now.cell) (r.now.cell.n3 / 2) }
    ensures { result ≡ below (2 * (r.now.cell.n1 / 2)) (of_residues line_row_agrees r.now l) }
{
    for h in 0..r.cell.n1 {
        if !row_agrees(r, l, h) {
            return false;
        }
    }
    true
}

// All stored l.
#[tactic(auto, using(algebra::proofs::cells::Passing::tested))]
fn factors_agree(r: &Residues) -> bool
    ensures { result ≡ of_residues lines_agree r.now }
{
    for l in 0..places::stored_count(r.cell) {
        if !layer_agrees(r, l) {
            return false;
        }
    }
    true
}

// The pairs 0 and A of the line (h, k) are zero.
fn empty_line(v: &LentVolume, h: u32, k: u32) -> bool
    requires { (line_kind (cell_group v.now.cell) h ≡ antisymmetric)
        × (h < v.now.cell.n1)
        × (k ≤ v.now.cell.n2 / 2) }
    ensures { result ≡ of_volume empty_ends v.now h k }
{
    let first = crate::stored::pair_at(v.cell, v.volume, 0, h, k);
    let last = crate::stored::pair_at(v.cell, v.volume, v.cell.n3 / 2, h, k);
    crate::stored::is_zero(first) & crate::stored::is_zero(last)
}

// The same for all k.
#[tactic(auto, using(algebra::proofs::cells::Passing::tested))]
fn empty_row(v: &LentVolume, h: u32) -> bool
    requires { (line_kind (cell_group v.now.cell) h ≡ antisymmetric) × (h < v.now.cell.n1) }
    ensures { result ≡ below (suc (v.now.cell.n2 / 2)) (of_volume empty_ends v.now h) }
{
    for k in 0..=v.cell.n2 / 2 {
        if !empty_line(v, h, k) {
            return false;
        }
    }
    true
}

// The same for every line that leaves the pairs 0 and A out: the group with such lines, Pa, has them at every odd h and at no even one.
fn odd_rows_empty(v: &LentVolume) -> bool
    requires { line_kind (cell_group v.now.cell) 1 ≡ antisymmetric }
    ensures { result ≡ of_volume left_out_empty v.now }
{
    for h in (1..v.cell.n1).step_by(2) {
        if !empty_row(v, h) {
            return false;
        }
    }
    true
}
