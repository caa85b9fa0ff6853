// The groups' operations as data, and what an operation does: the image of an index, the image of a point, the value that
// a factor implies at its image.
//
// All loops over an orbit go over the numbers of `operation_at`: the group's own operations first, then each of them
// together with Friedel's rule.
ghost use Rattle.std.specs.Prelude.{◌≡◌, true, false, ◌/◌, ◌<◌, ◌≤◌, length, get_or};
ghost use Rattle.algebra.specs.ring.Ring.{Ops};
ghost use Rattle.algebra.specs.cells.Cell.{Sym, P2₁2₁2₁, one, friedel, ◌·◌, ops, full, xor, flip, shifted};
ghost use Rattle.algebra.specs.cells.Cell.{image_of, point_image, sgn, implied_value};
ghost use Rattle.algebra.specs.cells.CellPlaces.{line_sym};
ghost use Rattle.numbers.specs.Value.{prime, IsModulus, field, conj, value_of, pair_of};
ghost use Rattle.numbers.specs.Bounds.{Small};
ghost use Rattle.cell.specs.Volume.{group_of};
ghost use Rattle.cell.specs.Operations.{cell_halves, triple_of, point_of, sym_of, Length, Sizes, Within};
ghost use Rattle.cell.specs.Operations.{PointWithin};

use numbers::Pair;

// A unit cell as a call knows it: the number of its symmetry group, and the lengths of its three axes.
#[derive(Clone, Copy, Debug, PartialEq, Eq)]
pub struct UnitCell {
    pub group: u32,
    pub n1: u32,
    pub n2: u32,
    pub n3: u32,
}

// The index of a structure factor, in reciprocal space.
#[derive(Clone, Copy, Debug, PartialEq, Eq)]
pub struct Index {
    pub h: u32,
    pub k: u32,
    pub l: u32,
}

// A point of the map, in real space. No function takes one for the other.
#[derive(Clone, Copy, Debug, PartialEq, Eq)]
pub struct Point {
    pub x: u32,
    pub y: u32,
    pub z: u32,
}

// F at (±h, ±k, ±l) is (-1)^(h, k, l where odd) F(h, k, l), conjugated if `conjugate` says so.
#[derive(Clone, Copy, Debug, PartialEq, Eq)]
pub struct Operation {
    pub conjugate: bool,
    pub minus_h: bool,
    pub minus_k: bool,
    pub minus_l: bool,
    pub odd_h: bool,
    pub odd_k: bool,
    pub odd_l: bool,
}

// How many operations a group has of its own.
pub fn group_order(group: u32) -> u32
    requires { group < 5 }
    ensures { result ≡ length (ops (group_of group)) }
{
    if group == 0 {
        1
    } else if group == 4 {
        4
    } else {
        2
    }
}

// A row of the table of operations: three changes of sign, three parities.
fn row(
    minus_h: bool,
    minus_k: bool,
    minus_l: bool,
    odd_h: bool,
    odd_k: bool,
    odd_l: bool,
) -> Operation
    ensures { sym_of result
        ≡ Sym.sym false minus_h minus_k minus_l odd_h odd_k odd_l }
{
    Operation {
        conjugate: false,
        minus_h,
        minus_k,
        minus_l,
        odd_h,
        odd_k,
        odd_l,
    }
}

// The three screw axes of P2₁2₁2₁: number 1 along c, 2 along b, 3 along a. Each keeps the sign along its own axis alone; no two have the same parities.
fn screw_axis(number: u32) -> Operation
    requires { (0 < number) × (number < 4) }
    ensures { sym_of result ≡ get_or (ops P2₁2₁2₁) number one }
{
    row(
        number != 3,
        number != 2,
        number != 1,
        number != 2,
        number != 1,
        number != 3,
    )
}

// The group's own operations, the identity first.
pub fn group_operation(group: u32, number: u32) -> Operation
    requires { (group < 5) × (number < length (ops (group_of group))) }
    ensures { sym_of result ≡ get_or (ops (group_of group)) number one }
{
    if number == 0 {
        row(false, false, false, false, false, false)
    } else if group == 4 {
        screw_axis(number)
    } else if group == 1 {
        row(true, true, false, false, false, true)
    } else if group == 2 {
        row(false, false, true, false, false, false)
    } else {
        row(false, false, true, true, false, false)
    }
}

// The same together with Friedel's rule.
fn with_friedel(o: Operation) -> Operation
    ensures { sym_of result ≡ friedel · sym_of o }
{
    Operation {
        conjugate: !o.conjugate,
        minus_h: !o.minus_h,
        minus_k: !o.minus_k,
        minus_l: !o.minus_l,
        ..o
    }
}

// How many operations an orbit has: the group's own, with and without Friedel's rule.
pub fn operation_count(group: u32) -> u32
    requires { group < 5 }
    ensures { (result ≡ length (full (group_of group))) × (result ≤ 8) }
{
    2 * group_order(group)
}

pub fn operation_at(group: u32, number: u32) -> Operation
    requires { (group < 5) × (number < length (full (group_of group))) }
    ensures { sym_of result ≡ get_or (full (group_of group)) number one }
{
    let own = group_order(group);
    if number < own {
        group_operation(group, number)
    } else {
        with_friedel(group_operation(group, number - own))
    }
}

// The operation that maps each line along l to itself.
pub fn line_operation(group: u32) -> Operation
    requires { group < 5 }
    ensures { sym_of result ≡ line_sym (group_of group) }
{
    if group == 0 {
        operation_at(group, 0)
    } else if group == 1 {
        operation_at(group, 3)
    } else if group == 4 {
        operation_at(group, 5)
    } else {
        operation_at(group, 1)
    }
}

// h or -h on an axis of n, going round.
pub fn flipped(minus: bool, n: u32, h: u32) -> u32
    requires { Length n × (h < n) }
    ensures { (result ≡ flip minus (n / 2) h) × (result < n) }
{
    if minus {
        if h == 0 { 0 } else { n - h }
    } else {
        h
    }
}

// x or x + n/2 on an axis of n, going round.
fn half_shifted(odd: bool, n: u32, x: u32) -> u32
    requires { Length n × (x < n) }
    ensures { (result ≡ shifted odd (n / 2) x) × (result < n) }
{
    let half = n / 2;
    if odd {
        if x < half { x + half } else { x - half }
    } else {
        x
    }
}

// The image of an index.
pub fn image(o: Operation, cell: UnitCell, j: Index) -> Index
    requires { Sizes cell × Within cell j }
    ensures { (triple_of result ≡ image_of (cell_halves cell) (sym_of o) (triple_of j)) × Within cell result }
{
    Index {
        h: flipped(o.minus_h, cell.n1, j.h),
        k: flipped(o.minus_k, cell.n2, j.k),
        l: flipped(o.minus_l, cell.n3, j.l),
    }
}

// One coordinate of the image of a point: the sign changes if the operation conjugates or reflects, not if it does both.
fn moved(conjugate: bool, minus: bool, odd: bool, n: u32, x: u32) -> u32
    requires { Length n × (x < n) }
    ensures { (result ≡ shifted odd (n / 2) (flip (xor conjugate minus) (n / 2) x)) × (result < n) }
{
    half_shifted(odd, n, flipped(conjugate != minus, n, x))
}

// The image of a point.
pub fn point_image(o: Operation, cell: UnitCell, p: Point) -> Point
    requires { Sizes cell × PointWithin cell p }
    ensures { (point_of result ≡ point_image (cell_halves cell) (sym_of o) (point_of p)) × PointWithin cell result }
{
    Point {
        x: moved(o.conjugate, o.minus_h, o.odd_h, cell.n1, p.x),
        y: moved(o.conjugate, o.minus_k, o.odd_k, cell.n2, p.y),
        z: moved(o.conjugate, o.minus_l, o.odd_l, cell.n3, p.z),
    }
}

// (-1)^h x where the parity counts, else x.
pub fn signed(m: u32, odd: bool, h: u32, x: Pair) -> Pair
    requires { IsModulus m × Small (prime m) x }
    ensures { result ≡ pair_of ((field m).mul (sgn (field m) odd h) (value_of m x)) }
{
    if odd {
        if h % 2 == 0 {
            x
        } else {
            numbers::negated(m, x)
        }
    } else {
        x
    }
}

// The value at the image of j that x at j implies.
pub fn implied(m: u32, o: Operation, j: Index, x: Pair) -> Pair
    requires { IsModulus m × Small (prime m) x }
    ensures { result ≡ pair_of (implied_value (field m) (conj m) (sym_of o) (triple_of j) (value_of m x)) }
{
    let y = signed(
        m,
        o.odd_h,
        j.h,
        signed(m, o.odd_k, j.k, signed(m, o.odd_l, j.l, x)),
    );
    if o.conjugate {
        numbers::conjugate(m, y)
    } else {
        y
    }
}
