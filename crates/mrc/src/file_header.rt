// The header of an MRC2014 file: a struct first, then its words.
ghost use Rattle.std.specs.Prelude.{◌≡◌, ◌≤◌, nat_abs, get_or};
ghost use Rattle.cell.specs.Operations.{cell_lengths};
ghost use Rattle.mrc.specs.Floats.{exact_limit};
ghost use Rattle.mrc.specs.Header.{headed, header_of, header_words, NoNan};

use crate::floats::{bits_of, float_of};
use crate::parameters::CellParameters;
use cell::operations::UnitCell;

// What the header says: the lengths, the edges and angles of the unit cell, and the densities.
#[derive(Clone, Copy)]
pub struct MrcHeader {
    pub n1: u32,
    pub n2: u32,
    pub n3: u32,
    pub a: f32,
    pub b: f32,
    pub c: f32,
    pub alpha: f32,
    pub beta: f32,
    pub gamma: f32,
    pub least: f32,
    pub greatest: f32,
    pub mean: f32,
    pub rms: f32,
}

// The header of a map with these edges and angles, least and greatest density. Mean and RMS deviation are not
// determined.
fn headed(
    cell: UnitCell,
    a: f32,
    b: f32,
    c: f32,
    alpha: f32,
    beta: f32,
    gamma: f32,
    least: i64,
    greatest: i64,
) -> MrcHeader
    requires { (nat_abs least ≤ exact_limit) × (nat_abs greatest ≤ exact_limit) }
    ensures { result ≡ headed (cell_lengths cell) a b c alpha beta gamma least greatest }
{
    MrcHeader {
        n1: cell.n1,
        n2: cell.n2,
        n3: cell.n3,
        a,
        b,
        c,
        alpha,
        beta,
        gamma,
        least: float_of(least),
        greatest: float_of(greatest),
        mean: float_of(least - 1),
        rms: float_of(-1),
    }
}

// The same of a cell's parameters: the angles that are not given are 90 degrees.
pub fn header_of(cell: UnitCell, parameters: CellParameters, least: i64, greatest: i64) -> MrcHeader
    requires { (nat_abs least ≤ exact_limit) × (nat_abs greatest ≤ exact_limit) }
    ensures { result ≡ header_of (cell_lengths cell) parameters least greatest }
{
    match parameters {
        CellParameters::Triclinic {
            a,
            b,
            c,
            alpha,
            beta,
            gamma,
        } => headed(cell, a, b, c, alpha, beta, gamma, least, greatest),
        CellParameters::Monoclinic { a, b, c, gamma } => headed(
            cell, a, b, c, 90.0, 90.0, gamma, least, greatest,
        ),
    }
}

// The words of the header up to the last that is not always zero. The format's names stand in the definition.
pub fn header_words(h: MrcHeader) -> [u32; 55]
    requires { NoNan h }
    ensures { result ≡ header_words h }
{
    let a = bits_of(h.a);
    let b = bits_of(h.b);
    let c = bits_of(h.c);
    let alpha = bits_of(h.alpha);
    let beta = bits_of(h.beta);
    let gamma = bits_of(h.gamma);
    let least = bits_of(h.least);
    let greatest = bits_of(h.greatest);
    let mean = bits_of(h.mean);
    let rms = bits_of(h.rms);
    [
        h.n1, h.n2, h.n3, 2, 0, 0, 0, h.n1, h.n2, h.n3, a, b, c, alpha, beta, gamma, 1, 2, 3,
        least, greatest, mean, 1, 0, 0, 0, 0, 20140, 0, 0, 0, 0, 0, 0, 0, 0, 0, 0, 0, 0, 0, 0, 0,
        0, 0, 0, 0, 0, 0, 0, 0, 0, 542130509, 17476, rms,
    ]
}

// Word k of the header; behind those of the list all are zero.
pub fn word_at(words: &[u32], k: usize) -> u32
    ensures { result ≡ get_or words.now k 0 }
{
    if k < words.len() { words[k] } else { 0 }
}
