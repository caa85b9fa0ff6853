// Kind 1, the Hermitian lines: up to sixteen neighbouring rows along k, lent as the part of the volume that holds them.
//
// A row has B + 1 pairs, of which the first and the last are real; the packed line has B. Direction 0 is synthesis: the
// rows are gathered, each place goes with its mate (`mates`), the short lines are transformed, and N = 2 B real values
// and two zeros are left of each row. Direction 1 is analysis, with the tables of the conjugate root: the same steps in
// the other order, and all divided by N.
pub mod rows; // hermitian/rows.rt: rows into lanes and back
pub mod mates; // hermitian/mates.rt: each place with its mate

ghost use Rattle.std.specs.Prelude.{◌≡◌, List, length, ℕ, ◌+◌, ◌*◌, ◌<◌, ◌≤◌};
ghost use Rattle.numbers.specs.Value.{prime, IsModulus};
ghost use Rattle.slices.specs.Pairs.{Below};
ghost use Rattle.lengths.specs.Admitted.{Factored};
ghost use Rattle.fold_formulas.specs.FoldFormulas.{Frame};
ghost use Rattle.batches.specs.Reduction.{ShiftedTable};
ghost use Rattle.folded_batches.specs.Rows.{folded_rows};

// What the rows become is what they become one after the other. `line` and `fold` are lent for the work.
pub fn turn_rows<'a>(
    m: u32,
    direction: u32,
    re: &'a [u32; 2880],
    im: &'a [u32; 2880],
    sre: &'a [u32; 2880],
    sim: &'a [u32; 2880],
    factors: u32,
    b: usize,
    lanes: usize,
    rows: &mut [u32],
    line: &mut [u32],
    fold: &mut [u32],
)
    requires frame { Frame m b re.now im.now × ShiftedTable m re.now im.now sre.now sim.now
        × Factored factors b × (direction < 2) }
    requires lanes_bound { (lanes ≤ 16) × (length rows.old ≡ 2 * ((b + 1) * lanes)) × Below (prime m) rows.old }
    requires b_in_bounds { (32 * b ≤ length line.old) × (length fold.old ≡ 32 * b) }
    ensures { (tan : List ℕ) → rows.new
        ≡ folded_rows m direction b re.now im.now tan lanes rows.old }
{
    let size = 32 * b;
    if direction == 0 {
        synthesis(
            m,
            re,
            im,
            sre,
            sim,
            factors,
            b,
            lanes,
            rows,
            &mut line[..size],
            fold,
        );
    } else {
        analysis(
            m,
            re,
            im,
            sre,
            sim,
            factors,
            b,
            lanes,
            rows,
            &mut line[..size],
            fold,
        );
    }
}

// Direction 0.
#[tactic(auto, using(fold_formulas::proofs::Frames::half_divides))]
fn synthesis<'a>(
    m: u32,
    re: &'a [u32; 2880],
    im: &'a [u32; 2880],
    sre: &'a [u32; 2880],
    sim: &'a [u32; 2880],
    factors: u32,
    b: usize,
    lanes: usize,
    rows: &mut [u32],
    line: &mut [u32],
    fold: &mut [u32],
)
    requires frame { Frame m b re.now im.now × ShiftedTable m re.now im.now sre.now sim.now
        × Factored factors b }
    requires lanes_bound { (lanes ≤ 16) × (length rows.old ≡ 2 * ((b + 1) * lanes)) × Below (prime m) rows.old }
    requires line_len { (length line.old ≡ 32 * b) × (length fold.old ≡ 32 * b) }
    ensures { (tan : List ℕ) → rows.new
        ≡ folded_rows m 0 b re.now im.now tan lanes rows.old }
{
    let c = batches::residues::shift(m);
    rows::gather(rows, 2 * b, b, lanes, line);
    mates::mate_places(m, 0, re, im, sre, sim, b, line, fold);
    batches::transform::transform(m, re, im, sre, sim, factors, b, fold, line);
    rows::scatter(m, c, fold, 1, b, lanes, rows);
}

// Direction 1.
#[tactic(auto, using(fold_formulas::proofs::Frames::half_divides))]
fn analysis<'a>(
    m: u32,
    re: &'a [u32; 2880],
    im: &'a [u32; 2880],
    sre: &'a [u32; 2880],
    sim: &'a [u32; 2880],
    factors: u32,
    b: usize,
    lanes: usize,
    rows: &mut [u32],
    line: &mut [u32],
    fold: &mut [u32],
)
    requires frame { Frame m b re.now im.now × ShiftedTable m re.now im.now sre.now sim.now
        × Factored factors b }
    requires lanes_bound { (lanes ≤ 16) × (length rows.old ≡ 2 * ((b + 1) * lanes)) × Below (prime m) rows.old }
    requires line_len { (length line.old ≡ 32 * b) × (length fold.old ≡ 32 * b) }
    ensures { (tan : List ℕ) → rows.new
        ≡ folded_rows m 1 b re.now im.now tan lanes rows.old }
{
    // the mates make twice the line: 2^32 over twice the length
    let c = crate::mirror::last_factor(m, 1, b);
    rows::gather(rows, 1, b, lanes, fold);
    batches::transform::transform(m, re, im, sre, sim, factors, b, fold, line);
    mates::mate_places(m, 1, re, im, sre, sim, b, fold, line);
    rows::scatter(m, c, line, 2 * b, b, lanes, rows);
}
