// One line of structure factors: the six kinds, both directions.
#![tactic(auto)]

pub mod check; // check.rt
pub mod transform; // transform.rt
pub mod table; // table.rt
pub mod kinds; // kinds.rt

ghost use Rattle.std.specs.Prelude.{◌≡◌, length as length_of, drop};
ghost use Rattle.line.specs.Line.{transformed, line_step};
ghost use Rattle.lengths.specs.Lengths.{scratch_length};
ghost use Rattle.line.specs.Answers.{Accepted, line_outcome};
ghost use Rattle.line.specs.Specimens.{Specimens};
ghost use Rattle.line.specs.EverySplit.{EverySplit};
ghost use Rattle.line.specs.Demands.{RulesKept, ForwardIsSum, BackIsSum, CallIsSum, ListFree, Restored};
ghost use Rattle.line.specs.Demands.{RestoredAfter, TakenBack};

use refusals::Refusal;

// One line of structure factors, transformed in the lent line, or refused. The modulus number names the prime; direction 0 is forward, 1
// the inverse.
pub fn line(
    modulus: u32,
    kind: u32,
    direction: u32,
    length: u32,
    factors: &[u8],
    line: &mut [u32],
    scratch: &mut [u32],
) -> Result<(), Refusal>
    ensures { line_outcome result line.new scratch.new
        ≡ line_step modulus kind direction length factors.now line.old
        scratch.old }
{
    crate::check::check_line(
        modulus,
        kind,
        direction,
        length,
        factors,
        &line[..],
        scratch.len(),
    )?;
    transform_line(
        modulus,
        kind,
        direction,
        length,
        lengths::packed(factors),
        line,
        scratch,
    );
    slices::buffers::clear(scratch, 11520);
    Ok(())
}

// The transform of an accepted line, in place. The tables of the direction are made once, and lent down; the folded line stands in the
// scratch's first 5,760 numbers, and what it leaves there is not said. The work slice is local here, so it is `transform`, which is lent
// it, that says by which list a plain line goes.
fn transform_line(
    modulus: u32,
    kind: u32,
    direction: u32,
    length: u32,
    factors: u32,
    line: &mut [u32],
    scratch: &mut [u32],
)
    requires { Accepted modulus kind direction length factors line.old (length_of scratch.old) }
    ensures line_after { line.new ≡ transformed modulus kind direction length line.old }
    ensures scratch_unchanged { drop scratch_length scratch.new ≡ drop scratch_length scratch.old }
{
    let a = (length / 2) as usize;
    let re = roots::powers::real_parts(modulus);
    let im = crate::table::imaginary_parts(modulus, direction);
    let tan = crate::table::half_tangents(modulus, direction);
    let mut work = [0u32; 5760];
    let fold = &mut scratch[..5760];
    crate::transform::transform(
        modulus, kind, direction, &re, &im, &tan, factors, a, line, fold, &mut work,
    );
}

// The paper's starred lines, computed from the definitions.
pub fn starred_lines()
    ensures { Specimens }
{}

// The second demand: a packed line stands for a whole line of its kind, and what is computed is the direct sum over that ..
pub fn direct_sums()
    ensures { RulesKept × ForwardIsSum × BackIsSum }
{}

// .. also of the numbers that an accepted call leaves, whatever its factor list ..
pub fn called_sums()
    ensures { CallIsSum × ListFree }
{}

// .. by the steps of the list, each of which gives the three parts of equation (3) of document 001 for its split ..
pub fn equation_three()
    ensures { EverySplit }
{}

// .. and each direction restores what the other was lent, call after call.
pub fn restored()
    ensures { Restored × RestoredAfter × TakenBack }
{}
