// Maps for the viewers: the whole cell of a combined map as a file in the format MRC2014.
//
// The map's shape and the cell's parameters are checked first, then its densities are read once for their range, which
// decides whether floats can hold them and stands in the header; then the header and the densities are written, x
// fastest.
#![tactic(auto)]

pub mod floats; // floats.rt: whole numbers as floats, and their bits
pub mod parameters; // parameters.rt: the unit cell's edges and angles
pub mod file_header; // file_header.rt: the header as a struct, and its words
pub mod ranges; // ranges.rt: the least and the greatest density
pub mod writing; // writing.rt: words and densities on an output

ghost use Rattle.std.specs.Prelude.{◌≡◌, true, length};
ghost use Rattle.refusals.specs.Refusals.{first, accepted};
ghost use Rattle.refusals.specs.Checks.{checked_number};
ghost use Rattle.cell.specs.Operations.{Sizes};
ghost use Rattle.output.specs.Output.{filled, not_filled};
ghost use Rattle.output.specs.Answers.{fill_outcome};
ghost use Rattle.output.specs.Written.{Wrote};
ghost use Rattle.mrc.specs.Floats.{FloatsExact};
ghost use Rattle.mrc.specs.Header.{Undetermined};
ghost use Rattle.mrc.specs.HeaderRead.{HeaderRead};
ghost use Rattle.mrc.specs.Parameters.{of_group, ParameterEnds, GroupParameters};
ghost use Rattle.mrc.specs.PointsRead.{ReadsPointsAlone};
ghost use Rattle.mrc.specs.Ranges.{Spans, of_stored, CellValues};
ghost use Rattle.mrc.specs.Mrc.{mrc_bytes, file_length, parameter_tests, shape_tests, fill_tests, mrc_step};
ghost use Rattle.mrc.specs.Mrc.{Writable, PointsPlaced};
ghost use Rattle.mrc.specs.Viewed.{PointsViewed, FloatLimit};
ghost use Rattle.mrc.specs.Orders.{MrcRefusals};

use crate::parameters::CellParameters;
use crate::ranges::DensityRange;
use cell::operations::UnitCell;
use refusals::Refusal;

// The whole cell of a combined map goes to the output's first bytes, or the call is refused and changes nothing.
pub fn mrc_map(
    cell: UnitCell,
    map: &[i64],
    parameters: CellParameters,
    out: &mut [u8],
) -> Result<usize, Refusal>
    ensures { fill_outcome result out.new
        ≡ mrc_step cell map.now parameters out.old }
{
    check_shape(cell, map.len(), parameters)?;
    fill(cell, map, parameters, out)
}

// 8, 3, 9, 6, 29: what needs no density.
fn check_shape(cell: UnitCell, length: usize, parameters: CellParameters) -> Result<(), Refusal>
    ensures { checked_number result ≡ first (shape_tests cell length parameters) }
{
    combined::check_combined_map(cell, length)?;
    check_parameters(cell.group, parameters)
}

fn check_parameters(group: u32, parameters: CellParameters) -> Result<(), Refusal>
    ensures { checked_number result ≡ first (parameter_tests group parameters) }
{
    if parameters::of_group(group, parameters) {
        Ok(())
    } else {
        Err(Refusal::UnitCell)
    }
}

// 30, 18, and the file.
fn fill(
    cell: UnitCell,
    map: &[i64],
    parameters: CellParameters,
    out: &mut [u8],
) -> Result<usize, Refusal>
    requires { 0 ≡ first (shape_tests cell (length map.now) parameters) }
    ensures { fill_outcome result out.new
        ≡ accepted (first (fill_tests cell map.now parameters (length out.old)))
        (filled (mrc_bytes cell map.now parameters) out.old) (not_filled out.old) }
{
    let range = ranges::map_range(cell, map);
    if !ranges::is_exact(range) {
        return Err(Refusal::FloatRange);
    }
    if out.len() < file_length(cell) {
        return Err(Refusal::OutputTooShort);
    }
    Ok(put_file(cell, map, parameters, range, out))
}

// The header, then the densities.
fn put_file(
    cell: UnitCell,
    map: &[i64],
    parameters: CellParameters,
    range: DensityRange,
    out: &mut [u8],
) -> usize
    requires { Writable cell map.now
        × (of_group cell.group parameters ≡ true)
        × Spans range (of_stored cell map.now) }
    ensures { Wrote 0 (mrc_bytes cell map.now parameters) out.old result
        out.new }
{
    let header = file_header::header_of(cell, parameters, range.least, range.greatest);
    let densities = writing::put_header(out, 0, header);
    writing::put_cell(out, densities, cell, map)
}

// How many bytes the file has.
fn file_length(cell: UnitCell) -> usize
    requires { Sizes cell }
    ensures { result ≡ file_length cell }
{
    let n1 = cell.n1 as usize;
    let n2 = cell.n2 as usize;
    let n3 = cell.n3 as usize;
    1024 + n3 * (n2 * (n1 * 4))
}

// Nothing but the numbers of the cell's points is read.
pub fn reads_points_alone()
    ensures { ReadsPointsAlone }
{}

// A reader finds each point's density at its place in the file.
pub fn points_placed()
    ensures { PointsPlaced }
{}

// Of a cell that obeys its group, a viewer finds each point's number where the header says that it stands.
pub fn points_viewed()
    ensures { PointsViewed }
{}

// A map is refused 30 exactly if a density's magnitude is above 16,777,215.
pub fn float_limit()
    ensures { FloatLimit }
{}

// Which floats are taken for edges and angles, at the ends.
pub fn parameter_ends()
    ensures { ParameterEnds }
{}

// What is taken in each group, and the other kind of cell than the group's is not.
pub fn group_parameters()
    ensures { GroupParameters }
{}

// A reader finds each word of the header by its number.
pub fn header_read()
    ensures { HeaderRead }
{}

// Nothing is lost between a density and its four bytes.
pub fn floats_exact()
    ensures { FloatsExact }
{}

// The header says that mean and RMS deviation are not determined.
pub fn undetermined()
    ensures { Undetermined }
{}

// The least and the greatest density are those of the whole cell.
pub fn cell_values()
    ensures { CellValues }
{}

// The refusals stand in the papers' order.
pub fn refusal_order()
    ensures { MrcRefusals }
{}
