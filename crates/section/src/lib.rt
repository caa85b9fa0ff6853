// The section text: plane z of a combined map as a page of lines, 69 characters each, with the plane's total, mean and
// remainder at its end.
//
// Every line has one width, so the length of the page is known before anything is written.
#![tactic(auto)]

mod check; // check.rt: the refusals
mod fields; // fields.rt: right-aligned numbers, closing lines
mod lines; // lines.rt: the rows of the page
mod sums; // sums.rt: the total of the plane

ghost use Rattle.std.specs.Prelude.{◌≡◌};
ghost use Rattle.cell.specs.Operations.{cell_lengths};
ghost use Rattle.output.specs.Written.{Wrote, Ends};
ghost use Rattle.output.specs.Answers.{fill_outcome};
ghost use Rattle.section.specs.Section.{section_text, section_step};
ghost use Rattle.section.specs.PointsRead.{ReadsPlaneAlone};
ghost use Rattle.section.specs.SectionLaws.{SectionLaws, SectionWidth, SectionPoints};
ghost use Rattle.section.specs.SectionPlaces.{SectionPlaces};
ghost use Rattle.section.specs.Sound.{Sound};

use cell::operations::UnitCell;
use refusals::Refusal;

// The page goes to the output's first bytes, or the call is refused and changes nothing.
pub fn section_text(
    group: u32,
    n1: u32,
    n2: u32,
    n3: u32,
    map: &[i64],
    z: u32,
    out: &mut [u8],
) -> Result<usize, Refusal>
    ensures { fill_outcome result out.new
        ≡ section_step group (n1, n2, n3) map.now z out.old }
{
    let cell = UnitCell {
        group: group,
        n1: n1,
        n2: n2,
        n3: n3,
    };
    crate::check::check_section(cell, map, z, out.len())?;
    Ok(put_section(out, cell, map, z))
}

// The rows, then the three closing lines.
fn put_section(out: &mut [u8], cell: UnitCell, map: &[i64], z: u32) -> usize
    requires { Sound cell map.now z }
    ensures { Wrote 0 (section_text cell.group (cell_lengths cell) map.now z)
        out.old result out.new }
{
    let total = crate::sums::plane_total(cell, map, z);
    let points = (cell.n1 as u64) * (cell.n2 as u64);
    let rows = crate::lines::put_rows(out, 0, cell, map, z);
    crate::fields::put_closing(out, rows, total, points)
}

// Nothing but the numbers of the plane's points is read.
pub fn reads_plane_alone()
    ensures { ReadsPlaneAlone }
{}

// Of every section that is written: the total is the mean times the points and the remainder, every line has 69
// characters and a line feed, and each number is read at its bytes of the page. Of a combined map of a cell: the
// section has the cell's numbers, on planes that are not stored too. The function does nothing: it is there for its
// promise.
pub fn section_laws()
    ensures { SectionLaws × SectionWidth × SectionPoints × SectionPlaces }
{}
