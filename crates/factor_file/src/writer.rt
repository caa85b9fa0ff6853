// The writer of factor files: the file of a job that holds factors, written into a lent output.
//
// A first pass over the cell counts the records, so that nothing is written before the file is known to fit; a second
// writes them.
ghost use Rattle.std.specs.Prelude.{◌≡◌, ◌≤◌, length};
ghost use Rattle.factor_file.specs.File.{write_step, length_step};
ghost use Rattle.factor_file.specs.Measured.{Measured, MeasuredBefore};
ghost use Rattle.output.specs.Answers.{fill_outcome};
ghost use Rattle.factor_file.specs.Answers.{said_size};
ghost use Rattle.factor_file.specs.Steps.{filed_with, IsFactors};

use crate::file::records;
use cell::operations::UnitCell;
use job::Job;
use refusals::Refusal;

// 18, and the file. Where all factors are zero it is a file of no records.
fn write_factors(
    modulus: u32,
    cell: UnitCell,
    f1: u32,
    f2: u32,
    f3: u32,
    volume: &[u32],
    out: &mut [u8],
) -> Result<usize, Refusal>
    requires { IsFactors modulus cell volume.now × (length volume.now ≤ 16777216) }
    ensures { fill_outcome result out.new
        ≡ filed_with modulus cell f1 f2 f3 volume.now out.old }
{
    let count = records::count_records(modulus, cell, volume);
    if out.len() < file_format::layout::file_length(modulus, f1, f2, f3, count) {
        return Err(Refusal::OutputTooShort);
    }
    Ok(crate::file::put_file(modulus, cell, f1, f2, f3, count, volume, out))
}

// The file of the job whose factors the volume holds; the places of the output beyond it are as they were. Job and volume are asked
// for what a synthesis asks: 25, 23, 6, 7, 14. The writer needs no scratch: the check is told of one that is long enough.
pub fn write_file(job: Job, volume: &[u32], out: &mut [u8]) -> Result<usize, Refusal>
    ensures { fill_outcome result out.new ≡ write_step job volume.now out.old }
{
    let cell = job.unit_cell();
    job.check_synthesis(volume, 11520)?;
    write_factors(
        job.modulus,
        cell,
        job.a.factors,
        job.b.factors,
        job.c.factors,
        volume,
        out,
    )
}

// How many places `write_file` needs for this job and volume: the bytes of the file. No output is lent, and nothing is written.
pub fn file_length(job: Job, volume: &[u32]) -> Result<usize, Refusal>
    ensures { said_size result ≡ length_step job volume.now }
{
    let cell = job.unit_cell();
    job.check_synthesis(volume, 11520)?;
    let count = records::count_records(job.modulus, cell, volume);
    Ok(file_format::layout::file_length(
        job.modulus,
        job.a.factors,
        job.b.factors,
        job.c.factors,
        count,
    ))
}

// 18 is answered for an output that is shorter than the file, and for no other. The function does nothing; its promise is the statement.
pub fn measured()
    ensures { Measured }
{}

// And `file_length` tells how long the file is.
pub fn measured_before()
    ensures { MeasuredBefore }
{}
