// The text of a map: a head line, then a line for each row of the volume.
ghost use Rattle.std.specs.Prelude.{◌≡◌, ◌<◌, length};
ghost use Rattle.refusals.specs.Refusals.{first};
ghost use Rattle.refusals.specs.Checks.{checked_number};
ghost use Rattle.cell.specs.Volume.{layers};
ghost use Rattle.job.specs.Job.{group_in, halves};
ghost use Rattle.output.specs.Output.{each};
ghost use Rattle.output.specs.Written.{Wrote, Ends};
ghost use Rattle.printing.specs.Text.{head_line, row_line, map_text, text_tests, text_step};
ghost use Rattle.output.specs.Answers.{fill_outcome};
ghost use Rattle.printing.specs.Printable.{Printable};

use crate::map_text::residues;
use cell::places;
use job::check::tests;
use job::{Job, valid};
use refusals::Refusal;

// "map", the group and the lengths.
fn put_head(out: &mut [u8], at: usize, job: Job) -> usize
    requires { Ends at (head_line job) }
    ensures { Wrote at (head_line job) out.old result out.new }
{
    let word = output::put_bytes(out, at, b"map");
    let group = output::put_field(out, word, job.group);
    let first = output::put_field(out, group, job.a.length);
    let second = output::put_field(out, first, job.b.length);
    let third = output::put_field(out, second, job.c.length);
    output::put_byte(out, third, b'\n')
}

// The row at z, x: both, and the values by y.
fn put_row(out: &mut [u8], at: usize, job: Job, volume: &[u32], z: u32, x: u32) -> usize
    requires printable { Printable job volume.now × (z < layers (group_in job) (halves job)) × (x < job.a.length) }
    requires ends { Ends at (row_line job volume.now z x) }
    ensures { Wrote at (row_line job volume.now z x) out.old result out.new }
{
    let n2 = job.b.length;
    let p = numbers::modulus(job.modulus);
    let start = 2 * places::pair_place(job.unit_cell(), z, x, 0);
    let plane = output::put_decimal(out, at, z);
    let row = output::put_field(out, plane, x);
    let values = crate::row_values::put_values(out, row, p, volume, start, n2 as usize);
    output::put_byte(out, values, b'\n')
}

// The rows of the plane z, by rising x.
fn put_plane(out: &mut [u8], at: usize, job: Job, volume: &[u32], z: u32) -> usize
    requires printable { Printable job volume.now × (z < layers (group_in job) (halves job)) }
    requires ends { Ends at (each job.a.length (λ x. row_line job volume.now z x)) }
    ensures { Wrote at (each job.a.length (λ x. row_line job volume.now z x))
        out.old result out.new }
{
    let mut place = at;
    for x in 0..job.a.length {
        place = put_row(out, place, job, volume, z, x);
    }
    place
}

// The stored planes, by rising z.
fn put_planes(out: &mut [u8], at: usize, job: Job, volume: &[u32]) -> usize
    requires printable { Printable job volume.now }
    requires ends { Ends at
        (each (layers (group_in job) (halves job))
        (λ z. each job.a.length (λ x. row_line job volume.now z x))) }
    ensures { Wrote at
        (each (layers (group_in job) (halves job))
        (λ z. each job.a.length (λ x. row_line job volume.now z x)))
        out.old result out.new }
{
    let planes = places::layer_count(job.unit_cell());
    let mut place = at;
    for z in 0..planes {
        place = put_plane(out, place, job, volume, z);
    }
    place
}

// The whole text, from the output's first byte on.
fn put_map(out: &mut [u8], job: Job, volume: &[u32]) -> usize
    requires { Printable job volume.now }
    ensures { Wrote 0 (map_text job volume.now) out.old result out.new }
{
    let rows = put_head(out, 0, job);
    put_planes(out, rows, job, volume)
}

// How many bytes the text has.
fn map_length(job: Job, volume: &[u32]) -> usize
    requires { Printable job volume.now }
    ensures { result ≡ length (map_text job volume.now) }
{
    let mut nothing = [0u8; 0];
    put_map(&mut nothing, job, volume)
}

// 25, 22, 6, 7, 18.
fn check_text(job: Job, volume: &[u32], room: usize) -> Result<(), Refusal>
    ensures { checked_number result ≡ first (text_tests job volume.now room) }
{
    if !valid::valid_job(job) {
        return Err(Refusal::ImpossibleJob);
    }
    if job.state != 2 {
        return Err(Refusal::NoMap);
    }
    if !tests::fits(job.unit_cell(), volume) {
        return Err(Refusal::BufferLength);
    }
    if !residues::prints_residues(job, volume) {
        return Err(Refusal::NotResidue);
    }
    if room < map_length(job, volume) {
        return Err(Refusal::OutputTooShort);
    }
    Ok(())
}

// The text of the map that a job holds goes to the output's first bytes, or the call is refused and changes nothing.
pub fn map_text(job: Job, volume: &[u32], out: &mut [u8]) -> Result<usize, Refusal>
    ensures { fill_outcome result out.new ≡ text_step job volume.now out.old }
{
    check_text(job, volume, out.len())?;
    Ok(put_map(out, job, volume))
}
