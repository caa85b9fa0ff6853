// The opening of a job by a file: the header opens it with kind 0, then its records are fed to it.
ghost use Rattle.std.specs.Prelude.{◌≡◌};
ghost use Rattle.refusals.specs.Refusals.{first};
ghost use Rattle.file_format.specs.Places.{PlacesOf};
ghost use Rattle.job.specs.Job.{open_step};
ghost use Rattle.job.specs.Answers.{open_outcome};
ghost use Rattle.factor_file.specs.File.{shape_tests, modulus_in, header_in, file_step};
ghost use Rattle.factor_file.specs.Answers.{file_outcome};

use crate::{FileRefusal, records};
use file_format::places::Places;
use job::Job;
use refusals::Refusal;

// The opening that the header names. The lists are parts of the file.
fn open_header(file: &[u8], places: Places, volume: &mut [u32]) -> Result<Job, Refusal>
    requires { PlacesOf file.now places × (0 ≡ first (shape_tests file.now)) }
    ensures { open_outcome result volume.new
        ≡ open_step (modulus_in file.now) (header_in file.now) 0 volume.old }
{
    let header = file_format::places::header_numbers(file);
    let cell = header.cell;
    let start1 = places.list1 + 1;
    let end1 = places.list2;
    let start2 = end1 + 1;
    let end2 = places.list3;
    let start3 = end2 + 1;
    let end3 = places.count;
    job::open::open(
        cell.group,
        header.modulus,
        0,
        cell.n1,
        cell.n2,
        cell.n3,
        &file[start1..end1],
        &file[start2..end2],
        &file[start3..end3],
        volume,
    )
}

// The header, then the records, of a file of sound shape.
fn open_sound(file: &[u8], places: Places, volume: &mut [u32]) -> Result<Job, FileRefusal>
    requires { PlacesOf file.now places × (0 ≡ first (shape_tests file.now)) }
    ensures { file_outcome result volume.new ≡ file_step file.now volume.old }
{
    let job = open_header(file, places, volume)?;
    records::feed_records(file, places, job, volume)
}

// Shape, header, records.
pub fn open_file(file: &[u8], volume: &mut [u32]) -> Result<Job, FileRefusal>
    ensures { file_outcome result volume.new ≡ file_step file.now volume.old }
{
    let places = file_format::places::places_of(file);
    file_format::shape::check_shape(file, places)?;
    open_sound(file, places, volume)
}
