// From the bytes of a factor file to the text of its map, or of its refusal.
ghost use Rattle.std.specs.Prelude.{◌≡◌};
ghost use Rattle.lengths.specs.Lengths.{scratch_length};
ghost use Rattle.refusals.specs.Refusals.{first};
ghost use Rattle.job.specs.Job.{map_held, with_state, synthesised};
ghost use Rattle.job.specs.TestSteps.{synthesis_tests};
ghost use Rattle.factor_file.specs.File.{file_step};
ghost use Rattle.printing.specs.Text.{map_text, put_text, opened_text, print_step};
ghost use Rattle.output.specs.Answers.{fill_outcome};

use crate::map_text::{refusal, text};
use factor_file::open_file;
use job::Job;
use refusals::Refusal;

// The map of the factors that a job holds. No test refuses its synthesis.
fn print_job(job: Job, volume: &mut [u32], out: &mut [u8]) -> Result<usize, Refusal>
    requires { 0 ≡ first (synthesis_tests job volume.old scratch_length) }
    ensures { fill_outcome result out.new
        ≡ put_text (map_text (with_state job map_held) (synthesised job volume.old)) out.old }
{
    let mut scratch = [0u32; 11520];
    let synthesised = job.synthesis(volume, &mut scratch)?;
    text::map_text(synthesised, volume, out)
}

// The map of a file that is lent a volume.
fn print_opened(file: &[u8], volume: &mut [u32], out: &mut [u8]) -> Result<usize, Refusal>
    ensures { fill_outcome result out.new
        ≡ put_text (opened_text (file_step file.now volume.old)) out.old }
{
    match open_file::open_file(file, volume) {
        Ok(job) => print_job(job, volume, out),
        Err(refused) => refusal::refusal_text(refused.refusal, refused.place, out),
    }
}

// The text of a file's map, or of its refusal, goes to the output's first bytes.
pub fn print_file(file: &[u8], out: &mut [u8]) -> Result<usize, Refusal>
    ensures { fill_outcome result out.new ≡ print_step file.now out.old }
{
    if crate::limits::too_long(file) {
        return refusal::refusal_text(Refusal::FileShape, 0, out);
    }
    let mut numbers = [0u32; 2048];
    let count = crate::limits::lent_to(file);
    print_opened(file, &mut numbers[..count], out)
}
