// The text of a refusal: its number, and the place of the record at fault.
ghost use Rattle.std.specs.Prelude.{◌≡◌, length};
ghost use Rattle.output.specs.Written.{Wrote};
ghost use Rattle.refusals.specs.Refusals.{number_of};
ghost use Rattle.printing.specs.Text.{refusal_text, put_text};
ghost use Rattle.output.specs.Answers.{fill_outcome};

use refusals::Refusal;

// "refused 12 at 0", from the output's first byte on.
fn put_refusal(out: &mut [u8], number: u32, place: u32) -> usize
    ensures { Wrote 0 (refusal_text number place) out.old result out.new }
{
    let word = output::put_bytes(out, 0, b"refused");
    let refusal = output::put_field(out, word, number);
    let at = output::put_bytes(out, refusal, b" at");
    let record = output::put_field(out, at, place);
    output::put_byte(out, record, b'\n')
}

// How many bytes that text has.
fn refusal_length(number: u32, place: u32) -> usize
    ensures { result ≡ length (refusal_text number place) }
{
    let mut nothing = [0u8; 0];
    put_refusal(&mut nothing, number, place)
}

// The text of a refusal goes to the output's first bytes, if they are enough for it.
pub fn refusal_text(refusal: Refusal, place: u32, out: &mut [u8]) -> Result<usize, Refusal>
    ensures { fill_outcome result out.new
        ≡ put_text (refusal_text (number_of refusal) place) out.old }
{
    let number = refusals::number_of(refusal);
    if out.len() < refusal_length(number, place) {
        return Err(Refusal::OutputTooShort);
    }
    Ok(put_refusal(out, number, place))
}
