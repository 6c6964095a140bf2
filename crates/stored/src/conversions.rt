// Conversions of a stored book: from the old form to the new one, and back.
ghost use Rattle.std.specs.Prelude.{◌≡◌};
ghost use Rattle.stored.specs.Converting.{convert_answer, after_convert, back_answer, after_back};

use super::forms::Form;
use super::loads::{load, load_old};
use super::stores::write_form;
use ring::Refusal;

// Writes the new form of the book that the bytes are the old form of: its length, or refusal 18, 19, 20 or 17 with nothing written.
#[tactic(auto, unfolding(crate::specs::Converting::convert_answer, crate::specs::Converting::after_convert))]
pub fn convert(bytes: &[u8], buffer: &mut [u8]) -> Result<u16, Refusal>
    ensures { (result ≡ convert_answer bytes.now buffer.old)
        × (buffer.new ≡ after_convert bytes.now buffer.old) }
{
    let book = load_old(bytes)?;
    write_form(Form::New, &book, buffer)
}

// Writes the old form of the book that the bytes are the new form of: its length, or refusal 18, 19, 20, 27 or 17 with nothing written.
#[tactic(auto, unfolding(crate::specs::Converting::back_answer, crate::specs::Converting::after_back))]
pub fn convert_back(bytes: &[u8], buffer: &mut [u8]) -> Result<u16, Refusal>
    ensures { (result ≡ back_answer bytes.now buffer.old)
        × (buffer.new ≡ after_back bytes.now buffer.old) }
{
    let book = load(bytes, 0)?;
    if book.has_marked() {
        return Err(Refusal::MarkedConversion);
    }
    write_form(Form::Old, &book, buffer)
}
