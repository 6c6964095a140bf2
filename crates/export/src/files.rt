// Files of a book: the revision of one, and the conversions between the two stored forms.
ghost use Rattle.std.specs.Prelude.{◌≡◌};
ghost use Rattle.export.specs.BookCalls.{convert_back_call, convert_call, load_call};
ghost use Rattle.outcomes.specs.Outcomes.{Answered, Changed, in_numbers};

use outcomes::values::{alone, answered, halves};
use ring::Refusal;
use stored::conversions::{convert, convert_back};
use stored::load;

// Loads a book under a lowest revision: its revision.
#[tactic(auto, using(outcomes::proofs::OutcomeLaws::refusal_number), unfolding(crate::specs::BookCalls::load_call))]
fn revision(bytes: &[u8], lowest: u32) -> Result<[u16; 2], Refusal>
    ensures { in_numbers result ≡ load_call bytes.now lowest }
{
    Ok(halves(load(bytes, lowest)?.revision()))
}

// Whether the bytes are a stored book of the lowest revision or a later one. Values: its revision, the low half and then the high one.
#[unsafe(no_mangle)]
pub extern "C" fn tarziloen_book_load(bytes: &[u8], lowest: u32, values: &mut [u16]) -> u16
    ensures { Answered (load_call bytes.now lowest) values.old values.new result }
{
    answered(revision(bytes, lowest), values)
}

// Converts the old form in the bytes to the new one in the buffer. Value: the length.
#[tactic(auto, unfolding(crate::specs::BookCalls::convert_call))]
#[unsafe(no_mangle)]
pub extern "C" fn tarziloen_book_convert(bytes: &[u8], buffer: &mut [u8], values: &mut [u16]) -> u16
    ensures { Changed (convert_call bytes.now buffer.old) buffer.new values.old
        values.new result }
{
    answered(alone(convert(bytes, buffer)), values)
}

// Converts the new form in the bytes back to the old one in the buffer. Value: the length.
#[tactic(auto, unfolding(crate::specs::BookCalls::convert_back_call))]
#[unsafe(no_mangle)]
pub extern "C" fn tarziloen_book_convert_back(
    bytes: &[u8],
    buffer: &mut [u8],
    values: &mut [u16],
) -> u16
    ensures { Changed (convert_back_call bytes.now buffer.old) buffer.new values.old
        values.new result }
{
    answered(alone(convert_back(bytes, buffer)), values)
}
