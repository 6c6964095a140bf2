// Questions to a book in its stored form.
ghost use Rattle.export.specs.BookCalls.{holder_call, preview_call, show_call};
ghost use Rattle.outcomes.specs.Outcomes.{Answered};

use outcomes::previews::preview_in;
use outcomes::questions::{holder_in, show_in};
use outcomes::values::{answered, refused};
use stored::load;

// Shows an order of the book in the bytes to a crew. Values: a, b, way (0 plain, 1 seam), colour.
#[tactic(auto, using(outcomes::proofs::OutcomeLaws::refusal_number), unfolding(crate::specs::BookCalls::show_call))]
#[unsafe(no_mangle)]
pub extern "C" fn tarziloen_book_show(
    bytes: &[u8],
    serial: u16,
    crew: u16,
    values: &mut [u16],
) -> u16
    ensures { Answered (show_call bytes.now serial crew) values.old values.new result }
{
    answered(
        load(bytes, 0).and_then(|book| show_in(&book, serial, crew)),
        values,
    )
}

// The holder of a colour on a link, in the book in the bytes, as far as a crew may know. Values: 0 free, 1 held, 2 held by an order that it
// may read; the serial of that order, or 0.
#[tactic(auto, using(outcomes::proofs::OutcomeLaws::refusal_number), unfolding(crate::specs::BookCalls::holder_call))]
#[unsafe(no_mangle)]
pub extern "C" fn tarziloen_book_holder(
    bytes: &[u8],
    link: u16,
    colour: u16,
    crew: u16,
    values: &mut [u16],
) -> u16
    ensures { Answered (holder_call bytes.now link colour crew) values.old values.new result }
{
    answered(
        load(bytes, 0).and_then(|book| holder_in(&book, link, colour, crew)),
        values,
    )
}

// Tries lines, of five entries each, on the book in the bytes. Values: how many serials there are; the line that would be turned down and
// the number of its refusal, or 65,535 and 0; the serials. Nothing is stored.
#[tactic(auto, using(outcomes::proofs::OutcomeLaws::refusal_number), unfolding(crate::specs::BookCalls::preview_call))]
#[unsafe(no_mangle)]
pub extern "C" fn tarziloen_book_preview(bytes: &[u8], lines: &[u16], values: &mut [u16]) -> u16
    ensures { Answered (preview_call bytes.now lines.now) values.old values.new result }
{
    match load(bytes, 0) {
        Ok(book) => preview_in(&book, lines, values),
        Err(refusal) => refused(refusal, values),
    }
}
