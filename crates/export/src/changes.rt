// Changes of a book, whose stored form lies in a buffer of the caller's.
ghost use Rattle.std.specs.Prelude.{◌≡◌};
ghost use Rattle.export.specs.BookCalls.{confirm_call, front, grant_call, open_call, remove_call};
ghost use Rattle.outcomes.specs.Outcomes.{Changed, outcome_of};
ghost use Rattle.stored.specs.Loading.{loaded, loading_of};

use book::{Book, Line};
use outcomes::changes::{confirm_in, grant_in, keep, remove_in};
use outcomes::values::answered;
use ring::Refusal;
use stored::load;

// Opens a book and stores it.
#[tactic(auto, using(outcomes::proofs::OutcomeLaws::refusal_number), unfolding(crate::specs::BookCalls::open_call))]
fn open(n: u16, w: u16, buffer: &mut [u8]) -> Result<[u16; 1], Refusal>
    ensures { outcome_of result buffer.new ≡ open_call n w buffer.old }
{
    keep(&Book::open(n, w)?, buffer)
}

// Loads the book in the first bytes of a buffer, of whatever revision; 18 if the buffer has fewer.
fn load_front(buffer: &[u8], length: usize) -> Result<Book, Refusal>
    ensures { loading_of result ≡ loaded 0 (front length buffer.now) }
{
    load(buffer.get(..length).unwrap_or(&[]), 0)
}

// Loads a book, grants a circuit in it, and stores it.
#[tactic(auto, using(outcomes::proofs::OutcomeLaws::refusal_number), unfolding(crate::specs::BookCalls::grant_call))]
fn grant(buffer: &mut [u8], length: usize, line: Line) -> Result<[u16; 2], Refusal>
    ensures { outcome_of result buffer.new ≡ grant_call buffer.old length line.x line.y line.way line.colour line.crew }
{
    let book = load_front(buffer, length)?;
    grant_in(book, line, buffer)
}

// Loads a book, removes an order from it, and stores it.
#[tactic(auto, using(outcomes::proofs::OutcomeLaws::refusal_number), unfolding(crate::specs::BookCalls::remove_call))]
fn remove(buffer: &mut [u8], length: usize, serial: u16) -> Result<[u16; 1], Refusal>
    ensures { outcome_of result buffer.new ≡ remove_call buffer.old length serial }
{
    let book = load_front(buffer, length)?;
    remove_in(book, serial, buffer)
}

// Loads a book, confirms the pull of a removed order in it, and stores it.
#[tactic(auto, using(outcomes::proofs::OutcomeLaws::refusal_number), unfolding(crate::specs::BookCalls::confirm_call))]
fn confirm(buffer: &mut [u8], length: usize, serial: u16) -> Result<[u16; 1], Refusal>
    ensures { outcome_of result buffer.new ≡ confirm_call buffer.old length serial }
{
    let book = load_front(buffer, length)?;
    confirm_in(book, serial, buffer)
}

// Opens a book on n nodes with w colours and stores it. Value: the length of its stored form.
#[unsafe(no_mangle)]
pub extern "C" fn tarziloen_book_open(n: u16, w: u16, buffer: &mut [u8], values: &mut [u16]) -> u16
    ensures { Changed (open_call n w buffer.old) buffer.new values.old values.new result }
{
    answered(open(n, w, buffer), values)
}

// Grants a circuit in the book in the first bytes of the buffer. Values: its serial, the length of the stored form.
#[unsafe(no_mangle)]
pub extern "C" fn tarziloen_book_grant(
    buffer: &mut [u8],
    length: usize,
    x: u16,
    y: u16,
    way: u16,
    colour: u16,
    crew: u16,
    values: &mut [u16],
) -> u16
    ensures { Changed (grant_call buffer.old length x y way colour crew) buffer.new values.old
        values.new result }
{
    let line = Line {
        x,
        y,
        way,
        colour,
        crew,
    };
    answered(grant(buffer, length, line), values)
}

// Removes an order from the book in the first bytes of the buffer. Value: the length of the stored form.
#[unsafe(no_mangle)]
pub extern "C" fn tarziloen_book_remove(
    buffer: &mut [u8],
    length: usize,
    serial: u16,
    values: &mut [u16],
) -> u16
    ensures { Changed (remove_call buffer.old length serial) buffer.new values.old
        values.new result }
{
    answered(remove(buffer, length, serial), values)
}

// Confirms the pull of a removed order in the book in the first bytes of the buffer. Value: the length of the stored form.
#[unsafe(no_mangle)]
pub extern "C" fn tarziloen_book_confirm(
    buffer: &mut [u8],
    length: usize,
    serial: u16,
    values: &mut [u16],
) -> u16
    ensures { Changed (confirm_call buffer.old length serial) buffer.new values.old
        values.new result }
{
    answered(confirm(buffer, length, serial), values)
}
