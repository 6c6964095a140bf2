// Changes of a book that is stored behind them: they give the length of its stored form, behind the serial of a new circuit.
ghost use Rattle.std.specs.Prelude.{[], ◌≡◌};
ghost use Rattle.book.specs.Books.{Valid};
ghost use Rattle.outcomes.specs.Outcomes.{outcome_of};
ghost use Rattle.outcomes.specs.Changes.{confirm_on, grant_on, remove_on, storing};

use super::values::alone;
use book::{Book, Line};
use ring::Refusal;
use stored::store;

// Stores a book that was opened.
#[tactic(auto, using(crate::proofs::OutcomeLaws::refusal_number, crate::proofs::OutcomeLaws::store_kept))]
pub fn keep(book: &Book, buffer: &mut [u8]) -> Result<[u16; 1], Refusal>
    ensures { outcome_of result buffer.new ≡ storing [] book.now buffer.old }
{
    alone(store(book, buffer))
}

// Grants a circuit in a book, and stores it.
#[tactic(auto, using(crate::proofs::OutcomeLaws::refusal_number, crate::proofs::OutcomeLaws::store_kept))]
pub fn grant_in(book: Book, line: Line, buffer: &mut [u8]) -> Result<[u16; 2], Refusal>
    requires { Valid book }
    ensures { outcome_of result buffer.new ≡ grant_on book line.x line.y line.way line.colour line.crew buffer.old }
{
    let mut changed = book;
    let serial = changed.grant(line)?;
    let length = store(&changed, buffer)?;
    Ok([serial, length])
}

// Removes an order from a book, whose record is pending then, and stores it.
#[tactic(auto, using(crate::proofs::OutcomeLaws::refusal_number))]
pub fn remove_in(book: Book, serial: u16, buffer: &mut [u8]) -> Result<[u16; 1], Refusal>
    ensures { outcome_of result buffer.new ≡ remove_on book serial buffer.old }
{
    let mut changed = book;
    changed.remove(serial)?;
    keep(&changed, buffer)
}

// Confirms the pull of a removed order in a book, and stores it.
#[tactic(auto, using(crate::proofs::OutcomeLaws::refusal_number))]
pub fn confirm_in(book: Book, serial: u16, buffer: &mut [u8]) -> Result<[u16; 1], Refusal>
    ensures { outcome_of result buffer.new ≡ confirm_on book serial buffer.old }
{
    let mut freed = book;
    freed.confirm(serial)?;
    keep(&freed, buffer)
}
