// Charges of a book.
ghost use Rattle.std.specs.Prelude.{◌≡◌};
ghost use Rattle.book.specs.Books.{Valid};
ghost use Rattle.charges.specs.Charges.{book_charged, charged};
ghost use Rattle.outcomes.specs.Cents.{CentsGiven};

use book::Book;
use charges::{book_charge, charge};
use ring::Refusal;

// What came of a charge: its number, and the cents in the lent number.
pub fn put_cents(answer: Result<u64, Refusal>, cents: &mut u64) -> u16
    ensures { CentsGiven answer cents.old cents.new result }
{
    match answer {
        Ok(paid) => {
            *cents = paid;
            0
        }
        Err(refusal) => refusal.number(),
    }
}

// Charges for an order of a book.
pub fn charge_in(book: &Book, serial: u16, lengths: &[u32], rates: &[u32]) -> Result<u64, Refusal>
    requires { Valid book.now }
    ensures { result ≡ charged book.now serial lengths.now rates.now }
{
    charge(book, serial, lengths, rates)
}

// Charges for the live orders of a book together.
pub fn charge_all_in(book: &Book, lengths: &[u32], rates: &[u32]) -> Result<u64, Refusal>
    requires { Valid book.now }
    ensures { result ≡ book_charged book.now lengths.now rates.now }
{
    book_charge(book, lengths, rates)
}
