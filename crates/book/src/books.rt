// Books by value, in one form: the records, live and pending, first and by rising serial, vacant ones behind them.
ghost use Rattle.std.specs.Prelude.{[], ◌≡◌, ◌≤◌, length};
ghost use Rattle.book.specs.Books.{records_of, live_of, has_marked, book_of, opening_of, opened};

use super::circuits::Circuit;
use ring::{Refusal, Ring};

#[derive(Clone, Copy)]
pub struct Book {
    pub n: u16,
    pub w: u16,
    pub grants: u16,
    pub records: u16,
    pub places: [Circuit; 512],
}

impl Book {
    pub const PLACES: usize = 512;

    // A book with no circuit.
    pub fn blank(n: u16, w: u16, grants: u16) -> Book
        ensures { result ≡ book_of n w grants [] }
    {
        Book {
            n,
            w,
            grants,
            records: 0,
            places: [Circuit::vacant(); 512],
        }
    }

    // A new book on n nodes with w colours, or refusal 1 or 2.
    pub fn open(n: u16, w: u16) -> Result<Book, Refusal>
        ensures { opening_of result ≡ opened n w }
    {
        Ring::new(n, w)?;
        Ok(Book::blank(n, w, 0))
    }

    // The book that an opening gives; beside a refusal the book of no nodes, which turns every call down.
    pub fn opened(n: u16, w: u16) -> Book
        ensures { result ≡ (opened n w).book }
    {
        Book::open(n, w).unwrap_or(Book::blank(0, 0, 0))
    }

    // The number of records, live and pending: of any value of the struct, never more than there are places.
    pub fn record_count(&self) -> usize
        ensures { (result ≡ length (records_of self.now)) × (result ≤ 512) }
    {
        usize::from(self.records).min(Book::PLACES)
    }

    // The records, live and pending.
    pub fn records(&self) -> &[Circuit]
        ensures { result.now ≡ records_of self.now }
    {
        &self.places[..self.record_count()]
    }

    // The number of live circuits.
    pub fn live_count(&self) -> u16
        ensures { result ≡ length (live_of self.now) }
    {
        self.records()
            .iter()
            .filter(|circuit| circuit.is_live())
            .count() as u16
    }

    // Whether some record is pending or not the desk's.
    pub fn has_marked(&self) -> bool
        ensures { result ≡ has_marked self.now }
    {
        self.records().iter().any(|circuit| circuit.is_marked())
    }
}
