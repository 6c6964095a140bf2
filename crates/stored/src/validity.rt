// The tests for a valid book.
ghost use Rattle.std.specs.Prelude.{◌≡◌, true, ◌&&◌, ◌≤◌, length};
ghost use Rattle.book.specs.Books.{records_of};
ghost use Rattle.stored.specs.Validity.{ring_fits, circuit_fits, serial_fits, circuits_fit, book_fits};
ghost use Rattle.stored.specs.Internal.Following.{NextHolds};

use book::{Book, Circuit};
use links::HeldLinks;
use ring::Ring;

fn ring_fits(n: u16, w: u16) -> bool
    ensures { result ≡ ring_fits n w }
{
    Ring::new(n, w).is_ok()
}

#[tactic(auto, unfolding(crate::specs::Validity::circuit_fits))]
fn circuit_fits(n: u16, w: u16, circuit: &Circuit) -> bool
    ensures { result ≡ circuit_fits n w circuit.now }
{
    circuit.a < circuit.b && circuit.b < n && circuit.colour < w && circuit.crew <= 999
}

#[tactic(auto, unfolding(crate::specs::Validity::serial_fits))]
fn serial_fits(last: u16, grants: u16, serial: u16) -> bool
    ensures { result ≡ serial_fits last grants serial }
{
    last < serial && serial <= grants
}

// Whether a circuit may follow others: its limits, its serial, and that no link of its way is held in its colour. From then on it holds
// them.
fn may_follow(held: &mut HeldLinks, book: &Book, last: u16, circuit: &Circuit) -> bool
    requires { (book.now.n ≤ 256) × (book.now.w ≤ 128) }
    ensures { NextHolds held.old held.new
        (circuit_fits book.now.n book.now.w circuit.now && serial_fits last book.now.grants circuit.now.serial) circuit.now result }
{
    circuit_fits(book.n, book.w, circuit)
        && serial_fits(last, book.grants, circuit.serial)
        && held.hold(circuit.way, circuit.ends(), usize::from(circuit.colour))
}

// Whether each circuit may follow those before it.
fn circuits_fit(book: &Book) -> bool
    requires { ring_fits book.now.n book.now.w ≡ true }
    ensures { result ≡ circuits_fit book.now (length (records_of book.now)) }
{
    let mut held = HeldLinks::new();
    let mut last: u16 = 0;
    for circuit in book.records() {
        if !may_follow(&mut held, book, last, circuit) {
            return false;
        }
        last = circuit.serial;
    }
    true
}

// Whether a book is within the limits, its serials rise, and no two circuits share a colour on a link.
#[tactic(auto, unfolding(crate::specs::Validity::book_fits))]
pub fn book_fits(book: &Book) -> bool
    ensures { result ≡ book_fits book.now }
{
    ring_fits(book.n, book.w) && circuits_fit(book)
}
