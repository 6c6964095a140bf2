// Questions to a book.
ghost use Rattle.std.specs.Prelude.{Ok, ◌≡◌};
ghost use Rattle.book.specs.Holders.{held_for, holder_in_numbers};
ghost use Rattle.book.specs.Orders.{show_in_numbers, shown_to};
ghost use Rattle.outcomes.specs.Outcomes.{in_numbers};

use book::{Book, Circuit, Holder};
use ring::Refusal;

// The ends, the way and the colour of a circuit.
pub fn circuit_values(circuit: Circuit) -> [u16; 4]
    ensures { result ≡ (show_in_numbers (Ok circuit)).values }
{
    [circuit.a, circuit.b, u16::from(circuit.way), circuit.colour]
}

// The state of a colour on a link, 0 free, 1 held, 2 held by an order that the crew may read, and the serial of its holder or 0.
pub fn holder_values(holder: Holder) -> [u16; 2]
    ensures { result ≡ (holder_in_numbers (Ok holder)).values }
{
    match holder {
        Holder::Free => [0, 0],
        Holder::Held => [1, 0],
        Holder::HeldBy(serial) => [2, serial],
    }
}

// Shows an order of a book to a crew.
pub fn show_in(book: &Book, serial: u16, crew: u16) -> Result<[u16; 4], Refusal>
    ensures { in_numbers result ≡ show_in_numbers (shown_to crew book.now serial) }
{
    Ok(circuit_values(book.show(serial, crew)?))
}

// The holder of a colour on a link, in a book, as far as a crew may know.
pub fn holder_in(book: &Book, link: u16, colour: u16, crew: u16) -> Result<[u16; 2], Refusal>
    ensures { in_numbers result ≡ holder_in_numbers (held_for crew book.now link colour) }
{
    Ok(holder_values(book.holder(link, colour, crew)?))
}
