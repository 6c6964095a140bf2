// What `rings charges` prints: a line for each live order, and one for them all.
ghost use Rattle.std.specs.Prelude.{[], ◌+◌, ◌≤◌, length};
ghost use Rattle.texts.specs.Internal.Writing.{Room, Wrote};
ghost use Rattle.book.specs.Books.{live_of};
ghost use Rattle.book_replies.specs.Replies.{lines_with};
ghost use Rattle.charges_text.specs.Layout.{paid_line};
ghost use Rattle.charges_text.specs.Internal.Lines.{line_by, text_by};

use book::{Book, Circuit};
use charges::charges::Tariff;
use texts::writing::Writer;

// So many cents behind a space, to the end of the line.
#[tactic(auto, using(texts::proofs::DecimalLaws::long_short))]
fn put_paid(writer: &mut Writer<'_>, paid: u64)
    requires { Room 22 writer.old }
    ensures { Wrote writer.old (paid_line [] paid) writer.new }
{
    writer.byte(b' ');
    writer.long(paid);
    writer.byte(b'\n');
}

// The line of an order.
#[tactic(auto, using(texts::proofs::DecimalLaws::decimal_short))]
fn put_order(writer: &mut Writer<'_>, circuit: &Circuit, tariff: &Tariff)
    requires { Room 27 writer.old }
    ensures { Wrote writer.old (line_by tariff.now circuit.now) writer.new }
{
    writer.number(circuit.serial);
    put_paid(writer, tariff.charge(circuit));
}

// The lines of the live orders.
fn put_orders(writer: &mut Writer<'_>, book: &Book, tariff: &Tariff)
    requires { Room 13824 writer.old }
    ensures wrote { Wrote writer.old (lines_with (line_by tariff.now) (live_of book.now)) writer.new }
    ensures few { writer.new.at ≤ writer.old.at + 13824 }
{
    for circuit in &book.places[..book.record_count()] {
        if circuit.is_live() {
            put_order(writer, circuit, tariff);
        }
    }
}

// The same, and what they pay together.
pub fn put_charges(writer: &mut Writer<'_>, book: &Book, tariff: &Tariff)
    requires { Room 16384 writer.old }
    ensures { Wrote writer.old (text_by tariff.now book.now) writer.new }
{
    put_orders(writer, book, tariff);
    writer.bytes(b"total");
    put_paid(writer, tariff.charges(book));
}
