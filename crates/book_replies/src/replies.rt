// The text that answers a command.
ghost use Rattle.std.specs.Prelude.{◌≡◌, ◌+◌, ◌-◌, ◌≤◌, min, length};
ghost use Rattle.texts.specs.Internal.Writing.{Room, Wrote};
ghost use Rattle.book.specs.declared.books.Book.{Book};
ghost use Rattle.book.specs.Books.{records_of, Valid};
ghost use Rattle.bundles.specs.Previews.{serials_of, previewed_all};
ghost use Rattle.book_lines.specs.Lines.{lines_in};
ghost use Rattle.book_replies.specs.Replies.{one_number, two_numbers, revision_text, circuit_text, order_text, lines_of};
ghost use Rattle.book_replies.specs.Replies.{holder_text, refused_text, serials_text, would_grant, granted_text, preview_text, unreadable_text, aside_text, reply_text};
ghost use Rattle.book_replies.specs.Internal.Listing.{listed};

use book::{Book, Circuit, Holder, RecordState};
use book_lines::Aside;
use book_lines::lines::bundle_in;
use bundles::{Previewed, preview};
use ring::Refusal;
use texts::writing::Writer;

// What is told, with the book that it is told of.
#[derive(Clone, Copy)]
pub enum Reply {
    Opened(u16, u16),
    Granted(u16),
    Previewed(Book),
    Removed(u16),
    Confirmed(u16),
    Circuit(Circuit),
    Holder(Holder),
    Count(u16, u16),
    Revision(u32),
    Orders(Book),
    PendingOrders(Book),
    Refused(Refusal),
    BookThere,
    NoBook,
    Aside(Aside),
}

// A word and a number, on a line.
#[tactic(auto, using(texts::proofs::WordLaws::labelled_short), unfolding(crate::specs::Replies::one_number))]
fn put_one(writer: &mut Writer<'_>, word: &[u8], n: u16)
    requires { Room (length word.now + 6) writer.old }
    ensures { Wrote writer.old (one_number word.now n) writer.new }
{
    writer.labelled(word, n);
    writer.byte(b'\n');
}

// Two of each, on a line.
#[tactic(auto, using(texts::proofs::WordLaws::labelled_short), unfolding(crate::specs::Replies::two_numbers))]
fn put_two(writer: &mut Writer<'_>, first: &[u8], n: u16, second: &[u8], m: u16)
    requires { Room (length first.now + 5 + (length second.now + 6)) writer.old }
    ensures { Wrote writer.old (two_numbers first.now n second.now m) writer.new }
{
    writer.labelled(first, n);
    put_one(writer, second, m);
}

// A revision.
#[tactic(auto, using(texts::proofs::DecimalLaws::long_short), unfolding(crate::specs::Replies::revision_text))]
fn put_revision(writer: &mut Writer<'_>, revision: u32)
    requires { Room 30 writer.old }
    ensures { Wrote writer.old (revision_text revision) writer.new }
{
    writer.bytes(b"revision ");
    writer.long(u64::from(revision));
    writer.byte(b'\n');
}

// The ends, way and colour of a circuit behind a word, to the end of the line.
#[tactic(auto, using(texts::proofs::WordLaws::labelled_short, texts::proofs::WordLaws::way_short), unfolding(crate::specs::Replies::circuit_text))]
fn put_circuit(writer: &mut Writer<'_>, word: &[u8], circuit: &Circuit)
    requires { Room (length word.now + 20) writer.old }
    ensures { Wrote writer.old (circuit_text word.now circuit.now) writer.new }
{
    writer.labelled(word, circuit.a);
    writer.labelled(b" ", circuit.b);
    writer.way(circuit.way, circuit.colour);
    writer.byte(b'\n');
}

// The line of an order.
#[tactic(auto, using(texts::proofs::WordLaws::labelled_short), unfolding(crate::specs::Replies::order_text))]
fn put_order(writer: &mut Writer<'_>, circuit: &Circuit)
    requires { Room 32 writer.old }
    ensures { Wrote writer.old (order_text circuit.now) writer.new }
{
    writer.labelled(b"order ", circuit.serial);
    put_circuit(writer, b" ", circuit);
}

// The lines of the orders in a state.
fn put_orders(writer: &mut Writer<'_>, book: &Book, state: RecordState)
    requires { Room 16384 writer.old }
    ensures { Wrote writer.old (lines_of (listed state (records_of book.now))) writer.new }
{
    for circuit in &book.places[..book.record_count()] {
        if circuit.state == state {
            put_order(writer, circuit);
        }
    }
}

// The holder of a colour.
fn put_holder(writer: &mut Writer<'_>, holder: Holder)
    requires { Room 20 writer.old }
    ensures { Wrote writer.old (holder_text holder) writer.new }
{
    match holder {
        Holder::Free => writer.bytes(b"free\n"),
        Holder::Held => writer.bytes(b"held\n"),
        Holder::HeldBy(serial) => put_one(writer, b"held ", serial),
    }
}

// A refusal's number, and its ground.
#[tactic(auto, using(texts::proofs::WordLaws::labelled_short), unfolding(crate::specs::Replies::refused_text))]
pub fn put_refused(writer: &mut Writer<'_>, refusal: Refusal)
    requires { Room 174 writer.old }
    ensures { Wrote writer.old (refused_text refusal) writer.new }
{
    writer.labelled(b"refused ", refusal.number());
    writer.byte(b' ');
    writer.ground_line(refusal);
}

// The serials that lines would get, each behind a space.
fn put_serials(writer: &mut Writer<'_>, preview: &Previewed)
    requires { Room 96 writer.old }
    ensures few { length (serials_of preview.now) ≤ 16 }
    ensures wrote { Wrote writer.old (serials_text (serials_of preview.now)) writer.new }
{
    for &serial in &preview.serials[..usize::from(preview.count).min(16)] {
        writer.labelled(b" ", serial);
    }
}

// What the lines would get: their serials, or that there are none.
fn put_would_grant(writer: &mut Writer<'_>, preview: &Previewed)
    requires { Room 107 writer.old }
    ensures short { length (would_grant (serials_of preview.now)) ≤ 107 }
    ensures wrote { Wrote writer.old (would_grant (serials_of preview.now)) writer.new }
{
    if preview.serials().is_empty() {
        writer.bytes(b"would grant none");
    } else {
        writer.bytes(b"would grant");
        put_serials(writer, preview);
    }
}

// What the lines would get, and the line that would be turned down, if there is one.
#[tactic(auto, using(texts::proofs::WordLaws::labelled_short))]
fn put_granted(writer: &mut Writer<'_>, preview: &Previewed)
    requires { Room 300 writer.old }
    ensures { Wrote writer.old (granted_text preview.now) writer.new }
{
    put_would_grant(writer, preview);
    match preview.stopped {
        None => writer.byte(b'\n'),
        Some((line, refusal)) => {
            writer.labelled(b", line ", line);
            writer.byte(b' ');
            put_refused(writer, refusal);
        }
    }
}

// The line of a preview.
fn put_preview(writer: &mut Writer<'_>, preview: &Result<Previewed, Refusal>)
    requires { Room 300 writer.old }
    ensures { Wrote writer.old (preview_text preview.now) writer.new }
{
    match preview {
        Ok(preview) => put_granted(writer, preview),
        Err(refusal) => put_refused(writer, *refusal),
    }
}

// The preview of the lines that a text lists.
fn put_tried(writer: &mut Writer<'_>, text: &[u8], book: &Book)
    requires room { Room 300 writer.old }
    requires valid { Valid book.now }
    ensures { Wrote writer.old (preview_text (previewed_all book.now (lines_in text.now))) writer.new }
{
    let bundle = bundle_in(text);
    let tried = preview(book, &bundle);
    put_preview(writer, &tried);
}

// How much of a line is repeated: not its line feed, and of a long line the front.
fn echo_length(text: &[u8]) -> usize
    ensures { result ≡ min 60 (length text.now - 1) }
{
    text.len().saturating_sub(1).min(60)
}

// What was not understood.
#[tactic(auto, unfolding(crate::specs::Replies::unreadable_text))]
fn put_unreadable(writer: &mut Writer<'_>, text: &[u8])
    requires { Room 120 writer.old }
    ensures { Wrote writer.old (unreadable_text text.now) writer.new }
{
    writer.bytes(b"error not understood: ");
    writer.bytes(&text[..echo_length(text)]);
    writer.bytes(b" (help lists the commands)\n");
}

// The answer to a line that asks nothing of the book.
pub fn put_aside(writer: &mut Writer<'_>, aside: Aside, text: &[u8])
    requires { Room 2000 writer.old }
    ensures { Wrote writer.old (aside_text text.now aside) writer.new }
{
    match aside {
        Aside::Help => writer.bytes(
            b"open N W                     begins a book for a ring of N nodes and W colours\n\
grant X Y WAY COLOUR [CREW]  enters a circuit between X and Y for CREW, WAY 0 plain or 1 seam, and gives its order a serial\n\
preview LINE, ..             the serials that up to 16 grants would get, each LINE as X Y WAY COLOUR [CREW]\n\
remove SERIAL                removes an order; its colour stays held until the pull is confirmed\n\
confirm SERIAL               confirms that a removed order's patch is pulled, and frees its colour\n\
show SERIAL [CREW]           the circuit of an order that CREW may read: its ends, P (plain) or S (seam), its colour\n\
holder LINK COLOUR [CREW]    the order that has the colour on the link, if CREW may read it\n\
count                        how many orders are live, and how many were granted so far\n\
revision                     the book's revision, which rises by one with each grant and each removal\n\
list                         every live order with its circuit\n\
pending                      every removed order whose pull is not yet confirmed, with its circuit\n\
help                         these lines; CREW is 0 to 999, and 0, the desk, where it is left out\n",
        ),
        Aside::Nothing => {}
        Aside::Unreadable => put_unreadable(writer, text),
        Aside::Unfinished => writer.bytes(
            b"error the last line has no line feed and is not obeyed\n",
        ),
        Aside::TooLong => writer.bytes(b"error a line of more than 1,024 bytes is not obeyed\n"),
    }
}

// The text of a reply.
pub fn put_reply(writer: &mut Writer<'_>, reply: &Reply, text: &[u8])
    requires room { Room 16384 writer.old }
    requires valid { (book : Book) → reply.now ≡ Reply.Previewed book → Valid book }
    ensures { Wrote writer.old (reply_text text.now reply.now) writer.new }
{
    match reply {
        Reply::Opened(n, w) => put_two(writer, b"opened ", *n, b" ", *w),
        Reply::Granted(serial) => put_one(writer, b"granted ", *serial),
        Reply::Previewed(book) => put_tried(writer, text, book),
        Reply::Removed(serial) => put_one(writer, b"removed ", *serial),
        Reply::Confirmed(serial) => put_one(writer, b"confirmed ", *serial),
        Reply::Circuit(circuit) => put_circuit(writer, b"circuit ", circuit),
        Reply::Holder(holder) => put_holder(writer, *holder),
        Reply::Count(live, grants) => put_two(writer, b"live ", *live, b" grants ", *grants),
        Reply::Revision(revision) => put_revision(writer, *revision),
        Reply::Orders(book) => put_orders(writer, book, RecordState::Live),
        Reply::PendingOrders(book) => put_orders(writer, book, RecordState::Pending),
        Reply::Refused(refusal) => put_refused(writer, *refusal),
        Reply::BookThere => writer.bytes(b"error there is a book in the file already\n"),
        Reply::NoBook => writer.bytes(b"error there is no book yet (open N W begins one)\n"),
        Reply::Aside(aside) => put_aside(writer, *aside, text),
    }
}
