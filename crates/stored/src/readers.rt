// Reading blocks, each from its own place.
ghost use Rattle.std.specs.Prelude.{◌≡◌, ◌+◌, ◌-◌, ◌/◌, ◌%◌, ◌<◌, ◌≤◌, min, length};
ghost use Rattle.book.specs.Books.{records_of};
ghost use Rattle.stored.specs.Forms.{record_size, block_records};
ghost use Rattle.stored.specs.Reading.{blocks_right, crew_at, state_of, state_at, circuit_at, records_in, book_in};
ghost use Rattle.stored.specs.Internal.Handing.{extended, ReadRoom};

use super::blocks::block_right;
use super::forms::Form;
use super::words::word_at;
use book::{Book, Circuit, RecordState};
use ring::Fate;

// Whether every block has its number and its check.
pub fn blocks_right(bytes: &[u8]) -> bool
    requires { (length bytes.now % 512 ≡ 0) × (length bytes.now ≤ 7168) }
    ensures { result ≡ blocks_right bytes.now (length bytes.now / 512) }
{
    for block in 0..bytes.len() / 512 {
        let start = block * 512;
        if !block_right(&bytes[start..start + 512], block as u16) {
            return false;
        }
    }
    true
}

// The crew of a record: the desk's number in the old form.
fn crew_at(form: Form, block: &[u8], at: usize) -> u16
    requires { at + record_size form ≤ length block.now }
    ensures { result ≡ crew_at form block.now at }
{
    match form {
        Form::Old => 0,
        Form::New => word_at(block, at + 8),
    }
}

fn state_of(number: u16) -> RecordState
    ensures { result ≡ state_of number }
{
    if number == 0 {
        RecordState::Live
    } else {
        RecordState::Pending
    }
}

// The state of a record: live in the old form.
fn state_at(form: Form, block: &[u8], at: usize) -> RecordState
    requires { at + record_size form ≤ length block.now }
    ensures { result ≡ state_at form block.now at }
{
    match form {
        Form::Old => RecordState::Live,
        Form::New => state_of(word_at(block, at + 10)),
    }
}

// The circuit of a record.
#[tactic(auto, unfolding(crate::specs::Reading::circuit_at))]
fn circuit_at(form: Form, block: &[u8], at: usize) -> Circuit
    requires { at + record_size form ≤ length block.now }
    ensures { result ≡ circuit_at form block.now at }
{
    match Fate::from(word_at(block, at + 6)) {
        Fate::Served(way, colour) => Circuit {
            serial: word_at(block, at),
            a: word_at(block, at + 2),
            b: word_at(block, at + 4),
            way,
            state: state_at(form, block, at),
            colour,
            crew: crew_at(form, block, at),
        },
        Fate::Blocked => Circuit::vacant(),
    }
}

// Puts the circuits of one block more behind those that the book has.
fn read_block(form: Form, block: &[u8], book: &mut Book, total: usize)
    requires { ReadRoom block.now book.old total }
    ensures { book.new ≡ extended book.old
        (records_in form block.now (min (block_records form) (total - length (records_of book.old)))) }
{
    let first = book.record_count();
    for i in 0..form.block_share(total - first) {
        book.places[first + i] = circuit_at(form, block, form.record_place(i));
        book.records = (first + i + 1) as u16;
    }
}

// The book that the bytes tell.
pub fn book_in(form: Form, bytes: &[u8]) -> Book
    requires { (0 < length bytes.now) × (length bytes.now % 512 ≡ 0) × (length bytes.now ≤ 7168) }
    ensures { result ≡ book_in form bytes.now }
{
    let header = &bytes[..512];
    let total = usize::from(word_at(header, 6)).min(512);
    let mut book = Book::blank(word_at(header, 0), word_at(header, 2), word_at(header, 4));
    for block in 1..bytes.len() / 512 {
        let start = block * 512;
        read_block(form, &bytes[start..start + 512], &mut book, total);
    }
    book
}
