// Storing a book.
ghost use Rattle.std.specs.Prelude.{◌≡◌, ◌+◌, ◌%◌, ◌<◌, ◌≤◌, length};
ghost use Rattle.ring.specs.declared.fates.Fate.TheVariants.{Served};
ghost use Rattle.ring.specs.Fates.{fate_number};
ghost use Rattle.ring.specs.Buffers.{written};
ghost use Rattle.stored.specs.Blocks.{block_of};
ghost use Rattle.stored.specs.Forms.{record_size, state_number, fields_bytes, marks_bytes, record_bytes, header_bytes, contents};
ghost use Rattle.stored.specs.Storing.{length_of, form_answer, after_form, store_answer, after_store, store_old_answer, after_store_old};
ghost use Rattle.stored.specs.Internal.Handing.{RecordBlock};

use super::blocks::seal;
use super::forms::Form;
use super::words::put_word;
use book::{Book, Circuit, RecordState};
use ring::{Refusal, Way};

// The fate number of a circuit, cut to 16 bits: whole in every valid book.
fn fate_field(way: Way, colour: u16) -> u16
    ensures { result ≡ fate_number (Served way colour) % 65536 }
{
    colour.wrapping_mul(2).wrapping_add(1 + u16::from(way))
}

// The number of a record's state.
fn state_number(state: RecordState) -> u16
    ensures { result ≡ state_number state }
{
    match state {
        RecordState::Live => 0,
        RecordState::Pending => 1,
    }
}

// Writes serial, ends and fate number of a circuit.
fn put_fields(block: &mut [u8], at: usize, circuit: Circuit)
    requires { at + 8 ≤ length block.old }
    ensures { block.new ≡ written block.old at (fields_bytes circuit) }
{
    put_word(block, at, circuit.serial);
    put_word(block, at + 2, circuit.a);
    put_word(block, at + 4, circuit.b);
    put_word(block, at + 6, fate_field(circuit.way, circuit.colour));
}

// Writes crew and state, for which the old form has no room.
fn put_marks(form: Form, block: &mut [u8], at: usize, circuit: Circuit)
    requires { at + length (marks_bytes form circuit) ≤ length block.old }
    ensures { block.new ≡ written block.old at (marks_bytes form circuit) }
{
    if let Form::New = form {
        put_word(block, at, circuit.crew);
        put_word(block, at + 2, state_number(circuit.state));
    }
}

// Writes the record of a circuit.
fn put_record(form: Form, block: &mut [u8], at: usize, circuit: Circuit)
    requires { at + record_size form ≤ length block.old }
    ensures { block.new ≡ written block.old at (record_bytes form circuit) }
{
    put_fields(block, at, circuit);
    put_marks(form, block, at + 8, circuit);
}

// Writes block 0.
fn write_header(form: Form, block: &mut [u8], book: &Book)
    requires { length block.old ≡ 512 }
    ensures { block.new ≡ block_of 0 (header_bytes form book.now) }
{
    block.fill(0);
    put_word(block, 0, book.n);
    put_word(block, 2, book.w);
    put_word(block, 4, book.grants);
    put_word(block, 6, book.record_count() as u16);
    put_word(block, 8, form.mark());
    seal(block, 0);
}

// Writes a later block.
fn write_records(form: Form, block: &mut [u8], book: &Book, number: usize)
    requires { RecordBlock form book.now number block.old }
    ensures { block.new ≡ block_of number (contents form book.now number) }
{
    block.fill(0);
    let first = form.first_record(number - 1);
    for i in 0..form.block_share(book.record_count() - first) {
        put_record(form, block, form.record_place(i), book.places[first + i]);
    }
    seal(block, number as u16);
}

// Writes the stored form of the records to the front of a buffer: its length, or refusal 17 with nothing written. The old form tells
// nothing of their states and crews. No form is longer than 7,168 bytes.
pub fn write_form(form: Form, book: &Book, buffer: &mut [u8]) -> Result<u16, Refusal>
    ensures { (result ≡ form_answer form book.now buffer.old)
        × (buffer.new ≡ after_form form book.now buffer.old) × (length_of form book.now ≤ 7168) }
{
    let length = form.stored_length(book.record_count());
    if buffer.len() < length {
        return Err(Refusal::BufferShort);
    }
    write_header(form, &mut buffer[..512], book);
    for block in 1..length / 512 {
        let start = block * 512;
        write_records(form, &mut buffer[start..start + 512], book, block);
    }
    Ok(length as u16)
}

// Writes the stored form of a book: its length, or refusal 17 with nothing written.
pub fn store(book: &Book, buffer: &mut [u8]) -> Result<u16, Refusal>
    ensures { (result ≡ store_answer book.now buffer.old)
        × (buffer.new ≡ after_store book.now buffer.old) }
{
    write_form(Form::New, book, buffer)
}

// Writes the old form of a book whose records are live and the desk's: its length, or refusal 25 or 17 with nothing written.
#[tactic(auto, unfolding(crate::specs::Storing::store_old_answer, crate::specs::Storing::after_store_old))]
pub fn store_old(book: &Book, buffer: &mut [u8]) -> Result<u16, Refusal>
    ensures { (result ≡ store_old_answer book.now buffer.old)
        × (buffer.new ≡ after_store_old book.now buffer.old) }
{
    if book.has_marked() {
        return Err(Refusal::MarkedRecord);
    }
    write_form(Form::Old, book, buffer)
}
