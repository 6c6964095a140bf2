// The output of `rings charges` for the bytes of a book's file and a text.
ghost use Rattle.std.specs.Prelude.{◌≡◌, ◌+◌, ◌≤◌, length};
ghost use Rattle.texts.specs.Internal.Writing.{Room, Wrote};
ghost use Rattle.charges_text.specs.Promise.{output_for, ChargesTextPromise};
ghost use Rattle.charges_text.specs.Internal.Lines.{text_priced};

use super::layout::put_charges;
use super::reading::read;
use book::Book;
use book_replies::replies::put_refused;
use charges::charges::Tariff;
use ring::Refusal;
use stored::loads::load_either;
use texts::writing::Writer;

// The book in the file, and the tariff that its orders pay by.
#[tactic(auto, unfolding(crate::specs::Promise::output_for))]
fn priced(bytes: &[u8], text: &[u8]) -> Result<(Book, Tariff), Refusal>
    ensures { text_priced result ≡ output_for bytes.now text.now }
{
    let mut buffer = [0u32; 4096];
    let said = read(text, &mut buffer).ok_or(Refusal::TextForm)?;
    let book = load_either(bytes)?;
    let tariff = Tariff::new(book.n, &buffer[..said.count], &said.rates)?;
    Ok((book, tariff))
}

// The output for the bytes of the file and the text.
fn put_answer(writer: &mut Writer<'_>, bytes: &[u8], text: &[u8])
    requires { Room 16384 writer.old }
    ensures { Wrote writer.old (output_for bytes.now text.now) writer.new }
{
    match priced(bytes, text) {
        Ok((book, tariff)) => put_charges(writer, &book, &tariff),
        Err(refusal) => put_refused(writer, refusal),
    }
}

// The output, and its length. A buffer of fewer than 16,384 bytes, which no output needs, gets nothing.
pub fn answer(bytes: &[u8], text: &[u8], out: &mut [u8]) -> usize
    ensures { ChargesTextPromise bytes.now text.now out.old out.new result }
{
    if out.len() < 16384 {
        return 0;
    }
    let mut writer = Writer::new(out);
    put_answer(&mut writer, bytes, text);
    writer.len()
}
