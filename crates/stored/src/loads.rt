// Loading a book.
ghost use Rattle.std.specs.Prelude.{◌≡◌};
ghost use Rattle.ring.specs.Buffers.{same_bytes};
ghost use Rattle.stored.specs.Forms.{stored_form};
ghost use Rattle.stored.specs.Loading.{length_wrong, form_verdict, load_unless, loading_of, loaded, loaded_old, loaded_either};

use super::forms::Form;
use super::readers::{blocks_right, book_in};
use super::stores::write_form;
use super::validity::book_fits;
use book::Book;
use ring::Refusal;
use ring::buffers::same_bytes;

// Whether the bytes are the stored form of the book. The copy has room for every stored form.
fn is_form(form: Form, bytes: &[u8], book: &Book) -> bool
    ensures { result ≡ same_bytes bytes.now (stored_form form book.now) }
{
    let mut copy = [0u8; 7168];
    let length = write_form(form, book, &mut copy).unwrap();
    same_bytes(bytes, &copy[..usize::from(length)])
}

// Whether the length is that of no stored form.
#[tactic(auto, unfolding(crate::specs::Loading::length_wrong))]
fn length_wrong(form: Form, length: usize) -> bool
    ensures { result ≡ length_wrong form length }
{
    length == 0 || length % 512 != 0 || form.longest() < length
}

// The book that the bytes are the stored form of, or refusal 18, 19 or 20.
fn load_form(form: Form, bytes: &[u8]) -> Result<Book, Refusal>
    ensures { loading_of result ≡ load_unless form (form_verdict form bytes.now) bytes.now }
{
    if length_wrong(form, bytes.len()) {
        return Err(Refusal::StoredLength);
    }
    if !blocks_right(bytes) {
        return Err(Refusal::BlockCheck);
    }
    let book = book_in(form, bytes);
    if !book_fits(&book) || !is_form(form, bytes, &book) {
        return Err(Refusal::StoredForm);
    }
    Ok(book)
}

// The book that the bytes are the stored form of, or refusal 18, 19 or 20, or 28 if its revision is below the lowest.
#[tactic(auto, unfolding(crate::specs::Loading::loaded, crate::specs::Loading::load_verdict))]
pub fn load(bytes: &[u8], lowest: u32) -> Result<Book, Refusal>
    ensures { loading_of result ≡ loaded lowest bytes.now }
{
    let book = load_form(Form::New, bytes)?;
    if book.revision() < lowest {
        return Err(Refusal::RevisionLow);
    }
    Ok(book)
}

// The book that a load gives; beside a refusal the book of no nodes, which turns every call down.
pub fn loaded(bytes: &[u8], lowest: u32) -> Book
    ensures { result ≡ (loaded lowest bytes.now).book }
{
    load(bytes, lowest).unwrap_or(Book::blank(0, 0, 0))
}

// The book that the bytes are the old form of, or refusal 18, 19 or 20.
#[tactic(auto, unfolding(crate::specs::Loading::loaded_old))]
pub fn load_old(bytes: &[u8]) -> Result<Book, Refusal>
    ensures { loading_of result ≡ loaded_old bytes.now }
{
    load_form(Form::Old, bytes)
}

// The book of a file in either form: what is no new form is read as the old one, and what is neither keeps the new form's refusal.
#[tactic(auto, unfolding(crate::specs::Loading::loaded_either))]
pub fn load_either(bytes: &[u8]) -> Result<Book, Refusal>
    ensures { loading_of result ≡ loaded_either bytes.now }
{
    load(bytes, 0).or_else(|refusal| load_old(bytes).or(Err(refusal)))
}
