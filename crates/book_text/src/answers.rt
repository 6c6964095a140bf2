// What each command answers and does, by what the file holds.
ghost use Rattle.std.specs.Prelude.{◌≡◌, option_copied};
ghost use Rattle.book.specs.Books.{Valid};
ghost use Rattle.book_text.specs.Answers.{ValidContents, only, replacing};
ghost use Rattle.book_text.specs.Answers.{opening_answer, grant_answer, remove_answer, confirm_answer, show_reply, holder_reply};
ghost use Rattle.book_text.specs.Answers.{turned_down, answered_none, answered_book, answered};
ghost use Rattle.book_text.specs.Promises.{contents_of};

use book::{Book, Line};
use book_lines::Command;
use book_replies::Reply;
use ring::Refusal;
use stored::load_either;

// The reply, and the book that is to be stored, if the command changes it.
#[derive(Clone, Copy)]
pub struct Answered {
    pub reply: Reply,
    pub changed: Option<Book>,
}

impl Answered {
    // An answer that changes nothing.
    fn only(reply: Reply) -> Answered
        ensures { result ≡ only reply }
    {
        Answered {
            reply,
            changed: None,
        }
    }

    // An answer with a book that is to be stored.
    fn replacing(book: Book, reply: Reply) -> Answered
        ensures { result ≡ replacing book reply }
    {
        Answered {
            reply,
            changed: Some(book),
        }
    }
}

// What a file holds: its book, if there is a file, or why none can be read from its bytes.
pub fn find(file: Option<&[u8]>) -> Result<Option<Book>, Refusal>
    ensures { result ≡ contents_of (option_copied file.entry) }
{
    let Some(bytes) = file else {
        return Ok(None);
    };
    Ok(Some(load_either(bytes)?))
}

fn answer_open(n: u16, w: u16) -> Answered
    ensures { result ≡ opening_answer n w }
{
    match Book::open(n, w) {
        Ok(book) => Answered::replacing(book, Reply::Opened(n, w)),
        Err(refusal) => Answered::only(Reply::Refused(refusal)),
    }
}

fn answer_grant(book: &Book, line: Line) -> Answered
    ensures { Valid book.now → result ≡ grant_answer book.now line }
{
    let mut next = *book;
    match next.grant(line) {
        Ok(serial) => Answered::replacing(next, Reply::Granted(serial)),
        Err(refusal) => Answered::only(Reply::Refused(refusal)),
    }
}

fn answer_remove(book: &Book, serial: u16) -> Answered
    ensures { result ≡ remove_answer book.now serial }
{
    let mut next = *book;
    match next.remove(serial) {
        Ok(()) => Answered::replacing(next, Reply::Removed(serial)),
        Err(refusal) => Answered::only(Reply::Refused(refusal)),
    }
}

fn answer_confirm(book: &Book, serial: u16) -> Answered
    ensures { result ≡ confirm_answer book.now serial }
{
    let mut next = *book;
    match next.confirm(serial) {
        Ok(()) => Answered::replacing(next, Reply::Confirmed(serial)),
        Err(refusal) => Answered::only(Reply::Refused(refusal)),
    }
}

fn answer_show(book: &Book, serial: u16, crew: u16) -> Reply
    ensures { result ≡ show_reply book.now serial crew }
{
    match book.show(serial, crew) {
        Ok(circuit) => Reply::Circuit(circuit),
        Err(refusal) => Reply::Refused(refusal),
    }
}

fn answer_holder(book: &Book, link: u16, colour: u16, crew: u16) -> Reply
    ensures { result ≡ holder_reply book.now link colour crew }
{
    match book.holder(link, colour, crew) {
        Ok(holder) => Reply::Holder(holder),
        Err(refusal) => Reply::Refused(refusal),
    }
}

// Without a book that it could be asked of, a command is turned down; an aside asks for none.
fn turn_down(reply: Reply, command: Command) -> Answered
    ensures { result ≡ turned_down reply command }
{
    match command {
        Command::Aside(aside) => Answered::only(Reply::Aside(aside)),
        _ => Answered::only(reply),
    }
}

// Where there is no file, a book may be opened.
fn answer_none(command: Command) -> Answered
    ensures { result ≡ answered_none command }
{
    match command {
        Command::Open(n, w) => answer_open(n, w),
        _ => turn_down(Reply::NoBook, command),
    }
}

fn answer_book(book: &Book, command: Command) -> Answered
    ensures { Valid book.now → result ≡ answered_book book.now command }
{
    match command {
        Command::Open(_, _) => Answered::only(Reply::BookThere),
        Command::Grant(line) => answer_grant(book, line),
        Command::Preview => Answered::only(Reply::Previewed(*book)),
        Command::Remove(serial) => answer_remove(book, serial),
        Command::Confirm(serial) => answer_confirm(book, serial),
        Command::Show(serial, crew) => Answered::only(answer_show(book, serial, crew)),
        Command::Holder(link, colour, crew) => {
            Answered::only(answer_holder(book, link, colour, crew))
        }
        Command::Count => Answered::only(Reply::Count(book.live_count(), book.grants)),
        Command::Revision => Answered::only(Reply::Revision(book.revision())),
        Command::List => Answered::only(Reply::Orders(*book)),
        Command::Pending => Answered::only(Reply::PendingOrders(*book)),
        Command::Aside(aside) => Answered::only(Reply::Aside(aside)),
    }
}

// The answer to a command, by what the file holds.
pub fn answer(contents: &Result<Option<Book>, Refusal>, command: Command) -> Answered
    ensures { ValidContents contents.now → result ≡ answered contents.now command }
{
    match contents {
        Ok(None) => answer_none(command),
        Ok(Some(book)) => answer_book(book, command),
        Err(refusal) => turn_down(Reply::Refused(*refusal), command),
    }
}
