// A line obeyed: the bytes of its answer and, where it changes the book, the bytes that the file is to hold.
ghost use Rattle.std.specs.Prelude.{◌≡◌, ◌≤◌, IfSome, length, option_copied};
ghost use Rattle.stored.specs.declared.forms.Form.TheVariants.{New};
ghost use Rattle.stored.specs.Forms.{stored_form};
ghost use Rattle.texts.specs.Internal.Writing.{Room, Wrote};
ghost use Rattle.book_lines.specs.Lines.{command_of};
ghost use Rattle.book_replies.specs.Replies.{reply_text};
ghost use Rattle.book_text.specs.Answers.{answered};
ghost use Rattle.book_text.specs.Needs.{need_of};
ghost use Rattle.book_text.specs.Promises.{Told, FormTold, ObeyPromise, contents_of};

use super::answers::{answer, find};
use book::Book;
use book_lines::Command;
use book_lines::lines::read;
use book_replies::replies::{put_aside, put_reply};
use stored::Form;
use stored::stores::write_form;
use texts::writing::Writer;

// What a line needs of the file: nothing, its bytes, or to put others in their place.
#[derive(Clone, Copy, Debug, PartialEq, Eq)]
pub enum Need {
    Nothing,
    Reading,
    Writing,
}

// The length of the answer and, if the file is to change, that of its new bytes.
#[derive(Clone, Copy, Debug, PartialEq, Eq)]
pub struct Obeyed {
    pub reply: usize,
    pub form: Option<usize>,
}

// What a command needs of the file.
fn need_of_command(command: Command) -> Need
    ensures { result ≡ need_of command }
{
    match command {
        Command::Open(_, _) | Command::Grant(_) | Command::Remove(_) | Command::Confirm(_) => {
            Need::Writing
        }
        Command::Aside(_) => Need::Nothing,
        _ => Need::Reading,
    }
}

// What a line needs of the file.
pub fn need_of_line(line: &[u8]) -> Need
    ensures { result ≡ need_of (command_of line.now) }
{
    let mut text = [0u8; 1024];
    let heard = read(line, &mut text);
    need_of_command(heard.command)
}

// Puts the new form of a book into a buffer that has room for the longest.
fn put_form(form: &mut [u8], book: &Book) -> usize
    requires { 7168 ≤ length form.old }
    ensures told { Told (stored_form New book.now) form.old form.new result }
    ensures within { result ≤ length form.new }
{
    usize::from(write_form(Form::New, book, form).unwrap())
}

// Answers a command by the bytes of the file, if there is one. The new form of a book that it changes goes to the front of `form`: its
// length, or none where nothing changes.
fn obey_by_file(
    writer: &mut Writer<'_>,
    file: Option<&[u8]>,
    command: Command,
    text: &[u8],
    form: &mut [u8],
) -> Option<usize>
    requires room { Room 16384 writer.old }
    requires longest { 7168 ≤ length form.old }
    ensures told { Wrote writer.old (reply_text text.now (answered (contents_of (option_copied file.entry)) command).reply) writer.new }
    ensures stored { FormTold (answered (contents_of (option_copied file.entry)) command).changed form.old form.new result }
    ensures within { IfSome result (λ size. size ≤ length form.new) }
{
    let contents = find(file);
    let answered = answer(&contents, command);
    put_reply(writer, &answered.reply, text);
    match &answered.changed {
        Some(book) => Some(put_form(form, book)),
        None => None,
    }
}

// The same; an aside is answered without a look at the file.
fn obey_command(
    writer: &mut Writer<'_>,
    file: Option<&[u8]>,
    command: Command,
    text: &[u8],
    form: &mut [u8],
) -> Option<usize>
    requires room { Room 16384 writer.old }
    requires longest { 7168 ≤ length form.old }
    ensures told { Wrote writer.old (reply_text text.now (answered (contents_of (option_copied file.entry)) command).reply) writer.new }
    ensures stored { FormTold (answered (contents_of (option_copied file.entry)) command).changed form.old form.new result }
    ensures within { IfSome result (λ size. size ≤ length form.new) }
{
    match command {
        Command::Aside(aside) => {
            put_aside(writer, aside, text);
            None
        }
        _ => obey_by_file(writer, file, command, text, form),
    }
}

// Obeys a line by the bytes of the file, if there is one. The answer goes to the front of `reply`, which needs 16,384 bytes, and the bytes
// that the file is to hold to the front of `form`, which needs 7,168: with less of either nothing is done.
pub fn obey(file: Option<&[u8]>, line: &[u8], reply: &mut [u8], form: &mut [u8]) -> Obeyed
    ensures { ObeyPromise (option_copied file.entry) line.now
        reply.old form.old reply.new form.new result }
{
    if reply.len() < 16384 || form.len() < 7168 {
        return Obeyed {
            reply: 0,
            form: None,
        };
    }
    let mut text = [0u8; 1024];
    let heard = read(line, &mut text);
    let mut writer = Writer::new(reply);
    let stored = obey_command(
        &mut writer,
        file,
        heard.command,
        &text[..heard.length],
        form,
    );
    Obeyed {
        reply: writer.len(),
        form: stored,
    }
}
