// What a line says: a command with its numbers.
ghost use Rattle.std.specs.Prelude.{◌≡◌, ◌≤◌, length, take};
ghost use Rattle.book_lines.specs.Lines.{open_of, grant_of, preview_of, remove_of, confirm_of, show_of, holder_of};
ghost use Rattle.bundles.specs.Internal.Bundles.{Bundled};
ghost use Rattle.book_lines.specs.Lines.{lines_in, command_with_numbers, command_in, finished, heard, command_of};

use super::asking::{asked, lines_of};
use super::numbers::{last, pair_in, single_in};
use super::spaces::squeeze;
use book::Line;
use bundles::Bundle;
use texts::fields::Reader;

#[derive(Clone, Copy)]
pub enum Command {
    Open(u16, u16),
    Grant(Line),
    Preview,
    Remove(u16),
    Confirm(u16),
    Show(u16, u16),
    Holder(u16, u16, u16),
    Count,
    Revision,
    List,
    Pending,
    Aside(Aside),
}

// A line that asks nothing of the book.
#[derive(Clone, Copy, Debug, PartialEq, Eq)]
pub enum Aside {
    Help,
    Nothing,
    Unreadable,
    Unfinished,
    TooLong,
}

// The command of a line, and how many bytes the line has with its spaces squeezed.
#[derive(Clone, Copy)]
pub struct Heard {
    pub command: Command,
    pub length: usize,
}

#[tactic(auto, unfolding(crate::specs::Lines::open_of))]
fn open_in(text: &[u8]) -> Option<Command>
    ensures { result ≡ open_of text.now }
{
    let (n, w) = pair_in(text)?;
    Some(Command::Open(n, w))
}

#[tactic(auto, using(crate::proofs::NumberLaws::ended_then), unfolding(crate::specs::Lines::grant_of))]
fn grant_in(text: &[u8]) -> Option<Command>
    ensures { result ≡ grant_of text.now }
{
    let mut reader = Reader::new(text);
    let line = asked(&mut reader, b'\n')?;
    reader.is_at_end().then_some(Command::Grant(line))
}

// The command alone; its lines are read again for the answer.
#[tactic(auto, unfolding(crate::specs::Lines::preview_of))]
fn preview_in(text: &[u8]) -> Option<Command>
    ensures { result ≡ preview_of text.now }
{
    lines_of(text)?;
    Some(Command::Preview)
}

#[tactic(auto, unfolding(crate::specs::Lines::remove_of))]
fn remove_in(text: &[u8]) -> Option<Command>
    ensures { result ≡ remove_of text.now }
{
    let serial = single_in(text)?;
    Some(Command::Remove(serial))
}

#[tactic(auto, unfolding(crate::specs::Lines::confirm_of))]
fn confirm_in(text: &[u8]) -> Option<Command>
    ensures { result ≡ confirm_of text.now }
{
    let serial = single_in(text)?;
    Some(Command::Confirm(serial))
}

#[tactic(auto, unfolding(crate::specs::Lines::show_of))]
fn show_in(text: &[u8]) -> Option<Command>
    ensures { result ≡ show_of text.now }
{
    let mut reader = Reader::new(text);
    let (serial, crew) = last(&mut reader)?;
    Some(Command::Show(serial, crew))
}

#[tactic(auto, unfolding(crate::specs::Lines::holder_of))]
fn holder_in(text: &[u8]) -> Option<Command>
    ensures { result ≡ holder_of text.now }
{
    let mut reader = Reader::new(text);
    let link = reader.field(b' ')?;
    let (colour, crew) = last(&mut reader)?;
    Some(Command::Holder(link, colour, crew))
}

// A command with numbers behind its word.
#[tactic(auto, unfolding(crate::specs::Lines::command_with_numbers))]
fn numbers_in(text: &[u8]) -> Option<Command>
    ensures { result ≡ command_with_numbers text.now }
{
    if let Some(rest) = text.strip_prefix(b"open ") {
        return open_in(rest);
    }
    if let Some(rest) = text.strip_prefix(b"grant ") {
        return grant_in(rest);
    }
    if let Some(rest) = text.strip_prefix(b"remove ") {
        return remove_in(rest);
    }
    if let Some(rest) = text.strip_prefix(b"confirm ") {
        return confirm_in(rest);
    }
    if let Some(rest) = text.strip_prefix(b"show ") {
        return show_in(rest);
    }
    if let Some(rest) = text.strip_prefix(b"holder ") {
        return holder_in(rest);
    }
    let rest = text.strip_prefix(b"preview ")?;
    preview_in(rest)
}

// The command of a line whose spaces are squeezed.
#[tactic(auto, unfolding(crate::specs::Lines::command_in))]
fn command_in(text: &[u8]) -> Command
    ensures { result ≡ command_in text.now }
{
    if text == b"\n".as_slice() {
        return Command::Aside(Aside::Nothing);
    }
    if text == b"count\n".as_slice() {
        return Command::Count;
    }
    if text == b"revision\n".as_slice() {
        return Command::Revision;
    }
    if text == b"list\n".as_slice() {
        return Command::List;
    }
    if text == b"pending\n".as_slice() {
        return Command::Pending;
    }
    if text == b"help\n".as_slice() {
        return Command::Aside(Aside::Help);
    }
    if text == b"preview\n".as_slice() {
        return Command::Preview;
    }
    numbers_in(text).unwrap_or(Command::Aside(Aside::Unreadable))
}

// The lines that are tried by a line whose spaces are squeezed.
#[tactic(auto, unfolding(crate::specs::Lines::lines_in))]
pub fn bundle_in(text: &[u8]) -> Bundle
    ensures { Bundled result (lines_in text.now) }
{
    let Some(rest) = text.strip_prefix(b"preview ") else {
        return Bundle::blank();
    };
    lines_of(rest).unwrap_or(Bundle::blank())
}

// Whether the line feed that ends a line is there.
#[tactic(auto, unfolding(crate::specs::Lines::finished))]
fn finished(line: &[u8]) -> bool
    ensures { result ≡ finished line.now }
{
    line.ends_with(b"\n")
}

// The command of a line. The line goes into the text with its spaces squeezed; one that is too long does not.
#[tactic(auto, unfolding(crate::specs::Lines::heard, crate::specs::Lines::command_of))]
pub fn read(line: &[u8], text: &mut [u8; 1024]) -> Heard
    ensures within { result.length ≤ length text.new }
    ensures heard { take result.length text.new ≡ heard line.now }
    ensures command { result.command ≡ command_of line.now }
{
    if text.len() < line.len() {
        return Heard {
            command: Command::Aside(Aside::TooLong),
            length: 0,
        };
    }
    let length = squeeze(line, text);
    let said = &text[..length];
    let command = if finished(line) {
        command_in(said)
    } else {
        Command::Aside(Aside::Unfinished)
    };
    Heard { command, length }
}
