// Previews on a book.
ghost use Rattle.std.specs.Prelude.{length, ◌+◌, ◌≡◌, ◌≤◌};
ghost use Rattle.book.specs.Books.{Valid};
ghost use Rattle.bundles.specs.Internal.Bundles.{Bundled};
ghost use Rattle.bundles.specs.Previews.{preview_in_numbers, preview_numbers, previewed_all, serials_of};
ghost use Rattle.outcomes.specs.Entries.{line_at, lines_of_entries};
ghost use Rattle.outcomes.specs.Outcomes.{Answered, put_from};

use super::values::{put, refused};
use book::{Book, Line};
use bundles::{Bundle, Previewed, preview};

// The line whose five numbers stand from an entry on.
fn line_at(entries: &[u16], at: usize) -> Line
    requires { at + 5 ≤ length entries.now }
    ensures { result ≡ line_at entries.now at }
{
    Line {
        x: entries[at],
        y: entries[at + 1],
        way: entries[at + 2],
        colour: entries[at + 3],
        crew: entries[at + 4],
    }
}

// The lines of the entries. Of too many none is looked at.
fn bundle_of(entries: &[u16]) -> Bundle
    ensures { Bundled result (lines_of_entries entries.now) }
{
    let mut bundle = Bundle::blank();
    if entries.len() % 5 != 0 {
        return bundle;
    }
    let count = entries.len() / 5;
    if Bundle::LINES < count {
        bundle.count = count;
        return bundle;
    }
    for i in 0..count {
        bundle.push(line_at(entries, 5 * i));
    }
    bundle
}

// How many serials there are, the line that is turned down with its number, and the serials.
fn put_preview(values: &mut [u16], preview: &Previewed)
    ensures { values.new ≡ put_from 0 (preview_numbers preview.now.stopped preview.now.count (serials_of preview.now)).values values.old }
{
    let (line, ground) = match preview.stopped {
        Some((line, refusal)) => (line, refusal.number()),
        None => (65535, 0),
    };
    let serials = preview.serials();
    let end = 3 + serials.len();
    let mut given = [0u16; 19];
    given[..3].copy_from_slice(&[preview.count, line, ground]);
    given[3..end].copy_from_slice(serials);
    put(values, &given[..end]);
}

// Tries lines on a book.
pub fn preview_in(book: &Book, entries: &[u16], values: &mut [u16]) -> u16
    requires { Valid book.now }
    ensures { Answered (preview_in_numbers (previewed_all book.now (lines_of_entries entries.now))) values.old
        values.new result }
{
    match preview(book, &bundle_of(entries)) {
        Ok(previewed) => {
            put_preview(values, &previewed);
            0
        }
        Err(refusal) => refused(refusal, values),
    }
}
