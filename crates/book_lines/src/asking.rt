// The lines of a bundle, as they are typed.
ghost use Rattle.std.specs.Prelude.{◌≡◌, IfNone};
ghost use Rattle.book_lines.specs.Lines.{asked_of, behind_comma, bundle_of};
ghost use Rattle.book_lines.specs.Internal.Asking.{asked_read, BundledIf};

use super::numbers::crewed;
use book::Line;
use bundles::Bundle;
use texts::fields::Reader;

// The line that the byte closes. Where there is none, the reader stays where it is.
#[tactic(auto, unfolding(crate::specs::Lines::asked_of))]
pub fn asked(reader: &mut Reader<'_>, close: u8) -> Option<Line>
    ensures same { asked_read result reader.new ≡ asked_of close reader.old }
    ensures left { IfNone result (reader.new ≡ reader.old) }
{
    let mut ahead = Reader::new(reader.rest());
    let x = ahead.field(b' ')?;
    let y = ahead.field(b' ')?;
    let way = ahead.field(b' ')?;
    let (colour, crew) = crewed(&mut ahead, close)?;
    *reader = ahead;
    Some(Line {
        x,
        y,
        way,
        colour,
        crew,
    })
}

// Passes the space behind a comma, if there is one.
fn pass_space(reader: &mut Reader<'_>)
    ensures { reader.new ≡ behind_comma reader.old }
{
    if let Some(rest) = reader.rest().strip_prefix(b" ") {
        *reader = Reader::new(rest);
    }
}

// The lines of a text, if it is of their form.
pub fn lines_of(text: &[u8]) -> Option<Bundle>
    ensures { BundledIf result (bundle_of text.now) }
{
    let mut bundle = Bundle::blank();
    let mut reader = Reader::new(text);
    for _ in 0..128_usize {
        if let Some(line) = asked(&mut reader, b'\n') {
            bundle.push(line);
            return reader.is_at_end().then_some(bundle);
        }
        let line = asked(&mut reader, b',')?;
        bundle.push(line);
        pass_space(&mut reader);
    }
    None
}
