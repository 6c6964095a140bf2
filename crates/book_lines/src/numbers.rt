// The numbers of a line: one, two, or a last one with the crew that may stand behind it.
ghost use Rattle.std.specs.Prelude.{◌≡◌, [], IfSome, IfNone};
ghost use Rattle.book_lines.specs.Lines.{single_of, pair_of, crewed_of, last_of};
ghost use Rattle.book_lines.specs.Internal.Asking.{crewed_read};

use texts::fields::Reader;

// The one number of a text, closed by the line feed that ends it.
#[tactic(auto, using(crate::proofs::NumberLaws::ended_then), unfolding(crate::specs::Lines::single_of))]
pub fn single_in(text: &[u8]) -> Option<u16>
    ensures { result ≡ single_of text.now }
{
    let mut reader = Reader::new(text);
    let x = reader.field(b'\n')?;
    reader.is_at_end().then_some(x)
}

// The two numbers of a text.
#[tactic(auto, using(crate::proofs::NumberLaws::ended_then), unfolding(crate::specs::Lines::pair_of))]
pub fn pair_in(text: &[u8]) -> Option<(u16, u16)>
    ensures { result ≡ pair_of text.now }
{
    let mut reader = Reader::new(text);
    let ends = reader.line()?;
    reader.is_at_end().then_some(ends)
}

// A number and its crew, which the byte closes. Without a crew it is the desk. Where there is no such number, the reader stays where it is.
#[tactic(auto, unfolding(crate::specs::Lines::crewed_of))]
pub fn crewed(reader: &mut Reader<'_>, close: u8) -> Option<(u16, u16)>
    ensures same { crewed_read result reader.new ≡ crewed_of close reader.old }
    ensures left { IfNone result (reader.new ≡ reader.old) }
{
    if let Some(x) = reader.field(close) {
        return Some((x, 0));
    }
    let mut ahead = Reader::new(reader.rest());
    let x = ahead.field(b' ')?;
    let crew = ahead.field(close)?;
    *reader = ahead;
    Some((x, crew))
}

// The last number and its crew, closed by the line feed that ends the text; the reader is at that end, or stays where it is.
#[tactic(auto, using(crate::proofs::NumberLaws::ended_then), unfolding(crate::specs::Lines::last_of))]
pub fn last(reader: &mut Reader<'_>) -> Option<(u16, u16)>
    ensures same { result ≡ last_of reader.old }
    ensures ended { IfSome result (λ _. reader.new ≡ []) }
    ensures left { IfNone result (reader.new ≡ reader.old) }
{
    let mut ahead = Reader::new(reader.rest());
    let both = crewed(&mut ahead, b'\n')?;
    let last = ahead.is_at_end().then_some(both)?;
    *reader = ahead;
    Some(last)
}
