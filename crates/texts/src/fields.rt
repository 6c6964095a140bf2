// Numbers in a text: one that a byte closes, and a line of two.
ghost use Rattle.std.specs.Prelude.{◌≡◌, ◌+◌, ◌*◌, ◌-◌, ◌≤◌, ◌<◌, length, IfSome, IfNone, IsTrue, ◌↔◌, []};
ghost use Rattle.texts.specs.Fields.{one_more, closes, field_from, field, long_field, line};
ghost use Rattle.texts.specs.Internal.Readings.{number_found, field_read, line_read};

use std::marker::Model;

// A text, read from its start on: what is left of it.
#[derive(Drop)]
pub struct Reader<'a> {
    rest: &'a [u8],
}

impl<'a> Model for Reader<'a> {
    ghost use Rattle.std.specs.Prelude.{ℕ, List};

    ghost Value = { List ℕ };

    ghost view = { λ reader. reader.rest.now };
}

// Whether the byte is one more digit, of so many that a number may have.
fn one_more(most: usize, byte: u8, count: usize) -> bool
    ensures { result ≡ one_more most byte count }
{
    byte.is_ascii_digit() && count < most
}

// Whether the byte closes the number behind its digits.
fn closes(limit: u32, close: u8, byte: u8, count: usize, value: u64) -> bool
    ensures { result ≡ closes limit close byte count value }
{
    byte == close && 0 < count && value <= u64::from(limit)
}

// The number at the start of a text that the byte closes, of at most so many digits and up to the limit; the text behind it.
fn number(text: &[u8], close: u8, most: usize, limit: u32) -> Option<(u32, &[u8])>
    requires { most ≤ 10 }
    ensures same { number_found result ≡ field_from most limit close 0 0 text.now }
    ensures fits { IfSome result (λ found. found.0 ≤ limit) }
{
    let mut value: u64 = 0;
    for (count, byte) in text.iter().enumerate() {
        if !one_more(most, *byte, count) {
            if closes(limit, close, *byte, count, value) {
                return Some((value as u32, &text[count + 1..]));
            }
            return None;
        }
        value = 10 * value + u64::from(*byte - b'0');
    }
    None
}

impl<'a> Reader<'a> {
    // One that has read nothing yet.
    pub fn new(text: &'a [u8]) -> Reader<'a>
        ensures { result ≡ text.now }
    {
        Reader { rest: text }
    }

    // What is left of the text.
    pub fn rest(&self) -> &'a [u8]
        ensures { result.now ≡ self.now }
    {
        self.rest
    }

    // Whether nothing is left of the text.
    pub fn is_at_end(&self) -> bool
        ensures { IsTrue result ↔ (self.now ≡ []) }
    {
        self.rest.is_empty()
    }

    // A number that the byte closes, of at most so many digits and up to the limit. Where there is none, the reader stays where it is, as
    // it does in the functions below.
    fn number(&mut self, close: u8, most: usize, limit: u32) -> Option<u32>
        requires { most ≤ 10 }
        ensures same { field_read result self.new ≡ field_from most limit close 0 0 self.old }
        ensures fits { IfSome result (λ value. value ≤ limit) }
        ensures left { IfNone result (self.new ≡ self.old) }
    {
        let (value, rest) = number(self.rest, close, most, limit)?;
        self.rest = rest;
        Some(value)
    }

    // The number that the byte closes: 1 to 5 digits up to 65,535.
    #[tactic(auto, unfolding(crate::specs::Fields::field))]
    pub fn field(&mut self, close: u8) -> Option<u16>
        ensures same { field_read result self.new ≡ field close self.old }
        ensures left { IfNone result (self.new ≡ self.old) }
    {
        let value = self.number(close, 5, 65535)?;
        Some(value as u16)
    }

    // The same of 1 to 10 digits up to 4,294,967,295.
    #[tactic(auto, unfolding(crate::specs::Fields::long_field))]
    pub fn long_field(&mut self, close: u8) -> Option<u32>
        ensures same { field_read result self.new ≡ long_field close self.old }
        ensures left { IfNone result (self.new ≡ self.old) }
    {
        self.number(close, 10, 4294967295)
    }

    // The line of two ends.
    #[tactic(auto, unfolding(crate::specs::Fields::line))]
    pub fn line(&mut self) -> Option<(u16, u16)>
        ensures same { line_read result self.new ≡ line self.old }
        ensures left { IfNone result (self.new ≡ self.old) }
    {
        let mut ahead = Reader::new(self.rest);
        let x = ahead.field(b' ')?;
        let y = ahead.field(b'\n')?;
        *self = ahead;
        Some((x, y))
    }
}
