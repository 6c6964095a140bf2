// The planning program's input: a line "n w m", then m lines of two ends.
ghost use Rattle.std.specs.Prelude.{◌≡◌, ◌≤◌, ◌+◌, ◌*◌, [], length, take, IfSome, IfNone};
ghost use Rattle.plan_text.specs.Reading.{heading, lines_from, reading_of};
ghost use Rattle.plan_text.specs.Internal.Readings.{heading_read, lines_read, reading_in};

use texts::fields::Reader;

// The numbers of the first line.
#[derive(Clone, Copy, Debug, PartialEq, Eq)]
pub struct Numbers {
    pub n: u16,
    pub w: u16,
    pub m: u16,
}

// The first line. Where it is of another form, the reader stays where it is.
#[tactic(auto, unfolding(crate::specs::Reading::heading))]
pub fn heading(reader: &mut Reader<'_>) -> Option<Numbers>
    ensures same { heading_read result reader.new ≡ heading reader.old }
    ensures left { IfNone result (reader.new ≡ reader.old) }
{
    let mut ahead = Reader::new(reader.rest());
    let n = ahead.field(b' ')?;
    let w = ahead.field(b' ')?;
    let m = ahead.field(b'\n')?;
    *reader = ahead;
    Some(Numbers { n, w, m })
}

// m lines of two ends: the ends go into the buffer. Where one line is of another form, the reader stays where it is.
pub fn request_lines(reader: &mut Reader<'_>, m: u16, buffer: &mut [u16]) -> Option<()>
    requires { length reader.old ≤ 2 * length buffer.old }
    ensures same { lines_read result (take (2 * m) buffer.new) reader.new ≡ lines_from [] m reader.old }
    ensures fits { IfSome result (λ _. 4 * m + length reader.new ≤ length reader.old) }
    ensures left { IfNone result (reader.new ≡ reader.old) }
{
    let mut ahead = Reader::new(reader.rest());
    for i in 0..usize::from(m) {
        let (x, y) = ahead.line()?;
        buffer[2 * i] = x;
        buffer[2 * i + 1] = y;
    }
    *reader = ahead;
    Some(())
}

// The whole text: its numbers, with the ends first in the buffer.
#[tactic(auto, unfolding(crate::specs::Reading::reading_of, crate::specs::Reading::form_of))]
pub fn read(text: &[u8], buffer: &mut [u16]) -> Option<Numbers>
    requires { 4096 ≤ length buffer.old }
    ensures same { reading_in buffer.new result ≡ reading_of text.now }
    ensures fits { IfSome result (λ numbers. 2 * numbers.m ≤ 4096) }
{
    if 8192 < text.len() {
        return None;
    }
    let mut reader = Reader::new(text);
    let numbers = heading(&mut reader)?;
    request_lines(&mut reader, numbers.m, buffer)?;
    if !reader.is_at_end() {
        return None;
    }
    Some(numbers)
}
