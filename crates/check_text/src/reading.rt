// The checking program's input: the planning program's text, followed by m lines of one fate number each.
ghost use Rattle.std.specs.Prelude.{◌≡◌, ◌≤◌, ◌+◌, ◌*◌, [], length, take, IfSome, IfNone};
ghost use Rattle.plan_text.specs.Internal.Readings.{lines_read};
ghost use Rattle.check_text.specs.Reading.{numbers_from, reading_of};
ghost use Rattle.check_text.specs.Internal.Readings.{reading_in};

use plan_text::reading::{Numbers, heading, request_lines};
use texts::fields::Reader;

// m lines of one fate number: the numbers go into the buffer. Where one line is of another form, the reader stays where it is.
fn table_lines(reader: &mut Reader<'_>, m: u16, buffer: &mut [u16]) -> Option<()>
    requires { length reader.old ≤ 2 * length buffer.old }
    ensures same { lines_read result (take m buffer.new) reader.new ≡ numbers_from [] m reader.old }
    ensures fits { IfSome result (λ _. 2 * m + length reader.new ≤ length reader.old) }
    ensures left { IfNone result (reader.new ≡ reader.old) }
{
    let mut ahead = Reader::new(reader.rest());
    for i in 0..usize::from(m) {
        buffer[i] = ahead.field(b'\n')?;
    }
    *reader = ahead;
    Some(())
}

// The whole text: its numbers, with the ends first in one buffer and the fate numbers first in the other.
#[tactic(auto, unfolding(crate::specs::Reading::reading_of, crate::specs::Reading::form_of))]
pub fn read(text: &[u8], ends: &mut [u16], table: &mut [u16]) -> Option<Numbers>
    requires { (8192 ≤ length ends.old) × (8192 ≤ length table.old) }
    ensures same { reading_in ends.new table.new result ≡ reading_of text.now }
    ensures fits { IfSome result (λ numbers. 2 * numbers.m ≤ 8192) }
{
    if 16384 < text.len() {
        return None;
    }
    let mut reader = Reader::new(text);
    let numbers = heading(&mut reader)?;
    request_lines(&mut reader, numbers.m, ends)?;
    table_lines(&mut reader, numbers.m, table)?;
    if !reader.is_at_end() {
        return None;
    }
    Some(numbers)
}
