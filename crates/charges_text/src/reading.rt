// The input of `rings charges`: a line of three rates, then a line for each length.
ghost use Rattle.std.specs.Prelude.{◌≡◌, ◌≤◌, ◌*◌, length, IfSome};
ghost use Rattle.charges_text.specs.Reading.{lengths_of, reading_of};
ghost use Rattle.charges_text.specs.Internal.Readings.{lengths_in, reading_in};

use texts::fields::Reader;

// What a text says: the three rates, and how many lengths there are.
#[derive(Clone, Copy, Debug)]
pub struct Reading {
    pub rates: [u32; 3],
    pub count: usize,
}

// A line for each length to the end of the text: the lengths go into the buffer, and their count is given.
fn length_lines(mut reader: Reader<'_>, buffer: &mut [u32]) -> Option<usize>
    requires { length reader ≤ 2 * length buffer.old }
    ensures same { lengths_in buffer.new result ≡ lengths_of reader.entry }
    ensures fits { IfSome result (λ count. 2 * count ≤ length reader.entry) }
{
    let mut count: usize = 0;
    while !reader.is_at_end() {
        buffer[count] = reader.long_field(b'\n')?;
        count += 1;
    }
    Some(count)
}

// The whole text, with the lengths first in the buffer.
#[tactic(auto, unfolding(crate::specs::Reading::reading_of, crate::specs::Reading::form_of))]
pub fn read(text: &[u8], buffer: &mut [u32]) -> Option<Reading>
    requires { 4096 ≤ length buffer.old }
    ensures same { reading_in buffer.new result ≡ reading_of text.now }
    ensures fits { IfSome result (λ said. said.count ≤ 4096) }
{
    if 8192 < text.len() {
        return None;
    }
    let mut reader = Reader::new(text);
    let first = reader.long_field(b' ')?;
    let second = reader.long_field(b' ')?;
    let third = reader.long_field(b'\n')?;
    let count = length_lines(reader, buffer)?;
    Some(Reading {
        rates: [first, second, third],
        count,
    })
}
