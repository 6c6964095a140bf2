// The checking program's output for its input.
ghost use Rattle.std.specs.Prelude.{◌≡◌};
ghost use Rattle.check_text.specs.Reading.{reading_of};
ghost use Rattle.check_text.specs.Promise.{answer_to, CheckTextPromise};

use super::reading::read;
use super::verdicts::put_verdict;
use checker::check;
use ring::Refusal;
use texts::writing::Writer;

// The answer of the check to what a text says.
fn text_answer(text: &[u8]) -> Result<u16, Refusal>
    ensures { result ≡ answer_to (reading_of text.now) }
{
    let mut ends = [0u16; 8192];
    let mut table = [0u16; 8192];
    let said = read(text, &mut ends, &mut table).ok_or(Refusal::TextForm)?;
    let entries = usize::from(said.m);
    check(said.n, said.w, &ends[..2 * entries], &table[..entries])
}

// The line for a text, and its length. A buffer of fewer than 32 bytes, which no line needs, gets nothing.
pub fn answer(text: &[u8], out: &mut [u8]) -> usize
    ensures { CheckTextPromise text.now out.old out.new result }
{
    if out.len() < 32 {
        return 0;
    }
    let mut writer = Writer::new(out);
    put_verdict(&mut writer, text_answer(text));
    writer.len()
}
