// The planning program's output for its input.
ghost use Rattle.std.specs.Prelude.{◌≤◌, length};
ghost use Rattle.texts.specs.Internal.Writing.{Room};
ghost use Rattle.plan_text.specs.Reading.{reading_of};
ghost use Rattle.plan_text.specs.Promise.{OutputFor, AnswerPromise};
ghost use Rattle.plan_text.specs.Internal.Printing.{WroteRight};

use super::layout::{put_plan, put_refused};
use super::reading::{Numbers, read};
use planner::plan;
use ring::Refusal;
use texts::writing::Writer;

// The output of plan for what the text says.
fn put_answer(writer: &mut Writer<'_>, text: &[u8])
    requires { Room 8192 writer.old }
    ensures { WroteRight (OutputFor (reading_of text.now)) writer.old writer.new }
{
    let mut buffer = [0u16; 4096];
    let Some(Numbers { n, w, m }) = read(text, &mut buffer) else {
        return put_refused(writer, Refusal::TextForm.number());
    };
    let entries = usize::from(m);
    let ends = &buffer[..2 * entries];
    let mut table = [0u16; 512];
    match plan(n, w, ends, &mut table) {
        Ok(counts) => put_plan(writer, n, w, counts, &table[..ends.len() / 2]),
        Err(refusal) => put_refused(writer, refusal.number()),
    }
}

// The output for a text, and its length. A buffer of fewer than 8,192 bytes, which no output needs, gets nothing.
pub fn answer(text: &[u8], out: &mut [u8]) -> usize
    ensures { AnswerPromise text.now out.old out.new result }
{
    if out.len() < 8192 {
        return 0;
    }
    let mut writer = Writer::new(out);
    put_answer(&mut writer, text);
    writer.len()
}
