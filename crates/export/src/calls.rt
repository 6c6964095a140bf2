// Plans, checks, and the planning program's text.
ghost use Rattle.checker.specs.Check.{check_answer, check_in_numbers};
ghost use Rattle.export.specs.Calls.{PlanCall};
ghost use Rattle.outcomes.specs.Outcomes.{Answered};
ghost use Rattle.plan_text.specs.Promise.{AnswerPromise};

use checker::check;
use outcomes::values::{alone, answered, summary_values};
use plan_text::answer;
use planner::plans::plan;

// Plans the requests of the ends into the table. Values: chain, match, pair, part (0 chain, 1 pair), ceiling.
#[unsafe(no_mangle)]
pub extern "C" fn tarziloen_plan(
    n: u16,
    w: u16,
    ends: &[u16],
    table: &mut [u16],
    values: &mut [u16],
) -> u16
    ensures { PlanCall n w ends.now table.old table.new values.old
        values.new result }
{
    answered(plan(n, w, ends, table).map(summary_values), values)
}

// Checks the table for the requests of the ends. Values: the number served.
#[unsafe(no_mangle)]
pub extern "C" fn tarziloen_check(
    n: u16,
    w: u16,
    ends: &[u16],
    table: &[u16],
    values: &mut [u16],
) -> u16
    ensures { Answered (check_in_numbers (check_answer n w ends.now table.now)) values.old
        values.new result }
{
    answered(alone(check(n, w, ends, table)), values)
}

// The planning program's output for a text, and its length. A buffer of fewer than 8,192 bytes gets nothing.
#[unsafe(no_mangle)]
pub extern "C" fn tarziloen_answer(text: &[u8], out: &mut [u8]) -> usize
    ensures { AnswerPromise text.now out.old out.new result }
{
    answer(text, out)
}
