// Answers as numbers.
ghost use Rattle.std.specs.Prelude.{Err, MatchResult, Ok, [], ◌≡◌, ◌∷◌, set};
ghost use Rattle.ring.specs.Answers.{carried_values, refuses};
ghost use Rattle.planner.specs.Plan.{part_number, plan_in_numbers};
ghost use Rattle.outcomes.specs.Outcomes.{Answered, in_numbers, put_from};
ghost use Rattle.outcomes.specs.Entries.{halves};

use planner::{Part, Summary};
use ring::Refusal;
use ring::refusals::Carried;

// Puts a value into an entry, if there is one.
pub fn put_at(values: &mut [u16], at: usize, value: u16)
    ensures { values.new ≡ set values.old at value }
{
    if at < values.len() {
        values[at] = value;
    }
}

// Puts values into the lent ones, from the first on: of a slice that is too short, as many as fit.
#[tactic(auto, using(crate::proofs::OutcomeLaws::put_front))]
pub fn put(values: &mut [u16], given: &[u16])
    ensures { values.new ≡ put_from 0 given.now values.old }
{
    let count = given.len().min(values.len());
    values[..count].copy_from_slice(&given[..count]);
}

// Puts what a refusal carries.
fn put_carried(values: &mut [u16], carried: Carried)
    ensures { values.new ≡ put_from 0 (carried_values carried) values.old }
{
    match carried {
        Carried::None => {}
        Carried::One(first) => put_at(values, 0, first),
        Carried::Two(first, second) => put(values, &[first, second]),
    }
}

// The number of a refusal; what it carries goes into the slice.
pub fn refused(refusal: Refusal, values: &mut [u16]) -> u16
    ensures { Answered (refuses refusal) values.old values.new result }
{
    put_carried(values, refusal.carried());
    refusal.number()
}

// The result of a call: 0 where it succeeds, which gives these values, or else that of its refusal.
pub fn answered<const N: usize>(answer: Result<[u16; N], Refusal>, values: &mut [u16]) -> u16
    ensures { Answered (in_numbers answer.entry) values.old values.new result }
{
    match answer {
        Ok(given) => {
            put(values, &given);
            0
        }
        Err(refusal) => refused(refusal, values),
    }
}

// 0 for the chain part, 1 for the pair part.
pub fn part_number(part: Part) -> u16
    ensures { result ≡ part_number part }
{
    match part {
        Part::Chain => 0,
        Part::Pair => 1,
    }
}

// The counts, the part and the ceiling of a plan.
pub fn summary_values(summary: Summary) -> [u16; 5]
    ensures { result ≡ (plan_in_numbers (Ok summary)).values }
{
    [
        summary.chain,
        summary.matched,
        summary.paired,
        part_number(summary.used),
        summary.ceiling,
    ]
}

// A number of 32 bits: its low half, then its high one.
pub fn halves(number: u32) -> [u16; 2]
    ensures { result ≡ halves number }
{
    [(number % 65536) as u16, (number / 65536) as u16]
}

// A value that a success gives alone.
pub fn alone(answer: Result<u16, Refusal>) -> Result<[u16; 1], Refusal>
    ensures { MatchResult answer (λ value. result ≡ Ok (value ∷ [])) (λ refusal. result ≡ Err refusal) }
{
    Ok([answer?])
}
