// The check of a plan: whether fate numbers are a feasible plan for a list of requests, and how many it serves.
#![tactic(auto)]

ghost use Rattle.std.specs.Prelude.{◌≡◌, ◌==◌, not, true, Ok, ◌+◌, ◌*◌, ◌≤◌, ◌<◌, length, get_or, count_by};
ghost use Rattle.ring.specs.declared.fates.Fate.TheVariants.{Served};
ghost use Rattle.ring.specs.Requests.{requests_of, request, ValidRequests};
ghost use Rattle.ring.specs.Internal.Sharing.{sharing};
ghost use Rattle.ring.specs.Fates.{fate_of};
ghost use Rattle.ring.specs.Plans.{fates_of};
ghost use Rattle.checker.specs.Internal.Placing.{Placed};
ghost use Rattle.checker.specs.Check.{number_verdicts, conflicting, later_verdict, pair_verdicts, table_answer, check_answer};

use links::HeldLinks;
use ring::refusals::refuse_if;
use ring::requests::{call_answer, request_at};
use ring::ways::ways_share;
use ring::{Fate, Refusal, Request, Way};

// A list of requests, and the fate number of each.
#[derive(Clone, Copy)]
struct Plan<'a> {
    ends: &'a [u16],
    numbers: &'a [u16],
    ghost valid: { ValidRequests 256 (requests_of ends.now) },
    ghost each: { length ends.now ≡ 2 * length numbers.now },
    ghost few: { length numbers.now ≤ 512 },
}

// Whether the number is that of a colour at all, and the request finds the links of its way free in it; it holds them from then on.
fn place(held: &mut HeldLinks, number: u16, request: Request) -> bool
    requires { (request.a < request.b) × (request.b < 256) }
    ensures { result ≡ true → (number ≤ 256) × Placed held.old held.new (fate_of number) request }
{
    if 256 < number {
        return false;
    }
    let Fate::Served(way, colour) = Fate::from(number) else {
        return true;
    };
    held.hold(way, request, usize::from(colour))
}

impl Plan<'_> {
    // 7: the first number above 2w.
    fn number_verdict(&self, w: u16) -> Result<(), Refusal>
        requires { w ≤ 128 }
        ensures { result ≡ number_verdicts w self.now.numbers.now }
    {
        for (i, number) in self.numbers.iter().enumerate() {
            refuse_if(2 * w < *number, Refusal::FateNumber(i as u16))?;
        }
        Ok(())
    }

    // Whether a request that is served by a way in a colour is in conflict with request j. Most pairs differ in colour.
    fn in_conflict(&self, way: Way, colour: u16, r: Request, j: usize) -> bool
        requires { j < length self.now.numbers.now }
        ensures { result ≡ conflicting sharing (Served way colour) r (fate_of (get_or self.now.numbers.now j 0))
            (request (requests_of self.now.ends.now) j) }
    {
        let Fate::Served(other_way, other_colour) = Fate::from(self.numbers[j]) else {
            return false;
        };
        colour == other_colour && ways_share(way, r, other_way, request_at(self.ends, j))
    }

    // 8 for request i: the first later request in conflict with it.
    fn later_verdict(&self, i: usize) -> Result<(), Refusal>
        requires { i < length self.now.numbers.now }
        ensures { result ≡ later_verdict sharing (requests_of self.now.ends.now) (fates_of self.now.numbers.now) i }
    {
        let Fate::Served(way, colour) = Fate::from(self.numbers[i]) else {
            return Ok(());
        };
        let r = request_at(self.ends, i);
        for j in i + 1..self.numbers.len() {
            if self.in_conflict(way, colour, r, j) {
                return Err(Refusal::Conflict(i as u16, j as u16));
            }
        }
        Ok(())
    }

    // 8: the pair with the lowest first, then lowest second request.
    fn pair_verdict(&self) -> Result<(), Refusal>
        ensures { result ≡ pair_verdicts sharing (requests_of self.now.ends.now) (fates_of self.now.numbers.now) }
    {
        for i in 0..self.numbers.len() {
            self.later_verdict(i)?;
        }
        Ok(())
    }

    // Whether each request finds its links free. Then no pair is in conflict.
    fn is_disjoint(&self) -> bool
        ensures { result ≡ true
            → pair_verdicts sharing (requests_of self.now.ends.now) (fates_of self.now.numbers.now) ≡ Ok tt }
    {
        let mut held = HeldLinks::new();
        for (i, number) in self.numbers.iter().enumerate() {
            if !place(&mut held, *number, request_at(self.ends, i)) {
                return false;
            }
        }
        true
    }

    // 8: the pairs are searched only where some request does not find its links free.
    fn conflict_verdict(&self) -> Result<(), Refusal>
        ensures { result ≡ pair_verdicts sharing (requests_of self.now.ends.now) (fates_of self.now.numbers.now) }
    {
        if self.is_disjoint() {
            return Ok(());
        }
        self.pair_verdict()
    }

    // How many requests are not blocked.
    fn served_count(&self) -> u16
        ensures { result ≡ count_by (λ k. not (k == 0)) self.now.numbers.now }
    {
        self.numbers.iter().filter(|number| **number != 0).count() as u16
    }

    // 7, then 8, then the number served.
    fn answer(&self, w: u16) -> Result<u16, Refusal>
        requires { w ≤ 128 }
        ensures { result ≡ table_answer sharing w (requests_of self.now.ends.now) self.now.numbers.now }
    {
        self.number_verdict(w)?;
        self.conflict_verdict()?;
        Ok(self.served_count())
    }
}

// Whether the first m numbers of the table are a feasible plan, and how many requests it serves; or the first ground against it.
pub fn check(n: u16, w: u16, ends: &[u16], table: &[u16]) -> Result<u16, Refusal>
    ensures { result ≡ check_answer n w ends.now table.now }
{
    call_answer(n, w, ends, table.len())?;
    let plan = Plan {
        ends,
        numbers: &table[..ends.len() / 2],
    };
    plan.answer(w)
}
