// The plan: the better of the two parts.
ghost use Rattle.std.specs.Prelude.{◌≡◌, ◌+◌, ◌<◌, length};
ghost use Rattle.ring.specs.Requests.{requests_of};
ghost use Rattle.matching.specs.Maximum.{pairs_of};
ghost use Rattle.planner.specs.Plan.{ceiling_of};
ghost use Rattle.planner.specs.Promise.{PlanPromise};
ghost use Rattle.planner.specs.Internal.Choosing.{Choosable, Chosen};

use super::answers::{Part, Summary};
use super::pairs::Call;
use super::spares::fill;
use chain::colour;
use matching::{Matching, maximum};
use ring::Refusal;
use ring::requests::call_answer;

// The chain count plus the smaller of the match count and w, or m if that sum is above m.
fn ceiling(m: u16, w: u16, chain: u16, matched: u16) -> u16
    requires { chain + w < 65536 }
    ensures { result ≡ ceiling_of m w chain matched }
{
    (chain + matched.min(w)).min(m)
}

// The pair part is written over the chain part if it serves more. The counts, the part used and the ceiling are given back.
fn choose(call: &Call, found: &Matching, chain: u16, table: &mut [u16]) -> Summary
    requires { Choosable call.now.ring.nodes call.now.ring.colours call.now.ends.now found.now.mates table.old chain found.now.size }
    ensures { Chosen call.now.ring.nodes call.now.ring.colours (requests_of call.now.ends.now)
        (pairs_of (length (requests_of call.now.ends.now)) found.now.mates) table.old table.new result }
{
    let m = call.ends.len() / 2;
    let w = call.ring.colours;
    let requests = m as u16;
    let matched = found.size as u16;
    let pairs = matched.min(w);
    let spare = w - pairs;
    let paired = 2 * pairs + spare.min(requests - 2 * pairs);
    let more = chain < paired;
    if more {
        call.write_pairs(&found.mates, table);
        fill(spare, w, &mut table[..m]);
    }
    Summary {
        chain,
        matched,
        paired,
        used: if more { Part::Pair } else { Part::Chain },
        ceiling: ceiling(requests, w, chain, matched),
    }
}

// The plan for a list of requests: its fate numbers in the first m entries of the table, and its counts. A refused call changes nothing.
pub fn plan(n: u16, w: u16, ends: &[u16], table: &mut [u16]) -> Result<Summary, Refusal>
    ensures { PlanPromise n w ends.now table.old table.new result }
{
    let ring = call_answer(n, w, ends, table.len())?;
    let chain = colour(ring, ends, table);
    let found = maximum(ends);
    let call = Call { ring, ends };
    Ok(choose(&call, &found, chain, table))
}
