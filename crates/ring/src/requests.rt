// Requests, and lists of them as a slice of ends.
ghost use Rattle.std.specs.Prelude.{◌≡◌, ◌+◌, ◌*◌, ◌<◌, length};
ghost use Rattle.ring.specs.Requests.{request_of, requests_of, request};
ghost use Rattle.ring.specs.Admission.{ends_verdict, count_verdict, list_verdict, call_answer};

use super::refusals::{Refusal, refuse_if};
use super::rings::Ring;

// Two nodes that talk both ways: a is the smaller, b the larger.
#[derive(Clone, Copy, Debug, PartialEq, Eq)]
pub struct Request {
    pub a: u16,
    pub b: u16,
}

impl Request {
    // The request of two ends in either order.
    pub fn new(x: u16, y: u16) -> Request
        ensures { result ≡ request_of x y }
    {
        Request {
            a: x.min(y),
            b: x.max(y),
        }
    }
}

// Request i of a list of ends.
pub fn request_at(ends: &[u16], i: usize) -> Request
    requires { 2 * i + 1 < length ends.now }
    ensures { result ≡ request (requests_of ends.now) i }
{
    Request::new(ends[2 * i], ends[2 * i + 1])
}

// 4 and 5, each by the name that the caller has for it.
pub fn ends_verdict(n: u16, x: u16, y: u16, outside: Refusal, equal: Refusal) -> Result<(), Refusal>
    ensures { result ≡ ends_verdict n x y outside equal }
{
    let outside_ring = refuse_if(n <= x || n <= y, outside);
    let equal_ends = refuse_if(x == y, equal);
    outside_ring.and(equal_ends)
}

// 3 for a number of ends.
fn count_verdict(ends: usize) -> Result<(), Refusal>
    ensures { result ≡ count_verdict ends }
{
    let many = 2 * Ring::MAX_REQUESTS < ends;
    let odd = ends % 2 == 1;
    refuse_if(many || odd, Refusal::RequestCount)
}

// 3, then 4 and 5 request by request.
pub fn list_verdict(n: u16, ends: &[u16]) -> Result<(), Refusal>
    ensures { result ≡ list_verdict n ends.now }
{
    count_verdict(ends.len())?;
    for i in 0..ends.len() / 2 {
        let number = i as u16;
        ends_verdict(
            n,
            ends[2 * i],
            ends[2 * i + 1],
            Refusal::RequestEnd(number),
            Refusal::RequestEndsEqual(number),
        )?;
    }
    Ok(())
}

// 1 to 6 for plan and check alike: the ring, if none of them is there.
pub fn call_answer(n: u16, w: u16, ends: &[u16], entries: usize) -> Result<Ring, Refusal>
    ensures { result ≡ call_answer n w ends.now entries }
{
    let ring = Ring::new(n, w)?;
    list_verdict(n, ends)?;
    if entries < ends.len() / 2 {
        return Err(Refusal::TableShort);
    }
    Ok(ring)
}
