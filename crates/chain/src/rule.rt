// The colour that a request gets: best fit over the colours' latest ends.
ghost use Rattle.std.specs.Prelude.{◌≡◌, ◌==◌, ◌≤◌, ◌<◌, length, position, replicate};
ghost use Rattle.chain.specs.Rule.{pick, with_pick, Below};
ghost use Rattle.chain.specs.Internal.Walk.{Greatest};

use ring::Request;
use std::marker::Model;

// A latest end that is not above a, and 0 in place of one that is.
fn fitting(end: u16, a: u16) -> u16
    ensures { («end» ≤ a → result ≡ «end») × (a < «end» → result ≡ 0) }
{
    if end <= a { end } else { 0 }
}

// The greatest latest end that is not above a, 0 if there is none. No early exit: the loop compares many colours at once.
fn greatest(latest: &[u16], a: u16) -> u16
    ensures { Greatest latest.now (length latest.now) a result }
{
    let mut top: u16 = 0;
    for end in latest {
        top = top.max(fitting(*end, a));
    }
    top
}

// The first colour with this latest end, if there is one.
fn first_with(latest: &[u16], end: u16) -> Option<usize>
    ensures { result ≡ position (λ e. e == «end») latest.now }
{
    latest.iter().position(|e| *e == end)
}

// The latest ends of w colours: those in use come first, and all others are 0.
#[derive(Drop)]
pub struct Colours {
    pub latest: [u16; 128],
    pub used: usize,
    pub w: usize,
}

// Clauses see the latest ends of the w colours.
impl Model for Colours {
    ghost use Rattle.std.specs.Prelude.{ℕ, ◌≤◌, List, take};
    ghost use Rattle.chain.specs.Internal.Walk.{InUse};

    ghost Value = { List ℕ };

    ghost view = { λ c. take c.w c.latest };

    ghost invariant = { λ c. (c.w ≤ 128) × InUse c.used c.w c.latest };
}

impl Colours {
    // No colour is in use.
    pub fn new(w: usize) -> Self
        requires { w ≤ 128 }
        ensures { result ≡ replicate w 0 }
    {
        Colours {
            latest: [0; 128],
            used: 0,
            w,
        }
    }

    // The colour whose latest end is greatest among those not above a, the lowest colour on a tie. No latest end of a colour in use is 0,
    // so 0 says that none of them fits.
    pub fn best(&self, a: u16) -> Option<usize>
        ensures { result ≡ pick self.now a }
    {
        let in_use = &self.latest[..self.used];
        let top = greatest(in_use, a);
        if top == 0 {
            return (self.used < self.w).then_some(self.used);
        }
        first_with(in_use, top)
    }

    // The colour that a request gets, if there is one; its latest end becomes the request's larger end.
    pub fn serve(&mut self, request: Request) -> Option<usize>
        requires { 0 < request.b }
        ensures picked { result ≡ pick self.old request.a }
        ensures latest { self.new ≡ with_pick self.old (pick self.old request.a) request.b }
        ensures below { Below result 128 }
    {
        let colour = self.best(request.a)?;
        self.latest[colour] = request.b;
        self.used = self.used.max(colour + 1);
        Some(colour)
    }
}
