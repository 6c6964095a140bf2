// The links that are held in each colour: 256 links as four words of 64 bits, link z as bit z % 64 of word z / 64.
#![tactic(auto)]

ghost use Rattle.std.specs.Prelude.{◌≡◌, ℕ, ◌+◌, ◌*◌, ◌<◌, eqb, ltb};
ghost use Rattle.ring.specs.Ways.{uses};
ghost use Rattle.sets.specs.Sets.{bit};
ghost use Rattle.links.specs.Links.{none, FitsSets, Held};

use ring::{Request, Way};
use std::marker::Model;

// Word k of the links below t.
fn below(t: usize, k: usize) -> u64
    requires { k < 4 }
    ensures { (i : ℕ) → i < 64 → eqb (bit result i) 1 ≡ ltb (64 * k + i) t }
{
    let from = 64 * k;
    if t <= from {
        return 0;
    }
    if from + 64 <= t {
        return u64::MAX;
    }
    !(u64::MAX << (t - from))
}

// Word k of the links of a way: those from a to b - 1, or all the others.
fn word(way: Way, request: Request, k: usize) -> u64
    requires { (request.a < request.b) × (k < 4) }
    ensures { (i : ℕ) → i < 64 → eqb (bit result i) 1 ≡ uses way request (64 * k + i) }
{
    let between = below(request.b as usize, k) ^ below(request.a as usize, k);
    match way {
        Way::Plain => between,
        Way::Seam => !between,
    }
}

// The links that are held in each of 128 colours, as four words for each: any such words may be held on from, and read.
#[derive(Clone, Copy)]
pub struct HeldLinks {
    pub words: [[u64; 4]; 128],
}

impl Model for HeldLinks {
    ghost use Rattle.std.specs.Prelude.{ℕ, List};
    ghost use Rattle.links.specs.Links.{LinkSets};

    ghost Value = { List (List ℕ) };

    ghost view = { λ h. h.words };

    ghost inverse = { λ rows. record { words = rows } };

    ghost invariant = { λ h. LinkSets h.words };
}

impl HeldLinks {
    // No link is held.
    pub fn new() -> Self
        ensures { result ≡ none }
    {
        HeldLinks {
            words: [[0; 4]; 128],
        }
    }

    // Holds the links of a way in a colour, and says whether all of them were free.
    pub fn hold(&mut self, way: Way, request: Request, colour: usize) -> bool
        requires { FitsSets request colour }
        ensures { Held self.old self.new way request colour result }
    {
        let mut free = true;
        for k in 0..4 {
            let links = word(way, request, k);
            free = free && self.words[colour][k] & links == 0;
            self.words[colour][k] |= links;
        }
        free
    }
}
