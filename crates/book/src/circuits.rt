// Circuits: what a place of the book records.
ghost use Rattle.std.specs.Prelude.{◌≡◌};
ghost use Rattle.book.specs.Circuits.{vacant, is_live, is_marked, as_pending, ends_of, holds};

use ring::ways::uses;
use ring::{Request, Way};

// A live circuit, or one that was removed and still shines until its pull is confirmed.
#[derive(Clone, Copy, Debug, PartialEq, Eq)]
pub enum RecordState {
    Live,
    Pending,
}

// The serial, the two ends with the smaller as a, the way, the state, the colour and the crew. Way and state lie side by side: a record has
// 12 bytes and none to spare.
#[derive(Clone, Copy)]
pub struct Circuit {
    pub serial: u16,
    pub a: u16,
    pub b: u16,
    pub way: Way,
    pub state: RecordState,
    pub colour: u16,
    pub crew: u16,
}

impl Circuit {
    // The record of a place that holds no circuit.
    pub fn vacant() -> Circuit
        ensures { result ≡ vacant }
    {
        Circuit {
            serial: 0,
            a: 0,
            b: 0,
            way: Way::Plain,
            state: RecordState::Live,
            colour: 0,
            crew: 0,
        }
    }

    // The two ends of the circuit.
    pub fn ends(&self) -> Request
        ensures { result ≡ ends_of self.now }
    {
        Request {
            a: self.a,
            b: self.b,
        }
    }

    // Whether the circuit is live.
    pub fn is_live(&self) -> bool
        ensures { result ≡ is_live self.now }
    {
        self.state == RecordState::Live
    }

    // Whether the record is pending or not the desk's, for which the old stored form has no room.
    pub fn is_marked(&self) -> bool
        ensures { result ≡ is_marked self.now }
    {
        !self.is_live() || self.crew != 0
    }

    // The same circuit, pending.
    pub fn as_pending(self) -> Circuit
        ensures { result ≡ as_pending self }
    {
        Circuit {
            state: RecordState::Pending,
            ..self
        }
    }

    // Whether the circuit is of that colour and its way uses the link.
    pub fn holds(&self, link: u16, colour: u16) -> bool
        ensures { result ≡ holds self.now link colour }
    {
        self.colour == colour && uses(self.way, self.ends(), link)
    }
}
