// Granting a circuit.
ghost use Rattle.std.specs.Prelude.{◌≡◌, IfErr};
ghost use Rattle.ring.specs.Requests.{request_of};
ghost use Rattle.book.specs.Books.{records_of};
ghost use Rattle.book.specs.Grants.{way_of, circuit_of, argument_verdict, room_verdict, GrantPromise};
ghost use Rattle.book.specs.Internal.Conflicts.{conflicts, conflict_in, verdict_by_ends};

use super::books::Book;
use super::circuits::{Circuit, RecordState};
use super::crews::crew_verdict;
use ring::refusals::refuse_if;
use ring::requests::ends_verdict;
use ring::ways::ways_share;
use ring::{Refusal, Request, Way};

// A grant that is asked for: two ends in any order, the way (0 plain, 1 seam), the colour, the crew.
#[derive(Clone, Copy)]
pub struct Line {
    pub x: u16,
    pub y: u16,
    pub way: u16,
    pub colour: u16,
    pub crew: u16,
}

impl Line {
    // The two ends.
    fn request(self) -> Request
        ensures { result ≡ request_of self.x self.y }
    {
        Request::new(self.x, self.y)
    }

    // The way round the ring.
    fn route(self) -> Way
        ensures { result ≡ way_of self.way }
    {
        if self.way == 0 { Way::Plain } else { Way::Seam }
    }

    // The first of the grounds 4, 5, 9, 10 and 26 that is there, on n nodes with w colours.
    #[tactic(auto, unfolding(crate::specs::Grants::argument_verdict))]
    fn verdict(self, n: u16, w: u16) -> Result<(), Refusal>
        ensures { result ≡ argument_verdict n w self.x self.y self.way self.colour self.crew }
    {
        ends_verdict(
            n,
            self.x,
            self.y,
            Refusal::CircuitEnd,
            Refusal::CircuitEndsEqual,
        )?;
        refuse_if(1 < self.way, Refusal::WayNumber)?;
        refuse_if(w <= self.colour, Refusal::ColourNumber)?;
        crew_verdict(self.crew)
    }

    // The circuit that it asks for.
    fn circuit(self, serial: u16) -> Circuit
        ensures { result ≡ circuit_of serial self.x self.y self.way self.colour self.crew }
    {
        let request = self.request();
        Circuit {
            serial,
            a: request.a,
            b: request.b,
            way: self.route(),
            state: RecordState::Live,
            colour: self.colour,
            crew: self.crew,
        }
    }
}

impl Circuit {
    // Whether the circuit is of that colour and its way shares a link with the way of the request.
    fn conflicts(&self, way: Way, request: Request, colour: u16) -> bool
        ensures { result ≡ conflicts self.now way request colour }
    {
        self.colour == colour && ways_share(way, request, self.way, self.ends())
    }
}

impl Book {
    // Whether some record, live or pending, conflicts with the way of the request in that colour.
    fn colour_held(&self, way: Way, request: Request, colour: u16) -> bool
        ensures { result ≡ conflict_in (records_of self.now) way request colour }
    {
        self.records()
            .iter()
            .any(|circuit| circuit.conflicts(way, request, colour))
    }

    // 12 or 13, if there is no place or no serial for one circuit more.
    fn room_verdict(&self) -> Result<(), Refusal>
        ensures { result ≡ room_verdict self.now.records self.now.grants }
    {
        refuse_if(512 <= self.records, Refusal::BookFull)?;
        refuse_if(65535 <= self.grants, Refusal::SerialsUsedUp)
    }

    // The first of the grounds 4, 5, 9, 10, 26 and 11 to 13 that is there, 11 by comparing ends.
    #[tactic(auto, unfolding(crate::specs::Internal::Conflicts::verdict_by_ends))]
    fn grant_verdict(&self, line: Line) -> Result<(), Refusal>
        ensures { result ≡ verdict_by_ends self.now line.x line.y line.way line.colour line.crew }
    {
        line.verdict(self.n, self.w)?;
        let held = self.colour_held(line.route(), line.request(), line.colour);
        refuse_if(held, Refusal::ColourHeld)?;
        self.room_verdict()
    }

    // The serial of a new circuit, or a refusal that leaves the book as it is.
    pub fn grant(&mut self, line: Line) -> Result<u16, Refusal>
        ensures promise { GrantPromise self.old line.x line.y line.way line.colour line.crew (record { answer = result; book = self.new }) }
        ensures kept { IfErr result (λ _. self.new ≡ self.old) }
    {
        self.grant_verdict(line)?;
        let serial = self.grants + 1;
        let place = usize::from(self.records);
        self.places[place] = line.circuit(serial);
        self.records += 1;
        self.grants = serial;
        Ok(serial)
    }
}
