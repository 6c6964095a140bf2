// Confirming the pull of a removed circuit: its place and its colour are free.
ghost use Rattle.std.specs.Prelude.{◌≡◌, ◌<◌, length};
ghost use Rattle.book.specs.Books.{records_of};
ghost use Rattle.book.specs.Confirmations.{without_circuit, confirmed};

use super::books::Book;
use super::circuits::Circuit;
use ring::Refusal;

impl Book {
    // Takes the record at a place out: the later ones move down by one, and the last place falls vacant.
    fn close_gap(&mut self, place: usize)
        requires { place < length (records_of self.old) }
        ensures { self.new ≡ without_circuit place self.old }
    {
        let count = self.record_count();
        self.places.copy_within(place + 1..count, place);
        self.places[count - 1] = Circuit::vacant();
        self.records = (count - 1) as u16;
    }

    // The record of the serial goes, or refusal 14, 23 or 24 leaves the book as it is.
    #[tactic(auto, unfolding(crate::specs::Confirmations::confirmed, crate::specs::Confirmations::absent))]
    pub fn confirm(&mut self, serial: u16) -> Result<(), Refusal>
        ensures { confirmed self.old serial ≡ record { answer = result; book = self.new } }
    {
        let Some((place, circuit)) = self.look_up(serial) else {
            return Err(self.unknown_or(serial, Refusal::SerialConfirmed));
        };
        if circuit.is_live() {
            return Err(Refusal::SerialLive);
        }
        self.close_gap(place);
        Ok(())
    }
}
