// Removing a circuit: its record stays, pending.
ghost use Rattle.std.specs.Prelude.{◌≡◌};
ghost use Rattle.book.specs.Removals.{removed};

use super::books::Book;
use ring::Refusal;

impl Book {
    // The order of the serial becomes pending, or refusal 14 or 15 leaves the book as it is.
    pub fn remove(&mut self, serial: u16) -> Result<(), Refusal>
        ensures { removed self.old serial ≡ record { answer = result; book = self.new } }
    {
        let Some((place, circuit)) = self.look_up_live(serial) else {
            return Err(self.unknown_or(serial, Refusal::SerialRemoved));
        };
        self.places[place] = circuit.as_pending();
        Ok(())
    }
}
