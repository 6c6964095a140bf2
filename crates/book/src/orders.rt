// Looking an order up and showing it.
ghost use Rattle.std.specs.Prelude.{◌≡◌, cond};
ghost use Rattle.book.specs.Books.{records_of};
ghost use Rattle.book.specs.Orders.{never_given, lookup_in, lookup, live_found, shown, own_shown, shown_to};

use super::books::Book;
use super::circuits::Circuit;
use super::crews::crew_verdict;
use ring::Refusal;

impl Book {
    // Whether the serial is 0 or was never given.
    #[tactic(auto, unfolding(crate::specs::Orders::never_given))]
    pub fn never_gave(&self, serial: u16) -> bool
        ensures { result ≡ never_given self.now.grants serial }
    {
        serial == 0 || self.grants < serial
    }

    // 14 for a serial that was never given, the other ground for one that was.
    pub fn unknown_or(&self, serial: u16, given: Refusal) -> Refusal
        ensures { result ≡ cond (never_given self.now.grants serial) Refusal.SerialNeverGiven given }
    {
        if self.never_gave(serial) {
            Refusal::SerialNeverGiven
        } else {
            given
        }
    }

    // The first record of that serial, behind its place.
    fn find(&self, serial: u16) -> Option<(usize, Circuit)>
        ensures { result ≡ lookup_in 0 (records_of self.now) serial }
    {
        let place = self
            .records()
            .iter()
            .position(|circuit| circuit.serial == serial)?;
        Some((place, self.places[place]))
    }

    // The record of a serial, live or pending, behind its place.
    pub fn look_up(&self, serial: u16) -> Option<(usize, Circuit)>
        ensures { result ≡ lookup self.now serial }
    {
        if self.never_gave(serial) {
            return None;
        }
        self.find(serial)
    }

    // The same, if it is live.
    pub fn look_up_live(&self, serial: u16) -> Option<(usize, Circuit)>
        ensures { result ≡ live_found (lookup self.now serial) }
    {
        self.look_up(serial)
            .filter(|(_, circuit)| circuit.is_live())
    }

    // What the desk reads: the circuit of a live order, or refusal 14 or 15.
    fn show_all(&self, serial: u16) -> Result<Circuit, Refusal>
        ensures { result ≡ shown self.now serial }
    {
        let Some((_, circuit)) = self.look_up_live(serial) else {
            return Err(self.unknown_or(serial, Refusal::SerialRemoved));
        };
        Ok(circuit)
    }

    // What another crew reads: the circuit of a live order of its own, or refusal 14.
    fn show_own(&self, serial: u16, crew: u16) -> Result<Circuit, Refusal>
        ensures { result ≡ own_shown crew self.now serial }
    {
        let Some((_, circuit)) = self.look_up(serial) else {
            return Err(Refusal::SerialNeverGiven);
        };
        if circuit.is_own(crew) {
            Ok(circuit)
        } else {
            Err(Refusal::SerialNeverGiven)
        }
    }

    // The circuit of an order that the crew may read, or refusal 26, 14 or 15.
    #[tactic(auto, unfolding(crate::specs::Orders::shown_to))]
    pub fn show(&self, serial: u16, crew: u16) -> Result<Circuit, Refusal>
        ensures { result ≡ shown_to crew self.now serial }
    {
        crew_verdict(crew)?;
        if crew == 0 {
            self.show_all(serial)
        } else {
            self.show_own(serial, crew)
        }
    }
}
