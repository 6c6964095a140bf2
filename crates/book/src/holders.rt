// The holder of a colour on a link.
ghost use Rattle.std.specs.Prelude.{◌≡◌, position};
ghost use Rattle.book.specs.Circuits.{holds};
ghost use Rattle.book.specs.Holders.{told_to, held_for};

use super::books::Book;
use super::circuits::Circuit;
use super::crews::crew_verdict;
use ring::Refusal;
use ring::refusals::refuse_if;

// Held without the serial is what a crew learns of an order that is not its own, or not live.
#[derive(Clone, Copy, Debug, PartialEq, Eq)]
pub enum Holder {
    Free,
    Held,
    HeldBy(u16),
}

// The place of the first circuit that holds the colour on the link.
fn holder_place(circuits: &[Circuit], link: u16, colour: u16) -> Option<usize>
    ensures { result ≡ position (λ c. holds c link colour) circuits.now }
{
    circuits
        .iter()
        .position(|circuit| circuit.holds(link, colour))
}

impl Circuit {
    // What a crew learns of the circuit that holds a colour.
    fn told_to(&self, crew: u16) -> Holder
        ensures { result ≡ told_to crew self.now }
    {
        if crew == 0 || self.is_own(crew) {
            Holder::HeldBy(self.serial)
        } else {
            Holder::Held
        }
    }
}

impl Book {
    // Who holds a colour on a link, as far as the crew may know, or refusal 26, 16 or 10.
    pub fn holder(&self, link: u16, colour: u16, crew: u16) -> Result<Holder, Refusal>
        ensures { result ≡ held_for crew self.now link colour }
    {
        crew_verdict(crew)?;
        refuse_if(self.n <= link, Refusal::LinkNumber)?;
        refuse_if(self.w <= colour, Refusal::ColourNumber)?;
        let Some(place) = holder_place(self.records(), link, colour) else {
            return Ok(Holder::Free);
        };
        Ok(self.places[place].told_to(crew))
    }
}
