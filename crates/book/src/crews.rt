// Crews: contractors who read their own orders, and the desk, crew 0, which reads all.
ghost use Rattle.std.specs.Prelude.{◌≡◌};
ghost use Rattle.book.specs.Crews.{crew_verdict, is_own};

use super::circuits::Circuit;
use ring::Refusal;
use ring::refusals::refuse_if;

// 26, for a crew above 999.
pub fn crew_verdict(crew: u16) -> Result<(), Refusal>
    ensures { result ≡ crew_verdict crew }
{
    refuse_if(999 < crew, Refusal::CrewNumber)
}

impl Circuit {
    // Whether the circuit is live and the crew's own.
    pub fn is_own(&self, crew: u16) -> bool
        ensures { result ≡ is_own crew self.now }
    {
        self.is_live() && self.crew == crew
    }
}
