// The lengths of the links, and the metres along a way.
ghost use Rattle.std.specs.Prelude.{◌≡◌, false, IfOk};
ghost use Rattle.std.specs.Result.{result_and};
ghost use Rattle.charges.specs.Lengths.{some_outside, lengths_verdict};
ghost use Rattle.charges.specs.Internal.Distances.{AddedUp, up_to, metres_by};

use super::limits::some_outside;
use ring::{Refusal, Request, Way};

// The metres from node 0 up to each node, so that those of any way are a difference of two. Past the last link all entries are the length
// of the ring.
#[derive(Drop)]
pub struct Distances(pub [u32; 257]);

impl Distances {
    // The distances of the lengths of n links, or 29, for any number of lengths but n, or a length not 1 to 1,000,000.
    #[tactic(auto, unfolding(crate::specs::Lengths::lengths_verdict))]
    pub fn new(n: u16, lengths: &[u32]) -> Result<Distances, Refusal>
        ensures ground { result_and result (Ok tt) ≡ lengths_verdict n lengths.now }
        ensures given { IfOk result (λ d. AddedUp lengths.now d.0) }
    {
        if lengths.len() != usize::from(n) || some_outside(lengths, 1, 1000000) {
            return Err(Refusal::LinkLengths);
        }
        Ok(Distances::add_up(lengths))
    }

    // The distances of lengths, however many there are: those of the first 256 are added up.
    pub fn add_up(lengths: &[u32]) -> Distances
        requires { some_outside 1 1000000 lengths.now ≡ false }
        ensures { AddedUp lengths.now result.0 }
    {
        let mut entries = [0u32; 257];
        let mut metres: u32 = 0;
        for i in 0..256 {
            metres += lengths.get(i).copied().unwrap_or(0);
            entries[i + 1] = metres;
        }
        Distances(entries)
    }

    // The metres up to a node; one that no ring has gets the last entry.
    fn up_to(&self, node: u16) -> u32
        ensures { result ≡ up_to self.now.0 node }
    {
        self.0[usize::from(node).min(256)]
    }

    // The metres along a way.
    #[tactic(auto, unfolding(crate::specs::Internal::Distances::metres_by))]
    pub fn metres(&self, way: Way, request: Request) -> u32
        ensures { result ≡ metres_by way request self.now.0 }
    {
        let between = self.up_to(request.b).saturating_sub(self.up_to(request.a));
        match way {
            Way::Plain => between,
            Way::Seam => self.up_to(256).saturating_sub(between),
        }
    }
}
