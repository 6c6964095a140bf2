// A ring: how many nodes it has and in how many colours its circuits run.
ghost use Rattle.std.specs.Prelude.{◌≡◌};
ghost use Rattle.ring.specs.Admission.{ring_answer};

use super::refusals::{Refusal, refuse_if};

#[derive(Clone, Copy, Debug, PartialEq, Eq)]
pub struct Ring {
    pub nodes: u16,
    pub colours: u16,
}

impl Ring {
    pub const MIN_NODES: u16 = 3;

    pub const MAX_NODES: u16 = 256;

    pub const MIN_COLOURS: u16 = 1;

    pub const MAX_COLOURS: u16 = 128;

    pub const MAX_REQUESTS: usize = 512;

    // The ring of n nodes and w colours, or refusal 1 or 2.
    pub fn new(n: u16, w: u16) -> Result<Ring, Refusal>
        ensures { result ≡ ring_answer n w }
    {
        refuse_if(
            n < Self::MIN_NODES || Self::MAX_NODES < n,
            Refusal::NodeCount,
        )?;
        refuse_if(
            w < Self::MIN_COLOURS || Self::MAX_COLOURS < w,
            Refusal::ColourCount,
        )?;
        Ok(Ring {
            nodes: n,
            colours: w,
        })
    }
}
