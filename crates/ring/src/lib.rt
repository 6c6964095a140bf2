// The vocabulary of the ring planner and the ring book: rings, requests, ways, fates, refusals.
#![tactic(auto)]

pub mod buffers;
pub mod fates;
pub mod refusals;
pub mod requests;
pub mod rings;
pub mod tables;
pub mod ways;

pub use fates::Fate;
pub use refusals::Refusal;
pub use requests::Request;
pub use rings::Ring;
pub use ways::Way;
