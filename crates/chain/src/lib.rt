// The chain part of a plan: interval colouring by best fit, optimal among the plans that keep off the seam.
#![tactic(auto)]

pub mod buckets;
pub mod colouring;
pub mod rule;

pub use colouring::colour;
