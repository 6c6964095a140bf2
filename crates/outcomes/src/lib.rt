// What operations come to, in numbers: results, and values in slices that a caller lends.
#![tactic(auto)]

pub mod changes;
pub mod charging;
pub mod previews;
pub mod questions;
pub mod values;
