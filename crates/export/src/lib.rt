// The product as a static library with a C interface, on numbers and slices only.
#![tactic(auto)]

pub mod calls;
pub mod changes;
pub mod charging;
pub mod files;
pub mod questions;
