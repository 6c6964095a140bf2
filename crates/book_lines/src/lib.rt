// What a line that is typed at the desk says.
#![tactic(auto)]

pub mod asking;
pub mod lines;
pub mod numbers;
pub mod spaces;

pub use lines::{Aside, Command};
