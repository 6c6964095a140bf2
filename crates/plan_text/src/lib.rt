// The planning program's text: reading and printing.
#![tactic(auto)]

pub mod answers;
pub mod layout;
pub mod reading;

pub use answers::answer;
