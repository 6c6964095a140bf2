// The checking program's text: a list with its fate numbers, and the line that says what the check finds.
#![tactic(auto)]

pub mod answers;
pub mod reading;
pub mod verdicts;

pub use answers::answer;
