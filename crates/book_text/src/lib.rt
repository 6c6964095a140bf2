// The book's commands: what a line does by what the file holds, and what answers it.
#![tactic(auto)]

pub mod answers;
pub mod obeying;

pub use obeying::{need_of_line, obey};
