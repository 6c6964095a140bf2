// The text of the charges: three rates and the lengths of the links, and what each order of a book's file pays.
#![tactic(auto)]

pub mod answers;
pub mod layout;
pub mod reading;

pub use answers::answer;
