// The ring book: which circuits are live or pending, by which ways, in which colours, under which serials.
#![tactic(auto)]

pub mod books;
pub mod circuits;
pub mod confirmations;
pub mod crews;
pub mod grants;
pub mod holders;
pub mod orders;
pub mod removals;
pub mod revisions;

pub use books::Book;
pub use circuits::{Circuit, RecordState};
pub use grants::Line;
pub use holders::Holder;
