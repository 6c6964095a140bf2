// Charges: what an order pays for the metres of its way, and what a book's live orders pay together.
#![tactic(auto)]

pub mod charges;
pub mod lengths;
pub mod limits;
pub mod rates;

pub use charges::{book_charge, charge};
