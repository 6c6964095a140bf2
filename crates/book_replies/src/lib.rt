// What the desk is told, and the text of it.
#![tactic(auto)]

pub mod replies;

pub use replies::Reply;
