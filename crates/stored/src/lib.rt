// The stored forms of a ring book: store, load, and the conversions between them.
#![tactic(auto)]

pub mod blocks;
pub mod conversions;
pub mod forms;
pub mod lengths;
pub mod loads;
pub mod readers;
pub mod stores;
pub mod validity;
pub mod words;

pub use forms::Form;
pub use loads::{load, load_either, load_old, loaded};
pub use stores::{store, store_old};
