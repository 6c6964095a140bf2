// The planner: the better of the chain part and the pair part, which serves two thirds of what any plan serves.
#![tactic(auto)]

pub mod answers;
pub mod pairs;
pub mod plans;
pub mod spares;

pub use answers::{Part, Summary};
pub use plans::plan;
