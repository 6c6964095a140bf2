// Bundles of grants, and what they would come to.
#![tactic(auto)]

pub mod bundles;
pub mod previews;

pub use bundles::{Bundle, Line};
pub use previews::{Previewed, preview};
