// A maximum matching among compatible requests, by a search for blossoms that keeps for each even vertex a whole matching, its row.
#![tactic(auto)]

pub mod blossoms;
pub mod climbs;
pub mod counts;
pub mod labels;
pub mod matchings;
pub mod maxima;
pub mod roots;
pub mod rows;
pub mod searches;
pub mod starts;
pub mod steps;

pub use matchings::Matching;
pub use maxima::maximum;
