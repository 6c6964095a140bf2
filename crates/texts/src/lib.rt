// What all texts are made of: words, numbers and grounds, written into buffers and read from their start on.
#![tactic(auto)]

pub mod fields;
pub mod grounds;
pub mod words;
pub mod writing;
