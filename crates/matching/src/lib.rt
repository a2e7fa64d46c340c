// Whole-text match and search over the rows of a list.
#![tactic(auto)]

pub mod part;
pub mod text;
