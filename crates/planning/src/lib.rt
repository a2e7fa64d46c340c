// Makes the rows of a good list.
#![tactic(auto)]

pub mod plan;
