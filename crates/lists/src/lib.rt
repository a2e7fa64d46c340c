// The list of a tree, made from its labels: the piece of each record, and the records.
#![tactic(auto)]

pub mod hand;
pub mod write;
