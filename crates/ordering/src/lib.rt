// Whether labels are those of one tree.
#![tactic(auto)]

pub mod order;
