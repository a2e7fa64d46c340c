// The cut at one node of a tree, and the slots of its children.
#![tactic(auto)]

pub mod cut;
pub mod slots;
