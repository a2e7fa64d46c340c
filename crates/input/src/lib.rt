// The lines of an input.
#![tactic(auto)]

pub mod line;
