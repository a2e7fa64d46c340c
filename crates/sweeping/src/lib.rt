// Closing the marks of all pieces, by two sweeps over them.
#![tactic(auto)]

pub mod sweep;
