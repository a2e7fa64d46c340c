// The lines that are printed for the lines of an input.
#![tactic(auto)]

pub mod print;
pub mod report;
