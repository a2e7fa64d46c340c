// Bits of a word, and closing the marks of one piece by passes over its states.
#![tactic(auto)]

pub mod bits;
pub mod close;
