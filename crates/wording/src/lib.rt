// A refusal in words, and its line.
#![tactic(auto)]

pub mod words;
