// Reads a count `{m,n}`.
#![tactic(auto)]

pub mod count;
pub mod part;
