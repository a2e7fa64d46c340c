// The readers of an operand but for a group, and of the signs after it.
#![tactic(auto)]

pub mod signs;
pub mod single;
