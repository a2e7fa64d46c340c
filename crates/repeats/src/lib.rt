// The signs `+`, `?` and `{m,n}`: the labels of an operand are copied as the sign says.
#![tactic(auto)]

pub mod copies;
mod note;
pub mod notes;
