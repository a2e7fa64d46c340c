// Tree records: their layout, the limits and the refusals; and what stands at a place of an expression.
#![tactic(auto)]

pub mod bytes;
pub mod counted;
pub mod layout;
pub mod limits;
pub mod refusal;
