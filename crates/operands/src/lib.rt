// What an expression is, and the reader of one character. Each reader of a part of an expression notes the nodes of its
// tree and answers the place after it, or the refusal.
#![tactic(auto)]

pub mod character;
pub mod syntax;
