// Moving the marks of all pieces along a byte, each piece closed in itself.
#![tactic(auto)]

pub mod classes;
pub mod memo;
pub mod moves;
