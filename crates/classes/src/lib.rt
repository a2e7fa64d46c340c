// Classes: one is read from its `[` to its `]`, its values are collected, and its record is written.
#![tactic(auto)]

pub mod class;
pub mod members;
pub mod part;
