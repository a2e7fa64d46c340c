// Start and step in rows that are made once, and the check of shared states: what lies below the calls on a list.
#![tactic(auto)]

pub mod agree;
pub mod inner;
pub mod memory;
