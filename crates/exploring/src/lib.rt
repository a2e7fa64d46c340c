// The states of a table of steps, found one after the other in lent room.
#![tactic(auto)]

pub mod explore;
mod keys;
mod layout;
mod room;
