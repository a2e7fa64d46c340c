// The row of a piece, made once of the codes of its states: the masks, the numbers of the piece, a byte for each state.
#![tactic(auto)]

pub mod bytes;
pub mod masks;
pub mod pack;
