// The line of a record: its number, its piece and its place, and the node, set in as deep as it lies.
#![tactic(auto)]

pub mod line;
pub mod node;
