// Measures a tree by its labels: which edges are cut below each node, and how many pieces there are.
#![tactic(auto)]

pub mod measure;
