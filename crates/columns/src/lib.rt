// Which bytes share a column of a table of steps: those that no leaf tells apart.
#![tactic(auto)]

pub mod columns;
mod parting;

// How many bytes there are.
pub const BYTE_COUNT: usize = 256;
