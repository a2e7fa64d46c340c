// How much an expression or its list has, and how much a text that is answered line by line.

// How many records it has, how many pieces, and how many class leaves.
#[derive(Clone, Copy, Debug, PartialEq, Eq)]
pub struct Counts {
    pub records: usize,
    pub pieces: usize,
    pub classes: usize,
}

// How many lines a text has, and how many of them are answered yes.
#[derive(Clone, Copy, Debug, PartialEq, Eq)]
pub struct LineCounts {
    pub lines: usize,
    pub yes: usize,
}
