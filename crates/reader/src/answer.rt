// What reading an expression of the first syntax answers.

// How many records were written, and how many pieces they have.
#[derive(Clone, Copy, Debug, PartialEq, Eq)]
pub struct Read {
    pub records: usize,
    pub pieces: usize,
}
