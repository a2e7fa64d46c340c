// What the readers of a count find.

// A count: the place after its `}`, and its two numbers.
#[derive(Clone, Copy, Debug, PartialEq, Eq)]
pub struct Count {
    pub next: usize,
    pub fewest: usize,
    pub most: usize,
}

// A number of a count, and the place after it.
#[derive(Clone, Copy)]
pub(crate) struct Number {
    pub value: usize,
    pub next: usize,
}
