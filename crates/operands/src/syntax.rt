// The two syntaxes.

// Which syntax an expression is read by: the second has the dot, classes, `+`, `?` and counts.
#[derive(Clone, Copy, Debug, PartialEq, Eq)]
pub enum Syntax {
    First,
    Second,
}
