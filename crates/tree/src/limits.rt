// The limits, by the names of specs/Limits.antt.

// How many nodes a piece has at most.
pub const MOST_NODES: u16 = 15;
// How many states a piece has at most.
pub const MOST_STATES: usize = 62;
// How many pieces a good list has at most.
pub const MOST_PIECES: usize = 128;
// How many records a good list has at most.
pub const MOST_RECORDS: usize = 1920;
// How many bytes an expression has at most.
pub const LONGEST_EXPRESSION: usize = 1024;
// The largest place in an expression.
pub const MOST_PLACE: usize = 1023;

// How many groups of an expression may be open at once.
pub const MOST_GROUPS: usize = 32;
// How many nodes the tree of an expression has at most.
pub const MOST_LABELS: usize = 2047;
// The slots of the nodes of such a tree, and slot 0.
pub const SLOT_COUNT: usize = 2048;
// The slots of a short list's records, and of a longer one's: lists with fewer records take arrays of these sizes.
pub const FEW_SLOTS: usize = 128;

pub const SOME_SLOTS: usize = 512;
// How many bytes a text has at most.
pub const LONGEST_TEXT: usize = 65536;
