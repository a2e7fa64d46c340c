// The rows of a good list, made once before any byte is read: one of 13 words for each piece, which says of its states
// where their empty transitions lead and which leaves start there, and where the piece stands.
#![tactic(auto)]

pub mod fill;
pub mod rows;

// The codes of one piece are made in so many entries: one for each bit of a word.
pub const ROW_SIZE: usize = 64;
// How many words the row of a piece has.
pub const ROW_WORDS: usize = 13;
// How many words the rows have for as many pieces as a good list may have.
pub const TABLE_WORDS: usize = 1664;
