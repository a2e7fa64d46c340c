// What the row of a piece tells of it: how many pieces there are from it on, where it stands in its parent, which state
// is its last, and the byte of each state.
ghost use Rattle.std.specs.Prelude.{◌≡◌, ◌+◌, ◌*◌, ◌/◌, ◌%◌, ◌^◌, ◌≤◌, ◌<◌, length};
ghost use Rattle.tables.specs.Words.{word_bits};
ghost use Rattle.tables.specs.Plan.{row_words, word_of, run_of, stand_of, top_of, byte_of};

use crate::ROW_WORDS;

// Each of the numbers of a row is a byte of a word.
const BYTES: u64 = 256;
// A word has so many of them.
pub const WORD_BYTES: usize = 8;
// How many bits a byte has.
pub const BYTE_BITS: usize = 8;
// The word of a row that has the run, the stand-in and the last state.
pub const NUMBERS: usize = 4;
// The first of the words that have the bytes of the states.
pub const STATES: usize = 5;

// The row of a piece, among those of a list.
#[derive(Clone, Copy)]
pub struct PieceRow<'a> {
    pub rows: &'a [u64],
    pub piece: usize,
    pub ghost inside: { row_words * piece + row_words ≤ length rows.now },
}

impl<'a> PieceRow<'a> {
    // A word of it, by its number in the row.
    pub fn word(self, number: usize) -> u64
        requires { number < row_words }
        ensures { result ≡ word_of self.entry.rows.now self.entry.piece number }
    {
        self.rows[ROW_WORDS * self.piece + number]
    }

    // A byte of a word of it.
    fn byte_of_word(self, number: usize, byte: usize) -> usize
        requires { (number < row_words) × (byte < 8) }
        ensures { result ≡ word_of self.entry.rows.now self.entry.piece number / 2 ^ (8 * byte) % 256 }
    {
        ((self.word(number) >> (BYTE_BITS * byte)) % BYTES) as usize
    }

    // How many pieces the piece and those below it are.
    pub fn run(self) -> usize
        ensures { result ≡ run_of self.entry.rows.now self.entry.piece }
    {
        self.byte_of_word(NUMBERS, 0)
    }

    // The number of its stand-in's start in its parent.
    pub fn stand(self) -> usize
        ensures { result ≡ stand_of self.entry.rows.now self.entry.piece }
    {
        self.byte_of_word(NUMBERS, 1)
    }

    // The number of its last state.
    pub fn top(self) -> usize
        ensures { result ≡ top_of self.entry.rows.now self.entry.piece }
    {
        self.byte_of_word(NUMBERS, 2)
    }

    // The byte of a state.
    pub fn byte(self, state: usize) -> usize
        requires { state < word_bits }
        ensures { result ≡ byte_of self.entry.rows.now self.entry.piece state }
    {
        self.byte_of_word(STATES + state / WORD_BYTES, state % WORD_BYTES)
    }
}
