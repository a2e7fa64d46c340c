// Steps of a list of one piece, remembered: a step hangs on the marked leaves and on the byte alone, so that one which
// was made before need not be made again.
ghost use Rattle.std.specs.Prelude.{◌≡◌, ◌≤◌, ◌<◌, length};
ghost use Rattle.tables.specs.Plan.{row_words};
ghost use Rattle.moving.specs.WordsMovedClosed.{WordAfter};
ghost use Rattle.moving.specs.Remembered.{remembered_steps, Remembers};

use crate::moves::moved_closed;
use tables::rows::PieceRow;

// How many steps are remembered.
const REMEMBERED_STEPS: u64 = 64;
// Each takes two words: the first tells the marked leaves and the byte, the second is the word after the step. They lie in
// one array of numbers, which whoever lends it sets to 0 in one go.
pub const MEMO_WORDS: usize = 128;
// How many bytes there are.
const BYTE_COUNT: u64 = 256;
// Marked leaves below this, and a byte, are told by one word.
const KEY_LIMIT: u64 = 72057594037927936;

// The slot of a step. Its bits are folded, so that steps which differ in a few bits seldom share one.
fn slot_of(key: u64) -> usize
    ensures { result < remembered_steps }
{
    let half = key ^ (key >> 21);
    ((half ^ (half >> 7)) % REMEMBERED_STEPS) as usize
}

// The word of the one piece after the byte, from the memo where that has the step; else it is made and remembered.
pub fn remembered_step(
    rows: &[u64],
    classes: &[u8],
    memo: &mut [u64; MEMO_WORDS],
    word: u64,
    byte: u8,
) -> u64
    requires { (row_words ≤ length rows.now) × Remembers rows.now classes.now memo.old }
    ensures word_after { WordAfter rows.now classes.now 0 word byte result }
    ensures remembers { Remembers rows.now classes.now memo.new }
{
    let row = PieceRow { rows, piece: 0 };
    let marked = word & row.word(2);
    if marked >= KEY_LIMIT {
        return moved_closed(row, classes, marked, byte).word;
    }
    let key = marked * BYTE_COUNT + u64::from(byte);
    let slot = 2 * slot_of(key);
    if memo[slot] == key {
        return memo[slot + 1];
    }
    let after = moved_closed(row, classes, marked, byte).word;
    memo[slot] = key;
    memo[slot + 1] = after;
    after
}
