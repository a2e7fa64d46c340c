// Closing inside one piece, by passes over its states in their order: marks are carried on along states that lead to
// the next one, then the jumps of the states that were newly marked are taken, while there are any.
ghost use Rattle.std.specs.Prelude.{◌≡◌, ◌^◌, ◌≤◌, ◌<◌};
ghost use Rattle.language.specs.Nested.{Nested};
ghost use Rattle.tree.specs.Limits.{most_states};
ghost use Rattle.tree.specs.Leaf.{Leaf};
ghost use Rattle.tables.specs.Words.{width};
ghost use Rattle.tables.specs.Plan.{Closes};
ghost use Rattle.closing.specs.BitsOfWords.Bits.{Tells};
ghost use Rattle.closing.specs.Passes.RunOn.{RanOn};
ghost use Rattle.closing.specs.Passes.Jumping.{Jumped};
ghost use Rattle.closing.specs.Passes.Laid.{Lays};
ghost use Rattle.closing.specs.Passes.Closing.{ClosesAfter};

use crate::bits::{SetBits, with_bit};
use tables::rows::PieceRow;

// A piece has at most 62 states, so no mask of it has a bit at or above this one, and an addition cannot overflow.
const TOP_BIT: u64 = 9223372036854775808;
// How many bits a word has.
const WORD_BITS: usize = 64;

// The word with each mark carried on to the next state, while states lead on. A carry of the addition runs from the
// lowest mark of each run of such states to one state past its end.
fn run_on(word: u64, on: u64) -> u64
    requires { on < 2 ^ 63 }
    ensures { RanOn word on result }
{
    word | (((word & on) + on) ^ on)
}

// The states that the jumps of the given ones lead to.
fn targets(row: PieceRow, from: u64) -> u64
    ensures { Jumped row.entry.rows.now row.entry.piece from 0 result }
{
    let mut reached: u64 = 0;
    for state in SetBits(from) {
        let target = row.byte(state) % WORD_BITS;
        reached = with_bit(reached, target);
    }
    reached
}

// A closed word of a piece, and whether it is zero.
#[derive(Clone, Copy, Debug, PartialEq, Eq)]
pub struct ClosedWord {
    pub word: u64,
    pub zero: bool,
}

// The word of a piece, closed, where the part `done` of it was closed before: of what that part reaches nothing is
// looked at again. Each jump is taken at most once. Says also whether nothing is marked in the closed word.
pub fn close_after(row: PieceRow, word: u64, done: u64) -> ClosedWord
    ensures closes_after { ClosesAfter row.entry.rows.now row.entry.piece word done result.word }
    ensures tells { Tells (result.word ≡ 0) result.zero }
{
    let on = row.word(0) % TOP_BIT;
    let jumps = row.word(1);
    let mut left = jumps ^ (done & jumps);
    let mut closed = run_on(word, on);
    // No walk over a list: which jumps are taken next hangs on what those before have reached.
    while closed & left != 0 {
        let taken = closed & left;
        left ^= taken;
        closed = run_on(closed | targets(row, taken), on);
    }
    ClosedWord {
        word: closed,
        zero: closed == 0,
    }
}

// The word of a piece, closed, and whether nothing is marked in it.
pub fn close(row: PieceRow, word: u64) -> ClosedWord
    ensures closes { (x : Nested Leaf) → width x ≤ most_states → Lays row.entry.rows.now x row.entry.piece
        → word < 2 ^ width x → Closes x word result.word }
    ensures tells { Tells (result.word ≡ 0) result.zero }
{
    close_after(row, word, 0)
}

// Whether nothing is marked in the word of a piece.
pub fn none_marked(word: u64) -> bool
    ensures { Tells (word ≡ 0) result }
{
    word == 0
}
