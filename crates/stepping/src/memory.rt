// Steps over the rows of a list, with a memo: those of a list of one piece are remembered.
ghost use Rattle.std.specs.Prelude.{ℕ, ◌≡◌};
ghost use Rattle.language.specs.Tree.{Tree};
ghost use Rattle.tree.specs.Leaf.{Leaf};
ghost use Rattle.tables.specs.Tables.{Prepared};
ghost use Rattle.moving.specs.Remembered.{Remembers};
ghost use Rattle.stepping.specs.Hold.{MarksOf};
ghost use Rattle.stepping.specs.Inner.{Running, Advanced};

use crate::inner::{Told, advance};
use closing::bits::has_bit;
use closing::close::none_marked;
use moving::memo::{MEMO_WORDS, remembered_step};
use tables::rows::PieceRow;

// A step of a list of one piece: the move has closed the piece, so that nothing is left to do.
fn advance_alone(
    rows: &[u64],
    classes: &[u8],
    memo: &mut [u64; MEMO_WORDS],
    words: &mut [u64],
    byte: u8,
) -> Told
    requires running { Running rows.now 1 words.old }
    requires remembers { Remembers rows.now classes.now memo.old }
    ensures advanced { (t : Tree Leaf) → Prepared t rows.now 1 → MarksOf t words.old
        → Advanced classes.now t byte words.old words.new result.accepting
        result.nothing }
    ensures remembers_2 { Remembers rows.now classes.now memo.new }
{
    let after = remembered_step(rows, classes, memo, words[0], byte);
    words[0] = after;
    let root = PieceRow { rows, piece: 0 };
    Told {
        accepting: has_bit(after, root.top()),
        nothing: none_marked(after),
    }
}

// Moves the marks along the byte and closes, as `advance` does: by the memo where the list has one piece.
pub fn advance_by_memo(
    rows: &[u64],
    count: usize,
    classes: &[u8],
    memo: &mut [u64; MEMO_WORDS],
    words: &mut [u64],
    byte: u8,
) -> Told
    requires running { Running rows.now count words.old }
    requires remembers { Remembers rows.now classes.now memo.old }
    ensures advanced { (t : Tree Leaf) → Prepared t rows.now count → MarksOf t words.old
        → Advanced classes.now t byte words.old words.new result.accepting
        result.nothing }
    ensures remembers_2 { Remembers rows.now classes.now memo.new }
{
    if count == 1 {
        return advance_alone(rows, classes, memo, words, byte);
    }
    advance(rows, count, classes, words, byte)
}
