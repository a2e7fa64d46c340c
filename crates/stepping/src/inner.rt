// The layer inside, for those who run many bytes or many texts over one list: its rows are made once.
ghost use Rattle.std.specs.Prelude.{ℕ, ◌≤◌, ◌<◌, ◌≡◌, List, ◌++◌, length, take, drop, replicate, Some};
ghost use Rattle.language.specs.Tree.{Tree};
ghost use Rattle.tree.specs.Limits.{most_pieces};
ghost use Rattle.tree.specs.Leaf.{Leaf};
ghost use Rattle.tree.specs.Records.{Good};
ghost use Rattle.tables.specs.Tables.{Prepared, Roomy, Ready};
ghost use Rattle.closing.specs.BitsOfWords.Bits.{Tells};
ghost use Rattle.closing.specs.BitsOfWords.Zero.{AllZero};
ghost use Rattle.planning.specs.Given.{DecidedGood};
ghost use Rattle.moving.specs.Spans.{SpansOf};
ghost use Rattle.sweeping.specs.Twice.{Closable};
ghost use Rattle.stepping.specs.Hold.{MarksOf};
ghost use Rattle.stepping.specs.Inner.{Running, Begun, ClosedMoved, Advanced};

use closing::bits::has_bit;
use moving::moves::{WordSpan, move_all};
use planning::plan::plan;
use sweeping::sweep::close_twice;
use tables::rows::PieceRow;
use tree::limits::MOST_PIECES;

// Lists of so few pieces take few rows, of so many words.
pub const FEW_PIECES: usize = 16;

pub const FEW_WORDS: usize = 208;
// Those of more pieces, up to so many, take half the largest number.
pub const SOME_PIECES: usize = 64;

pub const SOME_WORDS: usize = 832;

// Makes the rows of a good list of `count` pieces, with the pieces below each record's node as deciding on the list
// has left them.
pub fn prepare(list: &[u8], cuts: &[u16], count: usize, rows: &mut [u64])
    requires decided_good { DecidedGood list.now cuts.now count }
    requires roomy { Roomy count rows.old }
    ensures roomy_2 { Roomy count rows.new }
    ensures prepared { (t : Tree Leaf) → Good list.now t → Prepared t rows.new count }
{
    plan(list, cuts, count, rows);
}

// Puts the first `count` words of one slice in the place of those of another. A search does so at each start, mostly for
// one word: the library's copy of a slice calls for each.
pub fn copy(from: &[u64], count: usize, to: &mut [u64])
    requires { (count ≤ length from.now) × (count ≤ length to.old) }
    ensures { to.new ≡ take count from.now ++ drop count to.old }
{
    for i in 0..count {
        to[i] = from[i];
    }
}

// What is told of the marks: whether the root's accepting state is among them, and whether nothing is left. Two flags,
// as a caller in C is given them.
#[derive(Drop)]
pub struct Told {
    pub accepting: bool,
    pub nothing: bool,
}

// Rows and their count go side by side here and above: a ghost field takes a proposition, and `Ready` holds a tree.

// Marks the root's start alone in 128 words of zero and closes, which is the same by all class records. Answers whether
// the root's accepting state is now marked.
pub fn begin_in(rows: &[u64], count: usize, words: &mut [u64]) -> bool
    requires ready { Ready rows.now count }
    requires words_value { words.old ≡ replicate most_pieces 0 }
    ensures { (classes : List ℕ) (t : Tree Leaf) → Prepared t rows.now count
        → Begun classes t words.old words.new result }
{
    words[0] = 1;
    close_twice(rows, count, 0, 0, words);
    let root = PieceRow { rows, piece: 0 };
    has_bit(words[0], root.top())
}

// The same in lent words, of which one for each piece is written, whatever they hold.
pub fn begin(rows: &[u64], count: usize, words: &mut [u64]) -> bool
    requires ready { Ready rows.now count }
    requires count_in_bounds { count ≤ length words.old }
    ensures { (classes : List ℕ) (t : Tree Leaf) → Prepared t rows.now count
        → Begun classes t words.old words.new result }
{
    let mut marks = [0u64; MOST_PIECES];
    let accepting = begin_in(rows, count, &mut marks);
    words[..count].copy_from_slice(&marks[..count]);
    accepting
}

// Closes the words that were moved, where marks are left in the given span. The move has closed each piece in
// itself, so that nothing is left to do for a single piece. Answers whether nothing is marked.
fn close_moved(rows: &[u64], count: usize, span: WordSpan, words: &mut [u64]) -> bool
    requires closable { Closable rows.now count span.from span.to words.old }
    requires spans { SpansOf words.old count (Some span) }
    ensures closed_moved { ClosedMoved rows.now count words.old words.new }
    ensures tells { Tells (AllZero count words.new) result }
{
    if count == 1 {
        return false;
    }
    close_twice(rows, count, span.from, span.to, words)
}

// Moves the marks along the byte and closes. Where nothing is left after the move, there is nothing to close. Answers
// whether the root's accepting state is now marked, and whether nothing is left.
pub fn advance(rows: &[u64], count: usize, classes: &[u8], words: &mut [u64], byte: u8) -> Told
    requires { Running rows.now count words.old }
    ensures { (t : Tree Leaf) → Prepared t rows.now count → MarksOf t words.old
        → Advanced classes.now t byte words.old words.new result.accepting
        result.nothing }
{
    let Some(span) = move_all(rows, classes, words, byte, count) else {
        return Told {
            accepting: false,
            nothing: true,
        };
    };
    let nothing = close_moved(rows, count, span, words);
    let root = PieceRow { rows, piece: 0 };
    Told {
        accepting: has_bit(words[0], root.top()),
        nothing,
    }
}
