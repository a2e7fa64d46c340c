// Moving along a byte: from each marked start of a leaf that takes that byte to the leaf's accepting state, and from
// there inside the piece.
ghost use Rattle.std.specs.Prelude.{◌≡◌, ℕ, ◌+◌, ◌*◌, ◌^◌, ◌≤◌, ◌<◌, length};
ghost use Rattle.language.specs.Nested.{Nested};
ghost use Rattle.tree.specs.Limits.{most_pieces, most_states};
ghost use Rattle.tree.specs.Leaf.{Leaf, InClass};
ghost use Rattle.tables.specs.Words.{word_bits, Bit, width};
ghost use Rattle.tables.specs.Plan.{row_words, byte_of, class_of, Moves};
ghost use Rattle.closing.specs.BitsOfWords.Bits.{Tells};
ghost use Rattle.closing.specs.Passes.Laid.{Lays};
ghost use Rattle.moving.specs.Picking.{PickedBy};
ghost use Rattle.moving.specs.WordsMovedClosed.{WordAfter, MovedClosed};
ghost use Rattle.moving.specs.Spans.{SpanLonger, SpansOf};

use crate::classes::{class_of, in_class};
use closing::bits::{SetBits, set_where};
use closing::close::{ClosedWord, close};
use tables::rows::PieceRow;

// A piece has at most 62 states, so no class starts at or above this bit, and there is a state after its start.
const TOP_BIT: u64 = 9223372036854775808;

// Whether a state's byte in the piece's row is this one.
fn has_byte(row: PieceRow, state: usize, byte: u8) -> bool
    requires { state < word_bits }
    ensures { Tells (byte_of row.entry.rows.now row.entry.piece state ≡ byte) result }
{
    row.byte(state) == usize::from(byte)
}

// Whether the byte lies in the class that starts at a state.
fn has_class(row: PieceRow, classes: &[u8], state: usize, byte: u8) -> bool
    requires { state + 1 < word_bits }
    ensures { Tells (InClass classes.now (class_of row.entry.rows.now row.entry.piece state) byte) result }
{
    in_class(classes, class_of(row, state), byte)
}

// Of the given states those of which the test says so. The test's answer takes no branch: which leaf takes a byte cannot
// be foreseen.
fn picked<F: Fn(usize) -> bool>(states: u64, takes: F) -> u64
    requires { (i : ℕ) → Bit states i → i < word_bits → F.pre takes i }
    ensures { PickedBy (F.post takes) states 0 result }
{
    let mut picked: u64 = 0;
    for state in SetBits(states) {
        picked = set_where(picked, state, takes(state));
    }
    picked
}

// The word of a piece, moved along the byte: a leaf's start that takes it goes over to the next state. Only starts of
// leaves are looked at.
pub fn moved(row: PieceRow, classes: &[u8], word: u64, byte: u8) -> u64
    ensures { (x : Nested Leaf) → width x ≤ most_states
        → Lays row.entry.rows.now x row.entry.piece → word < 2 ^ width x
        → Moves classes.now x byte word result }
{
    let leaves = word & row.word(2);
    let starts = row.word(3) & leaves;
    let characters = picked(leaves ^ starts, |state| has_byte(row, state, byte));
    let taken = picked(
        starts % TOP_BIT,
        |state| has_class(row, classes, state, byte),
    );
    (characters | taken) << 1
}

// The word of a piece after the byte: moved, and closed in the piece, which also says whether it is zero.
pub fn moved_closed(row: PieceRow, classes: &[u8], word: u64, byte: u8) -> ClosedWord
    ensures word_after { WordAfter row.entry.rows.now classes.now row.entry.piece word byte result.word }
    ensures tells { Tells (result.word ≡ 0) result.zero }
{
    let moved = moved(row, classes, word, byte);
    close(row, moved)
}

// The same, where a word of no marks stays one, and its row is not looked at: most words have none, and that is told
// before anything is called.
fn word_after(row: PieceRow, classes: &[u8], word: u64, byte: u8) -> ClosedWord
    ensures word_after { WordAfter row.entry.rows.now classes.now row.entry.piece word byte result.word }
    ensures tells { Tells (result.word ≡ 0) result.zero }
{
    if word == 0 {
        return ClosedWord {
            word: 0,
            zero: true,
        };
    }
    moved_closed(row, classes, word, byte)
}

// Where marks are: in no word before `from` and in none from `to` on, but in the one before `to`.
#[derive(Clone, Copy, Drop)]
pub struct WordSpan {
    pub from: usize,
    pub to: usize,
}

// The span with one piece more, of whose closed word it is known whether it is zero. Where nothing is marked there is none.
fn widened(span: Option<WordSpan>, piece: usize, closed: ClosedWord) -> Option<WordSpan>
    requires piece_in_bounds { piece < most_pieces }
    requires told { Tells (closed.word ≡ 0) closed.zero }
    ensures { SpanLonger span piece closed.word result }
{
    if closed.zero {
        return span;
    }
    Some(WordSpan {
        from: span.map_or(piece, |before| before.from),
        to: piece + 1,
    })
}

// Moves the words of all pieces along the byte, and closes each piece in itself. Answers where marks are left, as the
// closing of each piece says whether its word has any.
pub fn move_all(
    rows: &[u64],
    classes: &[u8],
    words: &mut [u64],
    byte: u8,
    pieces: usize,
) -> Option<WordSpan>
    requires { (row_words * pieces ≤ length rows.now) × (pieces ≤ length words.old)
        × (pieces ≤ most_pieces) }
    ensures moved_closed { MovedClosed rows.now classes.now words.old words.new
        byte pieces }
    ensures spans { SpansOf words.new pieces result }
{
    let mut span = None;
    for piece in 0..pieces {
        let row = PieceRow { rows, piece };
        let after = word_after(row, classes, words[piece], byte);
        words[piece] = after.word;
        span = widened(span, piece, after);
    }
    span
}
