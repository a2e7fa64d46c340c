// Search over the rows of a list: the earliest start, then the furthest end.
ghost use Rattle.std.specs.Prelude.{ℕ, ◌≤◌, ◌≡◌, ◌↔◌, length, []};
ghost use Rattle.language.specs.Tree.{Tree};
ghost use Rattle.tree.specs.Leaf.{Leaf, Matches};
ghost use Rattle.tree.specs.Limits.{most_pieces};
ghost use Rattle.tables.specs.Tables.{Prepared, Ready, Answered};
ghost use Rattle.moving.specs.Remembered.{Remembers};
ghost use Rattle.matching.specs.Progress.{Furthest, better};
ghost use Rattle.matching.specs.Found.{Answers};
ghost use Rattle.matching.specs.SearchAnswers.{answer_of};

use moving::memo::MEMO_WORDS;
use stepping::inner::{begin_in, copy};
use stepping::memory::advance_by_memo;
use tree::limits::MOST_PIECES;

// A part of a text: its start, and its end, the first byte after it.
#[derive(Clone, Copy, Debug, PartialEq, Eq)]
pub struct Span {
    pub start: usize,
    pub end: usize,
}

// The furthest end so far, after one more answer.
fn with_end(yes: bool, end: usize, best: Option<usize>) -> Option<usize>
    ensures { result ≡ better yes end best }
{
    if yes { Some(end) } else { best }
}

// The furthest end of a part in the language that starts at `start`, from the marks to start with, which are those of
// the empty text: `empty` says whether that is in the language. The words are for the marks on the way, the memo for
// steps of this start and of later ones.
fn furthest_end(
    rows: &[u64],
    count: usize,
    classes: &[u8],
    first: &[u64],
    empty: bool,
    memo: &mut [u64; MEMO_WORDS],
    words: &mut [u64],
    text: &[u8],
    start: usize,
) -> Option<usize>
    requires ready { Ready rows.now count × Remembers rows.now classes.now memo.old }
    requires start_in_bounds { (start ≤ length text.now) × (length first.now ≡ most_pieces)
        × (length words.old ≡ most_pieces) }
    requires answered { (t : Tree Leaf) → Prepared t rows.now count → Answered classes.now t [] first.now empty }
    ensures furthest { (t : Tree Leaf) → Prepared t rows.now count
        → Furthest (Matches classes.now t) text.now start result }
    ensures remembers { Remembers rows.now classes.now memo.new }
{
    copy(first, count, words);
    let mut best = with_end(empty, start, None);
    for end in start..text.len() {
        let told = advance_by_memo(rows, count, classes, memo, words, text[end]);
        best = with_end(told.accepting, end + 1, best);
        if told.nothing {
            return best;
        }
    }
    best
}

// The part that starts earliest and then ends furthest, among the parts in the language of the tree that the rows are
// of. The marks to start with are made once for all places.
pub fn first_part(rows: &[u64], count: usize, classes: &[u8], text: &[u8]) -> Option<Span>
    requires { Ready rows.now count }
    ensures { (t : Tree Leaf) → Prepared t rows.now count
        → Answers (Matches classes.now t) text.now (answer_of result) }
{
    let mut first = [0u64; MOST_PIECES];
    let mut words = [0u64; MOST_PIECES];
    let mut memo = [0u64; MEMO_WORDS];
    let empty = begin_in(rows, count, &mut first);
    for start in 0..=text.len() {
        let found = furthest_end(
            rows, count, classes, &first, empty, &mut memo, &mut words, text, start,
        );
        if let Some(end) = found {
            return Some(Span { start, end });
        }
    }
    None
}
