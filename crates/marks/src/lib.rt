// Marks in words: start and step, by moves and sweeps over the pieces of a good list.
#![tactic(auto)]

mod along;
pub mod numbers;

ghost use Rattle.std.specs.Prelude.{◌*◌, ◌/◌, ◌≤◌, ◌<◌, List, ℕ, length};
ghost use Rattle.language.specs.Tree.{Tree};
ghost use Rattle.tree.specs.Limits.{most_pieces};
ghost use Rattle.tree.specs.Leaf.{Leaf};
ghost use Rattle.tree.specs.Records.{Good, piece_count};
ghost use Rattle.tables.specs.Plan.{row_words};
ghost use Rattle.tables.specs.Tables.{Prepared, Ready};
ghost use Rattle.marks.specs.Answer.{marks_numbers};
ghost use Rattle.marks.specs.Promise.{Classed, Starts, Steps};
ghost use Rattle.marks.specs.StepsEach.{StepsEach};
ghost use Rattle.marks.specs.Works.{Works};

use along::advance_along;
use preparing::prepare_for;
use stepping::agree::agreeing;
use stepping::inner::{FEW_WORDS, SOME_WORDS, Told, begin};
use tables::TABLE_WORDS;
use tree::layout::RECORD_SIZE;
use tree::limits::{FEW_SLOTS, SOME_SLOTS};
use tree::refusal::Refusal;

// What is to be done with the marks in the lent words.
#[derive(Clone, Copy, Drop)]
enum Work<'a> {
    // To mark the root's start.
    Start,
    // To step along each of the bytes.
    Steps(&'a [u8]),
}

// Starts, or steps along each byte, in the rows of a list of so many pieces: refuses too few words, and words to step
// from that are no marks.
fn mark_by(
    rows: &[u64],
    pieces: usize,
    classes: &[u8],
    words: &mut [u64],
    work: Work,
) -> Result<Told, Refusal>
    requires { Ready rows.now pieces }
    ensures { (list : List ℕ) (t : Tree Leaf) → Prepared t rows.now pieces → Good list t → Classed classes.now t
        → Works list classes.now words.old words.new work.entry (marks_numbers result) }
{
    if words.len() < pieces {
        return Err(Refusal::TooFewWords);
    }
    let Work::Steps(bytes) = work else {
        return Ok(Told {
            accepting: begin(rows, pieces, words),
            nothing: false,
        });
    };
    if !agreeing(rows, words, pieces) {
        return Err(Refusal::WordsNotMarks);
    }
    Ok(advance_along(rows, pieces, classes, words, bytes))
}

// In so many words for the list's rows, of its own: refuses a list that is not good, and class leaves with no record.
fn mark_in_rows<const WORDS: usize>(
    list: &[u8],
    classes: &[u8],
    slots: usize,
    words: &mut [u64],
    work: Work,
) -> Result<Told, Refusal>
    requires le_slots { 1 ≤ slots }
    requires room { (t : Tree Leaf) → Good list.now t → row_words * piece_count t ≤ WORDS }
    requires words_few { WORDS ≤ row_words * most_pieces }
    ensures { Works list.now classes.now words.old words.new work.entry (marks_numbers result) }
{
    let mut rows = [0u64; WORDS];
    let counts = prepare_for(list, classes, slots, &mut rows)?;
    mark_by(&rows, counts.pieces, classes, words, work)
}

// In the fewest rows that are enough, by the number of the records: most of what a short list costs is setting arrays
// to 0. It calls itself with more slots, so that each size has a stack frame of its own.
fn mark(
    list: &[u8],
    classes: &[u8],
    slots: usize,
    words: &mut [u64],
    work: Work,
) -> Result<Told, Refusal>
    requires { 1 ≤ slots }
    ensures { Works list.now classes.now words.old words.new work.entry (marks_numbers result) }
{
    if slots <= list.len() / RECORD_SIZE {
        return mark(list, classes, 4 * slots, words, work);
    }
    if slots <= FEW_SLOTS {
        return mark_in_rows::<FEW_WORDS>(list, classes, slots, words, work);
    }
    if slots <= SOME_SLOTS {
        return mark_in_rows::<SOME_WORDS>(list, classes, slots, words, work);
    }
    mark_in_rows::<TABLE_WORDS>(list, classes, slots, words, work)
}

// Marks the root's start in the lent words and closes.
pub fn start(list: &[u8], classes: &[u8], words: &mut [u64]) -> Result<Told, Refusal>
    ensures { Starts list.now classes.now words.old words.new
        (marks_numbers result) }
{
    mark(list, classes, FEW_SLOTS, words, Work::Start)
}

// Moves the marks in the lent words along the byte and closes.
pub fn step(list: &[u8], classes: &[u8], words: &mut [u64], byte: u8) -> Result<Told, Refusal>
    ensures { Steps list.now classes.now byte words.old words.new
        (marks_numbers result) }
{
    mark(list, classes, FEW_SLOTS, words, Work::Steps(&[byte]))
}

// Moves the marks in the lent words along each byte, one after the other, and closes after each.
pub fn steps(list: &[u8], classes: &[u8], words: &mut [u64], bytes: &[u8]) -> Result<Told, Refusal>
    ensures { StepsEach list.now classes.now words.old bytes.now
        words.new (marks_numbers result) }
{
    mark(list, classes, FEW_SLOTS, words, Work::Steps(bytes))
}
