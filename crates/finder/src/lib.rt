// Match and search by a record list and its class records: refusals, and what is found in the text.
#![tactic(auto)]

pub mod numbers;

ghost use Rattle.std.specs.Prelude.{◌*◌, ◌≤◌};
ghost use Rattle.language.specs.Tree.{Tree};
ghost use Rattle.tree.specs.Leaf.{Leaf};
ghost use Rattle.tree.specs.Limits.{most_pieces};
ghost use Rattle.tree.specs.Records.{Good, piece_count};
ghost use Rattle.tables.specs.Plan.{row_words};
ghost use Rattle.finder.specs.Answer.{match_numbers, search_numbers};
ghost use Rattle.finder.specs.Promise.{MatchAnswers, SearchAnswers};
ghost use Rattle.finder.specs.Finds.{FindAnswers};

use finding::{Sought, find_part};
use matching::part::Span;
use preparing::prepare_for;
use stepping::inner::{FEW_WORDS, SOME_WORDS};
use tables::TABLE_WORDS;
use tree::layout::RECORD_SIZE;
use tree::limits::{FEW_SLOTS, LONGEST_TEXT, SOME_SLOTS};
use tree::refusal::Refusal;

// In so many words for the list's rows, of its own: refuses a list that is not good, class leaves with no record, and a
// text that is too long.
fn find_in_rows<const WORDS: usize>(
    list: &[u8],
    classes: &[u8],
    slots: usize,
    text: &[u8],
    sought: Sought,
) -> Result<Option<Span>, Refusal>
    requires le_slots { 1 ≤ slots }
    requires room { (t : Tree Leaf) → Good list.now t → row_words * piece_count t ≤ WORDS }
    requires words_few { WORDS ≤ row_words * most_pieces }
    ensures { FindAnswers list.now classes.now text.now sought result }
{
    let mut rows = [0u64; WORDS];
    let counts = prepare_for(list, classes, slots, &mut rows)?;
    if LONGEST_TEXT < text.len() {
        return Err(Refusal::TextTooLong);
    }
    Ok(find_part(&rows, counts.pieces, classes, text, sought))
}

// In the fewest rows that are enough, by the number of the records: most of what a short list costs is setting arrays
// to 0. It calls itself with more slots, so that each size has a stack frame of its own.
fn find(
    list: &[u8],
    classes: &[u8],
    slots: usize,
    text: &[u8],
    sought: Sought,
) -> Result<Option<Span>, Refusal>
    requires { 1 ≤ slots }
    ensures { FindAnswers list.now classes.now text.now sought result }
{
    if slots <= list.len() / RECORD_SIZE {
        return find(list, classes, 4 * slots, text, sought);
    }
    if slots <= FEW_SLOTS {
        return find_in_rows::<FEW_WORDS>(list, classes, slots, text, sought);
    }
    if slots <= SOME_SLOTS {
        return find_in_rows::<SOME_WORDS>(list, classes, slots, text, sought);
    }
    find_in_rows::<TABLE_WORDS>(list, classes, slots, text, sought)
}

// Whether the whole text is in the language of the list's tree.
pub fn is_match(list: &[u8], classes: &[u8], text: &[u8]) -> Result<bool, Refusal>
    ensures { MatchAnswers list.now classes.now text.now (match_numbers result) }
{
    let found = find(list, classes, FEW_SLOTS, text, Sought::WholeText)?;
    Ok(found.is_some())
}

// The part of the text that starts earliest and then ends furthest, of those in the language of the list's tree.
pub fn search(list: &[u8], classes: &[u8], text: &[u8]) -> Result<Option<Span>, Refusal>
    ensures { SearchAnswers list.now classes.now text.now
        (search_numbers result) }
{
    find(list, classes, FEW_SLOTS, text, Sought::FirstPart)
}
