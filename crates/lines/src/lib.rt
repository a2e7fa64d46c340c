// An answer for each line of a text, by one list: its rows are made once for all lines.
#![tactic(auto)]

pub mod answers;
pub mod room;

ghost use Rattle.lines.specs.Answer.{lines_numbers};
ghost use Rattle.lines.specs.Promise.{LinesAnswers};

use answers::answer_lines;
use matching::text::text_matches;
use preparing::prepare_for;
use room::has_room;
use tables::TABLE_WORDS;
use tree::counted::LineCounts;
use tree::limits::{FEW_SLOTS, LONGEST_TEXT};
use tree::refusal::Refusal;

// Writes a byte for each line of the text, 1 where the line is in the language of the list's tree and 0 where it is
// not. Where something is refused, nothing is written.
pub fn lines(
    list: &[u8],
    classes: &[u8],
    text: &[u8],
    answers: &mut [u8],
) -> Result<LineCounts, Refusal>
    ensures { LinesAnswers list.now classes.now text.now
        answers.old answers.new (lines_numbers result) }
{
    let mut rows = [0u64; TABLE_WORDS];
    let counts = prepare_for(list, classes, FEW_SLOTS, &mut rows)?;
    if LONGEST_TEXT < text.len() {
        return Err(Refusal::TextTooLong);
    }
    if !has_room(text, answers.len()) {
        return Err(Refusal::BufferTooShort);
    }
    Ok(answer_lines(text, answers, |line| {
        text_matches(&rows, counts.pieces, classes, line)
    }))
}
