// An answer for each line of a text, by a table of steps.
#![tactic(auto)]

ghost use Rattle.table_lines.specs.Promise.{table_lines_numbers, TableLinesAnswers};

use lines::answers::answer_lines;
use lines::room::has_room;
use running::HEADING;
use running::run::runs;
use tree::counted::LineCounts;
use tree::limits::LONGEST_TEXT;
use tree::refusal::Refusal;

// Writes a byte for each line of the text, 1 where the table accepts the line and 0 where it does not. Where something
// is refused, nothing is written.
pub fn lines_by_table(table: &[u16], text: &[u8], answers: &mut [u8]) -> Result<LineCounts, Refusal>
    ensures { TableLinesAnswers table.now text.now answers.old
        answers.new (table_lines_numbers result) }
{
    if table.len() < HEADING {
        return Err(Refusal::TableTooShort);
    }
    if LONGEST_TEXT < text.len() {
        return Err(Refusal::TextTooLong);
    }
    if !has_room(text, answers.len()) {
        return Err(Refusal::BufferTooShort);
    }
    let counts = answer_lines(text, answers, |line| runs(table, line));
    Ok(counts)
}
