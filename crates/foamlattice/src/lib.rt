// The outside interface: reading, matching, searching, starting, stepping, picking and tables of steps, each of which
// answers one number. The crate foamlattice_c exports each of these functions to callers in C and Rust.
#![tactic(auto)]

ghost use Rattle.std.specs.Prelude.{◌≡◌, ◌≤◌, length};
ghost use Rattle.tree.specs.Limits.{longest_expression};
ghost use Rattle.tree.specs.Refusing.{refusal_number};
ghost use Rattle.reader.specs.Answer.{read_answered, records_after};
ghost use Rattle.checker.specs.Checked.{counted_numbers, checked};
ghost use Rattle.reader.specs.SecondAnswer.{second_answered, second_records_after, second_classes_after};
ghost use Rattle.operands.specs.Bytes.{first, second};
ghost use Rattle.lines.specs.Answer.{lines_numbers};
ghost use Rattle.running.specs.Answer.{table_answered};
ghost use Rattle.one_number.specs.Packed.{packed};
ghost use Rattle.foamlattice.specs.PackedBounds.{SecondRanges, FoundRanges, MarksRanges};
ghost use Rattle.foamlattice.specs.LinesLaws.{LinesRanges};
ghost use Rattle.foamlattice.specs.Promise.{
  read_packed,
  second_packed,
  found_packed,
  marks_packed,
  table_packed,
  Matching,
  Searching,
  Starting,
  Stepping,
  SteppingEach,
  lines_packed,
  AnsweringLines,
  AnsweringByTable,
  Picking,
  Widening,
  Tabling,
};

use checker::{check, check_second};
use finder::numbers::{FoundNumbers, match_numbers, search_numbers};
use finder::{is_match, search};
use lines::lines;
use making::make_table;
use marks::numbers::{MarksNumbers, numbers_of};
use marks::{start, step, steps};
use one_number::{pack, pack_counts};
use picker::pick;
use reader::{read, read_second};
use running::match_table;
use table_lines::lines_by_table;
use tree::counted::{Counts, LineCounts};
use tree::refusal::{Refusal, Refused};
use widen::widen;

// What is refused, packed: the flag is 0, and x is the place.
fn pack_refusal(refusal: Refusal, place: usize) -> u64
    requires { place ≤ longest_expression }
    ensures { result ≡ packed (refusal_number refusal) 0 place 0 }
{
    pack(refusal.number(), false, place, 0)
}

// Reads an expression of the first syntax into tree records.
pub fn foam_read(expression: &[u8], records: &mut [u8]) -> u64
    ensures answer { result ≡ read_packed
        (read_answered expression.now (length records.old)) }
    ensures buffer { records.new ≡ records_after expression.now records.old }
{
    match read(expression, records) {
        Ok(read) => pack_counts(read.records, read.pieces, 0),
        Err(refused) => pack_refusal(refused.refusal, refused.place),
    }
}

// What a check, or a reading in the second syntax, gives back, packed.
fn pack_counted(answer: Result<Counts, Refused>) -> u64
    requires { SecondRanges (counted_numbers answer) }
    ensures { result ≡ second_packed (counted_numbers answer) }
{
    match answer {
        Ok(counts) => pack_counts(counts.records, counts.pieces, counts.classes),
        Err(refused) => pack_refusal(refused.refusal, refused.place),
    }
}

// Checks an expression of the first syntax, with no buffer lent.
pub fn foam_check(expression: &[u8]) -> u64
    ensures { result ≡ second_packed (checked first expression.now) }
{
    pack_counted(check(expression))
}

// Checks an expression of the second syntax, with no buffer lent.
pub fn foam_check2(expression: &[u8]) -> u64
    ensures { result ≡ second_packed (checked second expression.now) }
{
    pack_counted(check_second(expression))
}

// Reads an expression of the second syntax into tree records and class records.
pub fn foam_read2(expression: &[u8], records: &mut [u8], classes: &mut [u8]) -> u64
    ensures answer { result ≡ second_packed (second_answered expression.now (length records.old)
        (length classes.old)) }
    ensures records { records.new ≡ second_records_after expression.now records.old
        classes.old }
    ensures classes { classes.new ≡ second_classes_after expression.now records.old
        classes.old }
{
    pack_counted(read_second(expression, records, classes))
}

// What a match or a search gives back, packed.
fn pack_found(numbers: FoundNumbers) -> u64
    requires { FoundRanges numbers }
    ensures { result ≡ found_packed numbers }
{
    pack(
        numbers.refusal,
        numbers.matched,
        numbers.place + numbers.start,
        numbers.end,
    )
}

// Whether the whole text is in the language of the list's tree.
pub fn foam_match(records: &[u8], classes: &[u8], text: &[u8]) -> u64
    ensures { Matching records.now classes.now text.now result }
{
    pack_found(match_numbers(is_match(records, classes, text)))
}

// The part of the text that starts earliest and then ends furthest, of those in the language of the list's tree.
pub fn foam_search(records: &[u8], classes: &[u8], text: &[u8]) -> u64
    ensures { Searching records.now classes.now text.now result }
{
    pack_found(search_numbers(search(records, classes, text)))
}

// What a start or a step gives back, packed.
fn pack_marked(numbers: MarksNumbers) -> u64
    requires { MarksRanges numbers }
    ensures { result ≡ marks_packed numbers }
{
    pack(
        numbers.refusal,
        numbers.accepting,
        numbers.place + usize::from(numbers.nothing),
        0,
    )
}

// Writes the marks to start with.
pub fn foam_start(records: &[u8], classes: &[u8], words: &mut [u64]) -> u64
    ensures { Starting records.now classes.now words.old
        words.new result }
{
    pack_marked(numbers_of(start(records, classes, words)))
}

// Turns the marks into those after one more byte.
pub fn foam_step(records: &[u8], classes: &[u8], words: &mut [u64], byte: u8) -> u64
    ensures { Stepping records.now classes.now byte words.old
        words.new
        result }
{
    pack_marked(numbers_of(step(records, classes, words, byte)))
}

// Turns the marks into those after each byte, one after the other.
pub fn foam_steps(records: &[u8], classes: &[u8], words: &mut [u64], bytes: &[u8]) -> u64
    ensures { SteppingEach records.now classes.now words.old
        bytes.now words.new result }
{
    pack_marked(numbers_of(steps(records, classes, words, bytes)))
}

// What matching the lines of a text gives back, packed.
fn pack_lines(answer: Result<LineCounts, Refusal>) -> u64
    requires { LinesRanges (lines_numbers answer) }
    ensures { result ≡ lines_packed (lines_numbers answer) }
{
    match answer {
        Ok(counts) => pack(0, false, counts.lines, counts.yes),
        Err(refusal) => pack_refusal(refusal, 0),
    }
}

// Writes a byte for each line of the text: 1 where the line is in the language of the list's tree, 0 where it is not.
pub fn foam_lines(records: &[u8], classes: &[u8], text: &[u8], answers: &mut [u8]) -> u64
    ensures { AnsweringLines records.now classes.now text.now
        answers.old answers.new result }
{
    pack_lines(lines(records, classes, text, answers))
}

// Writes a byte for each line of the text: 1 where the table of steps accepts the line, 0 where it does not.
pub fn foam_lines_table(table: &[u16], text: &[u8], answers: &mut [u8]) -> u64
    ensures { AnsweringByTable table.now text.now answers.old
        answers.new result }
{
    pack_lines(lines_by_table(table, text, answers))
}

// Turns a good list of the old layout, of eight bytes a record, into one of today with the place 0 in every record.
pub fn foam_widen(old: &[u8], records: &mut [u8]) -> u64
    ensures { Widening old.now records.old records.new result }
{
    match widen(old, records) {
        Ok(records) => pack(0, false, records, 0),
        Err(refusal) => pack_refusal(refusal, 0),
    }
}

// Writes the whole output of `pick` for an input: the expression is read once, and its tables are made once for all
// texts.
pub fn foam_pick(input: &[u8], output: &mut [u8]) -> u64
    ensures { Picking input.now output.old output.new result }
{
    match pick(input, output) {
        Ok(length) => pack(0, true, length, 0),
        Err(_) => pack(0, false, 0, 0),
    }
}

// Makes a table of steps of the list's tree, in the table that is lent, with room lent for finding its states.
pub fn foam_table(records: &[u8], classes: &[u8], table: &mut [u16], room: &mut [u64]) -> u64
    ensures { Tabling records.now classes.now table.old table.new
        room.old room.new result }
{
    let numbers = making::numbers::numbers_of(make_table(records, classes, table, room));
    pack(
        numbers.refusal,
        numbers.made,
        numbers.states,
        numbers.entries,
    )
}

// Whether a table of steps accepts the whole text.
pub fn foam_match_table(table: &[u16], text: &[u8]) -> u64
    ensures { result ≡ table_packed (table_answered table.now text.now) }
{
    let numbers = running::numbers::numbers_of(match_table(table, text));
    pack(numbers.refusal, numbers.matched, 0, 0)
}
