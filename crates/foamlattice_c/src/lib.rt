// The exports for callers in C and Rust: each calls the function of its name in the crate foamlattice, and promises the
// same.
#![tactic(auto)]

ghost use Rattle.std.specs.Prelude.{◌≡◌, length};
ghost use Rattle.reader.specs.Answer.{read_answered, records_after};
ghost use Rattle.checker.specs.Checked.{checked};
ghost use Rattle.reader.specs.SecondAnswer.{second_answered, second_records_after, second_classes_after};
ghost use Rattle.operands.specs.Bytes.{first, second};
ghost use Rattle.running.specs.Answer.{table_answered};
ghost use Rattle.foamlattice.specs.Promise.{
  read_packed,
  second_packed,
  table_packed,
  Matching,
  Searching,
  Starting,
  Stepping,
  SteppingEach,
  AnsweringLines,
  AnsweringByTable,
  Picking,
  Widening,
  Tabling,
};

// Reads an expression of the first syntax into tree records.
#[unsafe(no_mangle)]
pub extern "C" fn foam_read(expression: &[u8], records: &mut [u8]) -> u64
    ensures answer { result ≡ read_packed
        (read_answered expression.now (length records.old)) }
    ensures buffer { records.new ≡ records_after expression.now records.old }
{
    foamlattice::foam_read(expression, records)
}

// Checks an expression of the first syntax, with no buffer lent.
#[unsafe(no_mangle)]
pub extern "C" fn foam_check(expression: &[u8]) -> u64
    ensures { result ≡ second_packed (checked first expression.now) }
{
    foamlattice::foam_check(expression)
}

// Checks an expression of the second syntax, with no buffer lent.
#[unsafe(no_mangle)]
pub extern "C" fn foam_check2(expression: &[u8]) -> u64
    ensures { result ≡ second_packed (checked second expression.now) }
{
    foamlattice::foam_check2(expression)
}

// Reads an expression of the second syntax into tree records and class records.
#[unsafe(no_mangle)]
pub extern "C" fn foam_read2(expression: &[u8], records: &mut [u8], classes: &mut [u8]) -> u64
    ensures answer { result ≡ second_packed (second_answered expression.now (length records.old)
        (length classes.old)) }
    ensures records { records.new ≡ second_records_after expression.now records.old
        classes.old }
    ensures classes { classes.new ≡ second_classes_after expression.now records.old
        classes.old }
{
    foamlattice::foam_read2(expression, records, classes)
}

// Whether the whole text is in the language of the list's tree.
#[unsafe(no_mangle)]
pub extern "C" fn foam_match(records: &[u8], classes: &[u8], text: &[u8]) -> u64
    ensures { Matching records.now classes.now text.now result }
{
    foamlattice::foam_match(records, classes, text)
}

// The part of the text that starts earliest and then ends furthest, of those in the language of the list's tree.
#[unsafe(no_mangle)]
pub extern "C" fn foam_search(records: &[u8], classes: &[u8], text: &[u8]) -> u64
    ensures { Searching records.now classes.now text.now result }
{
    foamlattice::foam_search(records, classes, text)
}

// Writes the marks to start with.
#[unsafe(no_mangle)]
pub extern "C" fn foam_start(records: &[u8], classes: &[u8], words: &mut [u64]) -> u64
    ensures { Starting records.now classes.now words.old
        words.new result }
{
    foamlattice::foam_start(records, classes, words)
}

// Turns the marks into those after one more byte.
#[unsafe(no_mangle)]
pub extern "C" fn foam_step(records: &[u8], classes: &[u8], words: &mut [u64], byte: u8) -> u64
    ensures { Stepping records.now classes.now byte words.old
        words.new
        result }
{
    foamlattice::foam_step(records, classes, words, byte)
}

// Turns the marks into those after each byte, one after the other.
#[unsafe(no_mangle)]
pub extern "C" fn foam_steps(records: &[u8], classes: &[u8], words: &mut [u64], bytes: &[u8]) -> u64
    ensures { SteppingEach records.now classes.now words.old
        bytes.now words.new result }
{
    foamlattice::foam_steps(records, classes, words, bytes)
}

// Writes a byte for each line of the text: 1 where the line is in the language of the list's tree, 0 where it is not.
#[unsafe(no_mangle)]
pub extern "C" fn foam_lines(records: &[u8], classes: &[u8], text: &[u8], answers: &mut [u8]) -> u64
    ensures { AnsweringLines records.now classes.now text.now
        answers.old answers.new result }
{
    foamlattice::foam_lines(records, classes, text, answers)
}

// Writes a byte for each line of the text: 1 where the table of steps accepts the line, 0 where it does not.
#[unsafe(no_mangle)]
pub extern "C" fn foam_lines_table(table: &[u16], text: &[u8], answers: &mut [u8]) -> u64
    ensures { AnsweringByTable table.now text.now answers.old
        answers.new result }
{
    foamlattice::foam_lines_table(table, text, answers)
}

// Turns a good list of the old layout, of eight bytes a record, into one of today with the place 0 in every record.
#[unsafe(no_mangle)]
pub extern "C" fn foam_widen(old: &[u8], records: &mut [u8]) -> u64
    ensures { Widening old.now records.old records.new result }
{
    foamlattice::foam_widen(old, records)
}

// Writes the whole output of `pick` for an input: the expression is read once, and its tables are made once for all
// texts.
#[unsafe(no_mangle)]
pub extern "C" fn foam_pick(input: &[u8], output: &mut [u8]) -> u64
    ensures { Picking input.now output.old output.new result }
{
    foamlattice::foam_pick(input, output)
}

// Makes a table of steps of the list's tree, in the table that is lent, with room lent for finding its states.
#[unsafe(no_mangle)]
pub extern "C" fn foam_table(
    records: &[u8],
    classes: &[u8],
    table: &mut [u16],
    room: &mut [u64],
) -> u64
    ensures { Tabling records.now classes.now table.old table.new
        room.old room.new result }
{
    foamlattice::foam_table(records, classes, table, room)
}

// Whether a table of steps accepts the whole text.
#[unsafe(no_mangle)]
pub extern "C" fn foam_match_table(table: &[u16], text: &[u8]) -> u64
    ensures { result ≡ table_packed (table_answered table.now text.now) }
{
    foamlattice::foam_match_table(table, text)
}
