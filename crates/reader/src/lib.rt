// Reads an expression into tree records, or refuses it by number and place: two readers, the second with the dot and
// classes.
#![tactic(auto)]

mod answer;
mod store;

ghost use Rattle.std.specs.Prelude.{◌≡◌, length};
ghost use Rattle.operands.specs.Bytes.{syntax_of};
ghost use Rattle.checker.specs.Checked.{counted_numbers};
ghost use Rattle.reader.specs.Answer.{read_numbers, read_answered, records_after};
ghost use Rattle.reader.specs.LabelsStored.{ReaderAnswer};
ghost use Rattle.reader.specs.SecondAnswer.{second_answered, second_records_after, second_classes_after};

pub use answer::Read;
use operands::syntax::Syntax;
use repeats::notes::Notes;
use scanner::expression::expression;
use store::{place_records, store_front};
use tree::counted::Counts;
use tree::limits::MOST_LABELS;
use tree::refusal::{Refusal, Refused};

// Reads an expression by a syntax and writes its tree's records and its class records: 17 where the tree that the signs
// stand for has more nodes than there are labels. The labels are collected apart, so that nothing is written before the
// answer is sure.
fn read_by(
    expr: &[u8],
    records: &mut [u8],
    classes: &mut [u8],
    syntax: Syntax,
) -> Result<Counts, Refused>
    ensures { ReaderAnswer (syntax_of syntax) expr.now records.old
        classes.old records.new classes.new result }
{
    let mut numbers = [0u16; MOST_LABELS];
    let mut notes = Notes::new(&mut numbers, false);
    expression(expr, &mut notes, syntax)?;
    let Notes { numbers, count, .. } = notes;
    if count > MOST_LABELS {
        return Err(Refused {
            refusal: Refusal::TooManyNodes,
            place: 0,
        });
    }
    let counts = store_front(expr, numbers, count, records, classes)?;
    // The places are noted in the same scratch, over the labels.
    let mut notes = Notes::new(numbers, true);
    place_records(expr, &mut notes, counts.records, syntax, records);
    Ok(counts)
}

// Reads an expression and writes its tree's records. There are no classes, so one byte is lent in their place.
pub fn read(expr: &[u8], records: &mut [u8]) -> Result<Read, Refused>
    ensures answer { read_numbers result ≡ read_answered expr.now (length records.old) }
    ensures buffer { records.new ≡ records_after expr.now records.old }
{
    let mut no_classes = [0u8; 1];
    let counts = read_by(expr, records, &mut no_classes, Syntax::First)?;
    Ok(Read {
        records: counts.records,
        pieces: counts.pieces,
    })
}

// Reads an expression that may have the dot and classes, and writes its tree's records and its class records.
pub fn read_second(expr: &[u8], records: &mut [u8], classes: &mut [u8]) -> Result<Counts, Refused>
    ensures answer { counted_numbers result ≡ second_answered expr.now (length records.old)
        (length classes.old) }
    ensures record_buffer { records.new ≡ second_records_after expr.now records.old
        classes.old }
    ensures class_buffer { classes.new ≡ second_classes_after expr.now records.old
        classes.old }
{
    read_by(expr, records, classes, Syntax::Second)
}
