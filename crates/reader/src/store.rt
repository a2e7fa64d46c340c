// From the labels of a tree to its records and class records: storing can refuse by 8, 9 and 15 alone.
ghost use Rattle.std.specs.Prelude.{◌≡◌, ◌*◌, ◌≤◌, length, take};
ghost use Rattle.tree.specs.Layout.{record_size};
ghost use Rattle.tree.specs.Limits.{most_labels};
ghost use Rattle.tree.specs.Places.{with_places};
ghost use Rattle.operands.specs.Bytes.{syntax_of};
ghost use Rattle.reader.specs.LabelsStored.{LabelsToStore, StoreAnswer};
ghost use Rattle.reader.specs.PlacesIn.{places_in};
ghost use Rattle.reader.specs.Placing.{PlacesDue};

use checker::count::measured_counts;
use lists::write::write_records;
use operands::syntax::Syntax;
use repeats::notes::Notes;
use scanner::expression::expression;
use storing::class_records::{number_classes, store_classes};
use tree::counted::Counts;
use tree::layout::{CLASS_RECORD_SIZE, RECORD_SIZE, write_places};
use tree::limits::SLOT_COUNT;
use tree::refusal::{Refusal, Refused};

// Stores the records and the class records of the tree with these labels: 8 where it has too many pieces, then 9 where
// the records do not fit, then 15 where the class records do not. It is measured once, for all that. It has its own
// frame, so that its arrays are not there while the readers go deep.
#[inline(never)]
fn store(
    expr: &[u8],
    labels: &mut [u16],
    records: &mut [u8],
    classes: &mut [u8],
) -> Result<Counts, Refused>
    requires { LabelsToStore expr.now labels.old }
    ensures { StoreAnswer expr.now labels.old records.old
        classes.old records.new classes.new result }
{
    let mut sizes = [0u16; SLOT_COUNT];
    let mut opens = [0u16; SLOT_COUNT];
    let mut cuts = [0u16; SLOT_COUNT];
    let counts = measured_counts(labels, &mut sizes, &mut opens, &mut cuts)?;
    if records.len() < RECORD_SIZE * counts.records {
        return Err(Refused {
            refusal: Refusal::BufferTooShort,
            place: 0,
        });
    }
    if classes.len() < CLASS_RECORD_SIZE * counts.classes {
        return Err(Refused {
            refusal: Refusal::ClassBufferTooShort,
            place: 0,
        });
    }
    store_classes(expr, labels, classes);
    number_classes(labels);
    write_records(labels, &sizes, &opens, &cuts, records);
    Ok(counts)
}

// The same for the first `count` labels of the scratch, which is lent whole.
pub fn store_front(
    expr: &[u8],
    labels: &mut [u16],
    count: usize,
    records: &mut [u8],
    classes: &mut [u8],
) -> Result<Counts, Refused>
    requires inside { count ≤ length labels.old }
    requires ready { LabelsToStore expr.now (take count labels.old) }
    ensures { StoreAnswer expr.now (take count labels.old) records.old
        classes.old records.new classes.new result }
{
    store(expr, &mut labels[..count], records, classes)
}

// Reads the expression once more, for the places of its nodes, and puts them into the records: it was read before, so
// it is not refused now.
pub fn place_records(
    expr: &[u8],
    notes: &mut Notes,
    count: usize,
    syntax: Syntax,
    records: &mut [u8],
)
    requires due { PlacesDue (syntax_of syntax) expr.now count }
    requires fits { record_size * count ≤ length records.old }
    ensures { records.new ≡ with_places (places_in (syntax_of syntax) expr.now)
        records.old }
{
    notes.places = true;
    let _ = expression(expr, notes, syntax);
    write_places(notes.first(count), records);
}
