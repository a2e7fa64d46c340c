// Reading and counting: what can be said of an expression with no buffer lent.
ghost use Rattle.std.specs.Prelude.{◌≡◌, ◌≤◌, length, IfOk};
ghost use Rattle.tree.specs.Limits.{most_labels};
ghost use Rattle.cutting.specs.Measured.{Postorder, RoomToMeasure, Measured};
ghost use Rattle.operands.specs.Bytes.{syntax_of};
ghost use Rattle.checker.specs.Relabelled.{class_labels};
ghost use Rattle.checker.specs.Counted.{LabelsCounted, CheckAnswer};

use measuring::measure::piece_count;
use operands::syntax::Syntax;
use repeats::notes::Notes;
use scanner::expression::expression;
use tree::counted::Counts;
use tree::layout::CLASS_LABEL;
use tree::limits::{MOST_LABELS, MOST_PIECES, SLOT_COUNT};
use tree::refusal::{Refusal, Refused};

// How many labels are those of class leaves.
pub fn class_count(labels: &[u16]) -> usize
    ensures { result ≡ class_labels labels.now }
{
    // A sum and no filter, so that several labels are looked at together.
    let mut count = 0;
    for label in labels {
        count += usize::from(*label % 8 == CLASS_LABEL);
    }
    count
}

// Measures the tree with these labels, and counts its records, pieces and classes: 8 where it has too many pieces.
pub fn measured_counts(
    labels: &[u16],
    sizes: &mut [u16],
    opens: &mut [u16],
    cuts: &mut [u16],
) -> Result<Counts, Refused>
    requires tree { Postorder labels.now }
    requires few { length labels.now ≤ most_labels }
    requires room { RoomToMeasure (length labels.now) sizes.old opens.old cuts.old }
    ensures measured { Measured labels.now sizes.new opens.new cuts.new (length labels.now) }
    ensures counted { LabelsCounted labels.now result }
    ensures sizes { IfOk result (λ counts. (counts.records ≡ length labels.now)
        × (counts.classes ≡ class_labels labels.now)) }
{
    let pieces = piece_count(labels, sizes, opens, cuts);
    if pieces > MOST_PIECES {
        return Err(Refused {
            refusal: Refusal::TooManyPieces,
            place: 0,
        });
    }
    Ok(Counts {
        records: labels.len(),
        pieces,
        classes: class_count(labels),
    })
}

// The same with arrays of its own for the measures. It has its own frame, so that they are not there while the readers
// go deep.
#[inline(never)]
fn count_labels(labels: &[u16]) -> Result<Counts, Refused>
    requires tree { Postorder labels.now }
    requires few { length labels.now ≤ most_labels }
    ensures { LabelsCounted labels.now result }
{
    let mut sizes = [0u16; SLOT_COUNT];
    let mut opens = [0u16; SLOT_COUNT];
    let mut cuts = [0u16; SLOT_COUNT];
    measured_counts(labels, &mut sizes, &mut opens, &mut cuts)
}

// Reads an expression into the labels of its tree and counts: every refusal that needs no buffer, 17 where the tree that
// the signs stand for has more nodes than there are labels, which in the first syntax none has (`first_bounded`:
// specs/Counted.antt).
pub fn read_and_count(expr: &[u8], notes: &mut Notes, syntax: Syntax) -> Result<Counts, Refused>
    ensures answer { CheckAnswer (syntax_of syntax) expr.now notes.new.numbers.now result }
    ensures same_buffer { notes.new.numbers.ghost_name ≡ notes.old.numbers.ghost_name }
    ensures same_length { length notes.new.numbers.now ≡ length notes.old.numbers.now }
{
    notes.places = false;
    expression(expr, notes, syntax)?;
    let count = notes.count;
    if count > MOST_LABELS {
        return Err(Refused {
            refusal: Refusal::TooManyNodes,
            place: 0,
        });
    }
    count_labels(notes.first(count))
}
