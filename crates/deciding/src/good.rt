// Whether a lent list is good: its labels are those of one tree, and each record is that tree's.
ghost use Rattle.std.specs.Prelude.{◌≡◌, ◌*◌, ◌/◌, ◌%◌, ◌≤◌, ◌<◌, length};
ghost use Rattle.tree.specs.Limits.{most_labels, most_records, slot_count};
ghost use Rattle.tree.specs.Layout.{record_size, class_records};
ghost use Rattle.cutting.specs.Measured.{Postorder, Sized, RoomToMeasure, Measured};
ghost use Rattle.lists.specs.Handed.{Pieced};
ghost use Rattle.lists.specs.Readback.{LabelsOf};
ghost use Rattle.deciding.specs.Judged.{Judged, CountsBelow, RoomToDecide};
ghost use Rattle.deciding.specs.LabelsTaken.{Taken, Compared};

use cutting::slots::{child_number, left_slot, right_slot};
use lists::hand::hand_down;
use measuring::measure::piece_count;
use ordering::order::one_tree;
use tree::counted::Counts;
use tree::layout::{RECORD_SIZE, character_at, is_record, kind_at, label_with, one_if_class};
use tree::limits::{FEW_SLOTS, MOST_PIECES, MOST_RECORDS, SOME_SLOTS};

// The slots of the records of the longest good list, and slot 0.
pub const MOST_SLOTS: usize = MOST_RECORDS + 1;

// Takes the labels off a list, and counts its class leaves.
fn take_labels(list: &[u8], labels: &mut [u16]) -> usize
    requires labels_in_bounds { record_size * length labels.old ≤ length list.now }
    requires labels_len_bound { length labels.old ≤ most_records }
    ensures taken { Taken list.now labels.new (length labels.old) }
    ensures value { result ≡ class_records list.now (length labels.old) }
{
    let mut classes = 0;
    for (i, label) in labels.iter_mut().enumerate() {
        let kind = kind_at(list, i);
        let character = character_at(list, i);
        *label = label_with(kind, character, classes);
        classes += one_if_class(kind);
    }
    classes
}

// Whether the list is that of the tree with these labels, by the sizes and the pieces in the slots.
fn compare(list: &[u8], labels: &[u16], sizes: &[u16], pieces: &[u16]) -> bool
    requires postorder { Postorder labels.now }
    requires labels_len_bound { (length labels.now ≤ most_labels) × (length list.now ≡ record_size * length labels.now) }
    requires labels_in_bounds { (length labels.now < length sizes.now) × (length labels.now < length pieces.now) }
    requires sized { Sized labels.now sizes.now × Pieced labels.now pieces.now }
    ensures { Compared labels.now list.now result }
{
    for (i, label) in labels.iter().enumerate() {
        let right = right_slot(*label, i);
        let left = left_slot(*label, i, sizes[right]);
        let left_number = child_number(left);
        let right_number = child_number(right);
        if !is_record(list, i, *label, left_number, right_number, pieces[i + 1]) {
            return false;
        }
    }
    true
}

// Decides on a list of whole records, in arrays of so many slots: the labels, and of each record's subtree the size, the
// open size, the piece and the first new piece below it.
fn decide_in_slots<const SLOTS: usize>(list: &[u8], cuts: &mut [u16]) -> Option<Counts>
    requires record_size_len { (length list.now % record_size ≡ 0) × (length list.now / record_size ≤ most_records) }
    requires slots_bound { (length list.now / record_size < SLOTS) × (SLOTS ≤ slot_count) }
    requires record_size_in_bounds { length list.now / record_size < length cuts.old }
    ensures judged { Judged list.now result }
    ensures counts_below { CountsBelow list.now cuts.new }
{
    let mut labels = [0u16; SLOTS];
    let mut sizes = [0u16; SLOTS];
    let mut opens = [0u16; SLOTS];
    let mut pieces = [0u16; SLOTS];
    let mut news = [0u16; SLOTS];
    let n = list.len() / RECORD_SIZE;
    let classes = take_labels(list, &mut labels[..n]);
    let labels = &labels[..n];
    if !one_tree(labels) {
        return None;
    }
    let count = piece_count(labels, &mut sizes, &mut opens, cuts);
    if MOST_PIECES < count {
        return None;
    }
    hand_down(labels, &sizes, &opens, cuts, &mut pieces, &mut news);
    if !compare(list, labels, &sizes, &pieces) {
        return None;
    }
    Some(Counts {
        records: labels.len(),
        pieces: count,
        classes,
    })
}

// Decides in the smallest arrays that have room: most of what a short list costs is setting them to 0. It calls itself
// with more slots, so that each size has a stack frame of its own.
fn decide_within(list: &[u8], slots: usize, cuts: &mut [u16]) -> Option<Counts>
    requires record_size_len { (length list.now % record_size ≡ 0) × (length list.now / record_size ≤ most_records) }
    requires record_size_in_bounds { (length list.now / record_size < length cuts.old) × (1 ≤ slots) }
    ensures judged { Judged list.now result }
    ensures counts_below { CountsBelow list.now cuts.new }
{
    if slots <= list.len() / RECORD_SIZE {
        return decide_within(list, 4 * slots, cuts);
    }
    if slots <= FEW_SLOTS {
        return decide_in_slots::<FEW_SLOTS>(list, cuts);
    }
    if slots <= SOME_SLOTS {
        return decide_in_slots::<SOME_SLOTS>(list, cuts);
    }
    decide_in_slots::<MOST_SLOTS>(list, cuts)
}

// Decides whether a list is good, and counts its records, pieces and class leaves. Of a good list, `cuts` tells the
// pieces below each record's node. No good list has more than 1,920 records.
pub fn decide_with(list: &[u8], cuts: &mut [u16]) -> Option<Counts>
    requires { RoomToDecide list.now cuts.old }
    ensures judged { Judged list.now result }
    ensures counts_below { CountsBelow list.now cuts.new }
{
    if list.len() % RECORD_SIZE != 0 {
        return None;
    }
    if MOST_RECORDS < list.len() / RECORD_SIZE {
        return None;
    }
    decide_within(list, FEW_SLOTS, cuts)
}

// Decides whether a list is good, and counts its records, pieces and class leaves.
pub fn decide(list: &[u8]) -> Option<Counts>
    ensures { Judged list.now result }
{
    let mut cuts = [0u16; MOST_SLOTS];
    decide_with(list, &mut cuts)
}
