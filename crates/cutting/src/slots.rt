// Slots: record i has slot i + 1, and slot 0 stands for a child that is not there.
ghost use Rattle.std.specs.Prelude.{◌≡◌, ◌≤◌};
ghost use Rattle.tree.specs.Limits.{most_labels};
ghost use Rattle.cutting.specs.Seats.{left_slot, right_slot};
ghost use Rattle.cutting.specs.SeatRecords.{child_number};

use tree::layout::{CATENATION_LABEL, NO_CHILD, STAR_LABEL, UNION_LABEL};

// The slot of the right child of record i: the record before it, for a catenation or a union.
pub fn right_slot(label: u16, i: usize) -> usize
    ensures { (result ≡ right_slot label i) × (result ≤ i) }
{
    if matches!(label, CATENATION_LABEL | UNION_LABEL) {
        i
    } else {
        0
    }
}

// The slot of the left or only child of record i: where the right child, of `size` nodes, begins.
pub fn left_slot(label: u16, i: usize, size: u16) -> usize
    requires { size ≤ i }
    ensures { (result ≡ left_slot label i size) × (result ≤ i) }
{
    if matches!(label, CATENATION_LABEL..=STAR_LABEL) {
        i - usize::from(size)
    } else {
        0
    }
}

// The record number that a slot stands for, 65,535 for none.
pub fn child_number(slot: usize) -> u16
    requires { slot ≤ most_labels }
    ensures { result ≡ child_number slot }
{
    match slot {
        0 => NO_CHILD,
        _ => (slot - 1) as u16,
    }
}
