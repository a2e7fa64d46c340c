// The records of a tree, written into a lent buffer from the first to the last.
ghost use Rattle.std.specs.Prelude.{◌*◌, ◌≤◌, ◌<◌, length};
ghost use Rattle.tree.specs.Limits.{most_labels};
ghost use Rattle.tree.specs.Layout.{record_size};
ghost use Rattle.cutting.specs.Measured.{Postorder, Sized, RoomToMeasure, Measured};
ghost use Rattle.lists.specs.Handed.{Pieced};
ghost use Rattle.lists.specs.Recording.{Recorded};

use crate::hand::hand_down;
use cutting::slots::{child_number, left_slot, right_slot};
use tree::layout::write_record;
use tree::limits::SLOT_COUNT;

// Writes every record, by the sizes and the pieces in the slots.
fn write_all(labels: &[u16], sizes: &[u16], pieces: &[u16], out: &mut [u8])
    requires postorder { Postorder labels.now }
    requires labels_len_bound { length labels.now ≤ most_labels }
    requires labels_in_bounds { (length labels.now < length sizes.now) × (length labels.now < length pieces.now) }
    requires sized { Sized labels.now sizes.now × Pieced labels.now pieces.now }
    requires labels_in_bounds_2 { record_size * length labels.now ≤ length out.old }
    ensures { Recorded labels.now out.old out.new }
{
    for (i, label) in labels.iter().enumerate() {
        let right = right_slot(*label, i);
        let left = left_slot(*label, i, sizes[right]);
        let left_number = child_number(left);
        let right_number = child_number(right);
        write_record(out, i, *label, left_number, right_number, pieces[i + 1]);
    }
}

// Writes the records of the tree with these labels, which is measured, and nothing past them.
pub fn write_records(labels: &[u16], sizes: &[u16], opens: &[u16], cuts: &[u16], out: &mut [u8])
    requires postorder { Postorder labels.now }
    requires labels_len_bound { length labels.now ≤ most_labels }
    requires room_to_measure { RoomToMeasure (length labels.now) sizes.now opens.now cuts.now }
    requires measured { Measured labels.now sizes.now opens.now cuts.now (length labels.now) }
    requires labels_in_bounds { record_size * length labels.now ≤ length out.old }
    ensures { Recorded labels.now out.old out.new }
{
    let mut pieces = [0u16; SLOT_COUNT];
    let mut news = [0u16; SLOT_COUNT];
    hand_down(labels, sizes, opens, cuts, &mut pieces, &mut news);
    write_all(labels, sizes, &pieces, out);
}
