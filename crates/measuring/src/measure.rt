// From the leaves up: the nodes, the open size and the cut edges of every subtree, in the slot of its root's record;
// and so the number of pieces.
ghost use Rattle.std.specs.Prelude.{◌≤◌, length};
ghost use Rattle.tree.specs.Limits.{most_labels};
ghost use Rattle.cutting.specs.Measured.{Postorder, RoomToMeasure, Measured, CountsPieces};

use cutting::cut::{cut_count, open_size};
use cutting::slots::{left_slot, right_slot};

// A child comes before its parent, so its slots are filled when the parent is met. There is a slice for each number, and
// not one of structs: the cut edges outlive the others, and whoever writes or compares records reads the sizes alone.
fn measure(labels: &[u16], sizes: &mut [u16], opens: &mut [u16], cuts: &mut [u16])
    requires postorder { Postorder labels.now }
    requires labels_len_bound { length labels.now ≤ most_labels }
    requires room_to_measure { RoomToMeasure (length labels.now) sizes.old opens.old cuts.old }
    ensures { Measured labels.now sizes.new opens.new cuts.new
        (length labels.now) }
{
    sizes[0] = 0;
    opens[0] = 0;
    cuts[0] = 0;
    for (i, label) in labels.iter().enumerate() {
        let right = right_slot(*label, i);
        let right_size = sizes[right];
        let left = left_slot(*label, i, right_size);
        let size = sizes[left] + right_size + 1;
        let left_open = opens[left];
        let right_open = opens[right];
        let open_here = open_size(left_open, right_open);
        let cuts_here = cut_count(left_open, right_open, cuts[left], cuts[right]);
        sizes[i + 1] = size;
        opens[i + 1] = open_here;
        cuts[i + 1] = cuts_here;
    }
}

// Measures the tree with these labels, and gives the number of its pieces.
pub fn piece_count(labels: &[u16], sizes: &mut [u16], opens: &mut [u16], cuts: &mut [u16]) -> usize
    requires postorder { Postorder labels.now }
    requires labels_len_bound { length labels.now ≤ most_labels }
    requires room_to_measure { RoomToMeasure (length labels.now) sizes.old opens.old cuts.old }
    ensures measured { Measured labels.now sizes.new opens.new cuts.new
        (length labels.now) }
    ensures counts_pieces { CountsPieces labels.now result }
{
    measure(labels, sizes, opens, cuts);
    1 + usize::from(cuts[labels.len()])
}
