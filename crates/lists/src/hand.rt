// From the root down: the piece of every record, and the number of the first new piece below it, each in the record's
// slot.
ghost use Rattle.std.specs.Prelude.{◌≤◌, ◌<◌, length};
ghost use Rattle.tree.specs.Limits.{most_labels};
ghost use Rattle.cutting.specs.Measured.{Postorder, RoomToMeasure, Measured};
ghost use Rattle.lists.specs.Handed.{Pieced};

use cutting::cut::{cut_off, one_if, piece_below};
use cutting::slots::{left_slot, right_slot};

// A parent comes after its children, so going backwards its slots are filled when it hands on to theirs. The new pieces
// stand in a slice of their own: they are read here alone.
pub fn hand_down(
    labels: &[u16],
    sizes: &[u16],
    opens: &[u16],
    cuts: &[u16],
    pieces: &mut [u16],
    news: &mut [u16],
)
    requires postorder { Postorder labels.now }
    requires labels_len_bound { length labels.now ≤ most_labels }
    requires room_to_measure { RoomToMeasure (length labels.now) sizes.now opens.now cuts.now }
    requires measured { Measured labels.now sizes.now opens.now cuts.now (length labels.now) }
    requires labels_in_bounds { (length labels.now < length pieces.old) × (length labels.now < length news.old) }
    ensures { Pieced labels.now pieces.new }
{
    pieces[labels.len()] = 0;
    news[labels.len()] = 1;
    for i in (0..labels.len()).rev() {
        let own = pieces[i + 1];
        let new = news[i + 1];
        let right = right_slot(labels[i], i);
        let left = left_slot(labels[i], i, sizes[right]);
        let left_open = opens[left];
        let right_open = opens[right];
        let (left_off, right_off) = cut_off(left_open, right_open);
        let past_left = one_if(left_off) + cuts[left] + new;
        pieces[left] = piece_below(left_off, own, new);
        pieces[right] = piece_below(right_off, own, past_left);
        news[left] = one_if(left_off) + new;
        news[right] = one_if(right_off) + past_left;
    }
}
