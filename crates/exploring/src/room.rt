// The states that were found, in the room: numbers first, then marks.
ghost use Rattle.std.specs.Prelude.{◌+◌, ◌*◌, ◌≤◌, ◌<◌, ◌≡◌, length, unwrap_or};
ghost use Rattle.exploring.specs.Room.{Sought, with_state, EntryWritten};

use crate::layout::Layout;
use stepping::inner::copy;
use tree::limits::MOST_PIECES;

// The place among the states of the one whose marks agree with the words under the masks. The marks of a state are
// looked at only where its number is that of the words.
pub fn find(
    room: &[u64],
    layout: &Layout,
    states: usize,
    words: &[u64; MOST_PIECES],
) -> Option<usize>
    requires { (states ≤ layout.now.most) × (layout.now.most + layout.now.count * layout.now.most ≤ length room.now) }
    ensures { Sought layout.now.masks layout.now.count layout.now.most states room.now words.now
        (unwrap_or result states) }
{
    let number = layout.number_of(words);
    for i in 0..states {
        if room[i] == number && layout.agree(layout.marks(room, i), words) {
            return Some(i);
        }
    }
    None
}

// Keeps the marks of state 1 + i, and the number by which it is found again.
pub fn keep(room: &mut [u64], layout: &Layout, i: usize, words: &[u64; MOST_PIECES])
    requires { (i < layout.now.most) × (layout.now.most + layout.now.count * layout.now.most ≤ length room.old) }
    ensures { room.new ≡ with_state layout.now.masks layout.now.count layout.now.most room.old i words.now }
{
    room[i] = layout.number_of(words);
    let at = layout.most + layout.count * i;
    copy(words, layout.count, &mut room[at..at + layout.count]);
}

// Writes entry p, and keeps the marks of the state that it leads to where that state is new. Answers how many states
// there are then.
pub fn enter(
    room: &mut [u64],
    layout: &Layout,
    states: usize,
    p: usize,
    entry: usize,
    words: &[u64; MOST_PIECES],
) -> usize
    requires { (entry ≤ layout.now.most) × (layout.now.most + layout.now.count * layout.now.most + p < length room.old) }
    ensures { EntryWritten layout.now.masks layout.now.count layout.now.most states p entry room.old
        words.now
        room.new result }
{
    room[layout.most + layout.count * layout.most + p] = entry as u64;
    if entry <= states {
        return states;
    }
    keep(room, layout, states, words);
    states + 1
}
