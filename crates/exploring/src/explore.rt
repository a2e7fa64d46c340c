// The states of a table of steps: from each state that was found, in their order, along the first byte of each column.
ghost use Rattle.std.specs.Prelude.{ℕ, ◌+◌, ◌*◌, ◌≤◌, ◌<◌, ◌≡◌, List, length, take};
ghost use Rattle.language.specs.Tree.{Tree};
ghost use Rattle.tree.specs.Leaf.{Leaf};
ghost use Rattle.tree.specs.Pieces.{cut_up};
ghost use Rattle.tables.specs.Words.{Clean};
ghost use Rattle.tables.specs.Tables.{Prepared, Ready, Holding};
ghost use Rattle.exploring.specs.Keys.{Keys};
ghost use Rattle.exploring.specs.Room.{marks_of, StatesNumbered, Exploration};
ghost use Rattle.exploring.specs.FindingStates.{Leading, Progress};

use crate::keys::note_keys;
use crate::layout::Layout;
use crate::room::{enter, find, keep};
use stepping::inner::{advance, begin, copy};
use tree::limits::MOST_PIECES;

// Where the byte leads from a state: to 0 where nothing is left, else to a state that is there, or to a new one, whose
// number is the next. Leaves the marks of where it leads in the words.
fn entry_of(
    rows: &[u64],
    classes: &[u8],
    layout: &Layout,
    room: &[u64],
    states: usize,
    state: usize,
    byte: u8,
    words: &mut [u64; MOST_PIECES],
) -> usize
    requires ready { Ready rows.now layout.now.count }
    requires state_lt_states { (state < states) × (states ≤ layout.now.most)
        × (layout.now.most + layout.now.count * layout.now.most ≤ length room.now) }
    requires clean { (t : Tree Leaf) → Prepared t rows.now layout.now.count
        → Clean (cut_up t) (marks_of layout.now.count layout.now.most room.now state) }
    ensures { (t : Tree Leaf) (w : List ℕ) → Prepared t rows.now layout.now.count
        → Holding classes.now t w (marks_of layout.now.count layout.now.most room.now state)
        → Leading classes.now t w byte layout.now.masks layout.now.count layout.now.most states room.now
        words.new result }
{
    copy(layout.marks(room, state), layout.count, words);
    let told = advance(rows, layout.count, classes, words, byte);
    if told.nothing {
        return 0;
    }
    1 + find(room, layout, states, words).unwrap_or(states)
}

// Goes on from the state of the empty text, which is kept. Answers how many states there are, or that there is no room
// for all.
fn explore_on(
    rows: &[u64],
    classes: &[u8],
    layout: &Layout,
    firsts: &[u8],
    columns: usize,
    room: &mut [u64],
) -> Option<usize>
    requires ready { Ready rows.now layout.now.count }
    requires le_columns { (1 ≤ columns) × (columns ≤ length firsts.now) × (1 ≤ layout.now.most)
        × ((1 + layout.now.count + columns) * layout.now.most ≤ length room.old) }
    requires keys { Keys rows.now layout.now.count layout.now.masks
        × StatesNumbered layout.now.masks layout.now.count layout.now.most 1 room.old }
    requires progress { (t : Tree Leaf) → Prepared t rows.now layout.now.count
        → Progress classes.now t (take columns firsts.now) layout.now.count layout.now.most room.old 1 0 }
    ensures { (t : Tree Leaf) → Prepared t rows.now layout.now.count
        → Exploration classes.now t (take columns firsts.now) layout.now.count layout.now.most room.new result }
{
    let mut words = [0u64; MOST_PIECES];
    let mut states = 1;
    let mut p = 0;
    // A while: the end moves with each state that is found.
    while p < states * columns {
        let state = p / columns;
        let byte = firsts[p % columns];
        let entry = entry_of(rows, classes, layout, room, states, state, byte, &mut words);
        if entry > layout.most {
            return None;
        }
        states = enter(room, layout, states, p, entry, &words);
        p += 1;
    }
    Some(states)
}

// Finds the states of the table of steps of the tree that the rows are of, along the first bytes of its columns. The
// room has for each of `most` states first a word for its number, then the words of its marks, then a word for each
// column. Answers how many states there are without state 0, or that there is no room for all.
pub fn explore(
    rows: &[u64],
    count: usize,
    classes: &[u8],
    firsts: &[u8],
    columns: usize,
    most: usize,
    room: &mut [u64],
) -> Option<usize>
    requires ready { Ready rows.now count }
    requires le_columns { (1 ≤ columns) × (columns ≤ length firsts.now) × (1 ≤ most)
        × ((1 + count + columns) * most ≤ length room.old) }
    ensures { (t : Tree Leaf) → Prepared t rows.now count
        → Exploration classes.now t (take columns firsts.now) count most room.new result }
{
    let mut layout = Layout {
        masks: [0; MOST_PIECES],
        count,
        most,
    };
    note_keys(rows, count, &mut layout.masks);
    let mut words = [0u64; MOST_PIECES];
    begin(rows, count, &mut words);
    keep(room, &layout, 0, &words);
    explore_on(rows, classes, &layout, firsts, columns, room)
}
