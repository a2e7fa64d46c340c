// How deep each record lies in the tree, from the root down: a record tells its children.
ghost use Rattle.std.specs.Prelude.{◌+◌, ◌*◌, ◌≤◌, ◌<◌, ◌≡◌, length, set};
ghost use Rattle.tree.specs.Layout.{record_size};
ghost use Rattle.record_line.specs.Depth.{most_level, level, told_children};

use tree::layout::{CLASS, kind_at, left_at, right_at};

// A line is indented by so many levels at most.
const MOST_LEVEL: usize = 20;

// The level at which a record is drawn.
#[tactic(auto, unfolding(record_line::specs::Depth::level))]
pub fn level(table: &[usize], i: usize) -> usize
    requires { i < length table.now }
    ensures { (result ≡ level table.now i) × (result ≤ most_level) }
{
    table[i].min(MOST_LEVEL)
}

// Writes a depth for a child, where there is such a child.
fn tell(table: &mut [usize], child: usize, depth: usize)
    ensures { table.new ≡ set table.old child depth }
{
    if child < table.len() {
        table[child] = depth;
    }
}

// A record tells its children that they are one level deeper; a class has none, though it has a number there.
#[tactic(auto, unfolding(record_line::specs::Depth::told_children))]
pub fn tell_children(table: &mut [usize], list: &[u8], i: usize, depth: usize)
    requires inside { record_size * i + record_size ≤ length list.now }
    requires low { depth ≤ most_level }
    ensures { table.new ≡ told_children list.now table.old i depth }
{
    if kind_at(list, i) != CLASS {
        tell(table, left_at(list, i), depth + 1);
        tell(table, right_at(list, i), depth + 1);
    }
}
