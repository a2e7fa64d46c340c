// Whether labels are those of one tree in postorder: a count of the trees that wait for a parent.
ghost use Rattle.std.specs.Prelude.{◌≡◌, ◌≤◌, length};
ghost use Rattle.tree.specs.Limits.{most_labels};
ghost use Rattle.tree.specs.Postorder.{asked};
ghost use Rattle.ordering.specs.Depth.{depth_after, OneTree};

use tree::layout::{
    CATENATION_LABEL, CHARACTER_LABEL, CLASS_LABEL, EMPTY_LABEL, STAR_LABEL, UNION_LABEL,
};

// How many trees wait after a label; 0 where the label has not its operands, or is none.
fn depth_with(label: u16, depth: usize) -> usize
    requires { depth ≤ most_labels }
    ensures { result ≡ depth_after (asked label) depth }
{
    if label % 256 == CHARACTER_LABEL {
        return depth + 1;
    }
    if matches!(label, CATENATION_LABEL | UNION_LABEL) {
        return depth.saturating_sub(1);
    }
    if label == STAR_LABEL {
        return depth;
    }
    if label % 8 == CLASS_LABEL {
        return depth + 1;
    }
    if label == EMPTY_LABEL {
        return depth + 1;
    }
    0
}

// A parent takes its children's trees and leaves its own, so one tree is left at the end.
pub fn one_tree(labels: &[u16]) -> bool
    requires { length labels.now ≤ most_labels }
    ensures { OneTree labels.now result }
{
    let mut depth = 0;
    for label in labels {
        depth = depth_with(*label, depth);
        if depth == 0 {
            return false;
        }
    }
    depth == 1
}
