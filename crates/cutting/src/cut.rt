// The cut at one node, by the open sizes of its children: 0 stands for a child that is not there.
ghost use Rattle.std.specs.Prelude.{◌≡◌, ◌+◌, ◌≤◌, ◌<◌};
ghost use Rattle.tree.specs.Limits.{most_nodes};
ghost use Rattle.tree.specs.Cut.{cut_left, cut_right, kept, one};
ghost use Rattle.tree.specs.Numbering.{child_piece};
ghost use Rattle.cutting.specs.Gathered.{open_sum, cut_sum};

use tree::limits::MOST_NODES;

// Whether the left or only child is cut off: it is the larger, or as large, where the two pass 15.
pub fn cut_left(l: u16, r: u16) -> bool
    requires { (l ≤ most_nodes) × (r ≤ most_nodes) }
    ensures { result ≡ cut_left l r }
{
    MOST_NODES < 1 + l + r && (r <= l || MOST_NODES < 1 + l)
}

// Whether the right child is cut off: it is the larger where the two pass 15.
pub fn cut_right(l: u16, r: u16) -> bool
    requires { (l ≤ most_nodes) × (r ≤ most_nodes) }
    ensures { result ≡ cut_right l r }
{
    MOST_NODES < 1 + l + r && (l < r || MOST_NODES < 1 + r)
}

// Which children are cut off, the left or only one first. Nearly every node is in one piece with both: there one test is
// enough.
pub fn cut_off(l: u16, r: u16) -> (bool, bool)
    requires { (l ≤ most_nodes) × (r ≤ most_nodes) }
    ensures { (result.0 ≡ cut_left l r) × (result.1 ≡ cut_right l r) }
{
    if 1 + l + r <= MOST_NODES {
        return (false, false);
    }
    (cut_left(l, r), cut_right(l, r))
}

// 1 for a cut edge.
pub fn one_if(cut: bool) -> u16
    ensures { result ≡ one cut }
{
    u16::from(cut)
}

// What a child adds to its parent's open size.
pub fn kept_size(cut: bool, size: u16) -> u16
    ensures { result ≡ kept cut size }
{
    if cut { 0 } else { size }
}

// A child's piece: a new one where the edge is cut, else its parent's.
pub fn piece_below(cut: bool, piece: u16, new: u16) -> u16
    ensures { result ≡ child_piece cut piece new }
{
    if cut { new } else { piece }
}

// A node's open size.
pub fn open_size(l: u16, r: u16) -> u16
    requires { (l ≤ most_nodes) × (r ≤ most_nodes) }
    ensures { result ≡ open_sum l r }
{
    let (left, right) = cut_off(l, r);
    1 + kept_size(left, l) + kept_size(right, r)
}

// The cut edges at and below a node.
pub fn cut_count(l: u16, r: u16, below_left: u16, below_right: u16) -> u16
    requires l_le_most_nodes { (l ≤ most_nodes) × (r ≤ most_nodes) }
    requires below_right_bound { below_left + below_right < 65000 }
    ensures { result ≡ cut_sum l r below_left below_right }
{
    let (left, right) = cut_off(l, r);
    one_if(left) + below_left + (one_if(right) + below_right)
}
