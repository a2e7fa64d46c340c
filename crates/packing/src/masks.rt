// The masks of a piece, made of its codes: which states lead to the next one, which jump, which are starts of leaves,
// and which of these are starts of classes.
ghost use Rattle.std.specs.Prelude.{◌+◌, ◌*◌, ◌≤◌, ◌<◌, length};
ghost use Rattle.tables.specs.Plan.{row_size, row_words, LeadsOn, Jumps, IsLeaf, IsClass};
ghost use Rattle.closing.specs.BitsOfWords.Bits.{Tells};
ghost use Rattle.packing.specs.Masks.{MasksNoted};

use closing::bits::set_where;
use tables::ROW_WORDS;

// Whether a state with this code leads to the next one.
fn leads_on(code: u16) -> bool
    ensures { Tells (LeadsOn code) result }
{
    code % 2 == 1
}

// Whether a state with this code jumps.
fn jumps(code: u16) -> bool
    ensures { Tells (Jumps code) result }
{
    code / 2 % 2 == 1
}

// Whether a state with this code is the start of a leaf that may take a byte.
pub fn is_leaf(code: u16) -> bool
    ensures { Tells (IsLeaf code) result }
{
    code != 0 && code % 4 == 0
}

// Whether a state with this code is the start of a class.
pub fn is_class(code: u16) -> bool
    ensures { Tells (IsClass code) result }
{
    code % 8 == 4
}

// Makes the masks of a piece of so many states: the first four words of its row.
pub fn note_masks(rows: &mut [u64], piece: usize, codes: &[u16], states: usize)
    requires { (row_words * piece + row_words ≤ length rows.old) × (row_size ≤ length codes.now)
        × (states ≤ row_size) }
    ensures { MasksNoted codes.now rows.old rows.new piece states }
{
    let mut on: u64 = 0;
    let mut jumping: u64 = 0;
    let mut leaves: u64 = 0;
    let mut classes: u64 = 0;
    for state in 0..states {
        let code = codes[state];
        on = set_where(on, state, leads_on(code));
        jumping = set_where(jumping, state, jumps(code));
        leaves = set_where(leaves, state, is_leaf(code));
        classes = set_where(classes, state, is_class(code));
    }
    let at = ROW_WORDS * piece;
    rows[at] = on;
    rows[at + 1] = jumping;
    rows[at + 2] = leaves;
    rows[at + 3] = classes;
}
