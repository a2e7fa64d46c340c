// Which bytes a leaf takes: a character takes one, a class those of its record.
ghost use Rattle.std.specs.Prelude.{◌≡◌, ◌+◌, ◌<◌};
ghost use Rattle.tree.specs.Leaf.{InClass};
ghost use Rattle.tables.specs.Words.{word_bits};
ghost use Rattle.tables.specs.Plan.{class_of};
ghost use Rattle.closing.specs.BitsOfWords.Bits.{Tells};
ghost use Rattle.moving.specs.Codes.{class_limit, CodeTakes};

use tables::rows::PieceRow;
use tree::layout::CLASS_RECORD_SIZE;

// A class's number is a byte, and so many times the two high bits of the next one.
const BYTES: usize = 256;
// The two high bits of a byte stand above so many.
const WORD_BITS: usize = 64;

// The number of the class that starts at a state, by the row of its piece.
pub fn class_of(row: PieceRow, state: usize) -> usize
    requires { state + 1 < word_bits }
    ensures { (result ≡ class_of row.entry.rows.now row.entry.piece state) × (result < class_limit) }
{
    row.byte(state) + BYTES * (row.byte(state + 1) / WORD_BITS)
}

// Whether the byte lies in the class of this number: by one bit of its record. A byte past the buffer's end counts as
// 0.
pub fn in_class(classes: &[u8], number: usize, byte: u8) -> bool
    requires { number < class_limit }
    ensures { Tells (InClass classes.now number byte) result }
{
    let bits = classes.get(CLASS_RECORD_SIZE * number + usize::from(byte) / 8);
    bits.is_some_and(|bits| (bits >> (byte % 8)) % 2 == 1)
}

// Whether the leaf of this number takes the byte. A character is told by one comparison.
pub fn takes_byte(classes: &[u8], number: u16, byte: u8) -> bool
    ensures { Tells (CodeTakes classes.now number byte) result }
{
    number == 2 * (u16::from(byte) + 1)
        || (number % 2 == 1 && in_class(classes, usize::from(number / 2), byte))
}
