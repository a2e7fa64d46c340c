// What of a state's marks counts: the starts of leaves, and the root's accepting state.
ghost use Rattle.std.specs.Prelude.{◌≤◌, ◌<◌, length};
ghost use Rattle.tables.specs.Words.{word_bits};
ghost use Rattle.tables.specs.Plan.{top_of};
ghost use Rattle.tables.specs.Tables.{Roomy};
ghost use Rattle.exploring.specs.Keys.{Keys};

use closing::bits::with_bit;
use tables::rows::PieceRow;

// Notes the masks under which words are compared: the starts of leaves, and in the first the root's accepting state.
pub fn note_keys(rows: &[u64], count: usize, masks: &mut [u64])
    requires { (1 ≤ count) × (count ≤ length masks.old) × Roomy count rows.now
        × (top_of rows.now 0 < word_bits) }
    ensures { Keys rows.now count masks.new }
{
    for k in 0..count {
        masks[k] = PieceRow { rows, piece: k }.word(2);
    }
    let root = PieceRow { rows, piece: 0 };
    let leaves = masks[0];
    masks[0] = with_bit(leaves, root.top());
}
