// The row of a piece.
ghost use Rattle.std.specs.Prelude.{◌+◌, ◌*◌, ◌≤◌, ◌<◌, length};
ghost use Rattle.tables.specs.Plan.{row_words};
ghost use Rattle.packing.specs.Packing.{Packable, Packed};

use crate::bytes::note_bytes;
use crate::masks::note_masks;
use tables::ROW_WORDS;
use tables::rows::NUMBERS;

// Writes the row of a piece, of the codes of its states: the masks, then the run, the number of the stand-in's start
// and that of the last state in one word, then the bytes.
pub fn pack(rows: &mut [u64], piece: usize, codes: &[u16], states: usize, run: usize, stand: usize)
    requires packable { Packable codes.now states }
    requires row_words_in_bounds { (row_words * piece + row_words ≤ length rows.old) × (run < 256) × (stand < 256) }
    ensures { Packed codes.now rows.old rows.new piece states run stand }
{
    note_masks(rows, piece, codes, states);
    rows[ROW_WORDS * piece + NUMBERS] = (run + 256 * stand + 65536 * (states - 1)) as u64;
    note_bytes(rows, piece, codes, states);
}
