// The bytes of a piece's states, eight to a word: where a state jumps to, or which leaf starts there.
ghost use Rattle.std.specs.Prelude.{◌+◌, ◌*◌, ◌≤◌, ◌<◌, length};
ghost use Rattle.tables.specs.Plan.{row_size, row_words};
ghost use Rattle.packing.specs.StateBytes.{ByteBy, ByteAt, EightBytes, BytesNoted};

use crate::masks::{is_class, is_leaf};
use tables::ROW_WORDS;
use tables::rows::{STATES, WORD_BYTES};

// How many values a byte has.
const BYTES: u64 = 256;

// The byte of a state by its code and by that of the state before it. Above the number that a state jumps to stand the
// two bits that are read where the state before it is a class's start.
fn byte_by(before: u16, code: u16) -> u16
    ensures { ByteBy before code result }
{
    if is_class(code) {
        return code / 8 % 256;
    }
    if is_leaf(code) {
        return (code / 8 - 1) % 256;
    }
    code / 4 % 64 + 64 * (before / 2048 % 4)
}

// The byte of a state.
fn byte_at(codes: &[u16], state: usize) -> u16
    requires { state < length codes.now }
    ensures { ByteAt codes.now state result }
{
    if state == 0 {
        return byte_by(0, codes[0]);
    }
    byte_by(codes[state - 1], codes[state])
}

// The word of the bytes of eight states, from the first of them on.
fn eight_bytes(codes: &[u16], first: usize) -> u64
    requires { (first + 8 ≤ row_size) × (row_size ≤ length codes.now) }
    ensures { EightBytes codes.now first result }
{
    let mut word: u64 = 0;
    for place in (0..WORD_BYTES).rev() {
        word = word * BYTES + u64::from(byte_at(codes, first + place));
    }
    word
}

// Makes the bytes of a piece of so many states: the last eight words of its row, as far as there are states.
pub fn note_bytes(rows: &mut [u64], piece: usize, codes: &[u16], states: usize)
    requires { (row_words * piece + row_words ≤ length rows.old) × (row_size ≤ length codes.now)
        × (states ≤ row_size) }
    ensures { BytesNoted codes.now rows.old rows.new piece states }
{
    let base = ROW_WORDS * piece + STATES;
    for word in 0..states.div_ceil(WORD_BYTES) {
        rows[base + word] = eight_bytes(codes, WORD_BYTES * word);
    }
}
