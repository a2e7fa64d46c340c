// Whether a buffer has a byte for each line of a text.
ghost use Rattle.std.specs.Prelude.{◌≤◌, length};
ghost use Rattle.closing.specs.BitsOfWords.Bits.{Tells};
ghost use Rattle.input.specs.Lines.{lines};

use input::line::Lines;

// Whether so many bytes are enough. Each line takes a byte of the text at least, so most buffers are known to be long
// enough with no line counted.
pub fn has_room(text: &[u8], room: usize) -> bool
    ensures { Tells (length (lines text.now) ≤ room) result }
{
    text.len() <= room || Lines::of(text).count() <= room
}
