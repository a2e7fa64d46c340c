// The line of an expression, cut round a place where it is too long, and the line with the caret under that place.
ghost use Rattle.std.specs.Prelude.{◌+◌, ◌≤◌, ◌≡◌, length, drop};
ghost use Rattle.printing.specs.Printer.{HasRoom, Puts};
ghost use Rattle.showing.specs.CutShort.{
  fitting,
  fits_whole,
  cut_begins,
  cut_start,
  cut_end,
  dots,
  before_place,
  from_place,
  caret_place,
  marked_lines,
  most_marked,
  most_columns,
};

use crate::bytes::{put_shown, put_spaces, shown_width};
use printing::print::Printer;

// How many columns a line may have, and each side of a place where not all of the expression is shown.
const MOST_COLUMNS: usize = 78;

const SIDE_COLUMNS: usize = 36;

// How many bytes from the front on take at most so many columns.
fn fitting(bytes: &[u8], room: usize) -> usize
    ensures { result ≡ fitting room bytes.now }
{
    let mut left = room;
    for (i, byte) in bytes.iter().enumerate() {
        let columns = shown_width(*byte);
        if left < columns {
            return i;
        }
        left -= columns;
    }
    bytes.len()
}

// Where the longest part before a place begins that takes at most so many columns.
fn part_start(bytes: &[u8], place: usize, room: usize) -> usize
    requires { place ≤ length bytes.now }
    ensures { result ≡ cut_begins bytes.now room place }
{
    let mut left = room;
    for before in (0..place).rev() {
        let columns = shown_width(bytes[before]);
        if left < columns {
            return before + 1;
        }
        left -= columns;
    }
    0
}

// Whether all bytes fit in a line.
fn fits_whole(bytes: &[u8]) -> bool
    ensures { result ≡ fits_whole bytes.now }
{
    fitting(bytes, MOST_COLUMNS) == bytes.len()
}

// Where what is shown begins.
#[tactic(auto, unfolding(crate::specs::CutShort::cut_start))]
fn cut_start(bytes: &[u8], place: usize) -> usize
    requires { place ≤ length bytes.now }
    ensures { result ≡ cut_start bytes.now place }
{
    if fits_whole(bytes) {
        0
    } else {
        part_start(bytes, place, SIDE_COLUMNS)
    }
}

// Where what is shown ends.
#[tactic(auto, unfolding(crate::specs::CutShort::cut_end))]
fn cut_end(bytes: &[u8], place: usize) -> usize
    requires { place ≤ length bytes.now }
    ensures { result ≡ cut_end bytes.now place }
{
    if fits_whole(bytes) {
        bytes.len()
    } else {
        place + fitting(&bytes[place..], SIDE_COLUMNS)
    }
}

// Prints `...` where something is left out.
fn put_dots(printer: &mut Printer, cut: bool)
    requires { HasRoom printer.old (length (dots cut)) }
    ensures { Puts printer.old (dots cut) printer.new }
{
    if cut {
        printer.put(b"...");
    }
}

// Prints what is shown before the place.
fn put_before(printer: &mut Printer, bytes: &[u8], place: usize)
    requires inside { place ≤ length bytes.now }
    requires room { HasRoom printer.old (length (before_place bytes.now place)) }
    ensures { Puts printer.old (before_place bytes.now place) printer.new }
{
    let start = cut_start(bytes, place);
    put_dots(printer, 0 < start);
    put_shown(printer, &bytes[start..place]);
}

// Prints what is shown from the place on.
fn put_from(printer: &mut Printer, bytes: &[u8], place: usize)
    requires inside { place ≤ length bytes.now }
    requires room { HasRoom printer.old (length (from_place bytes.now place)) }
    ensures { Puts printer.old (from_place bytes.now place) printer.new }
{
    let end = cut_end(bytes, place);
    put_shown(printer, &bytes[place..end]);
    put_dots(printer, end < bytes.len());
}

// The place, or the end where it lies past that.
fn caret_place(bytes: &[u8], place: usize) -> usize
    ensures { result ≡ caret_place bytes.now place }
{
    place.min(bytes.len())
}

// Prints the line of an expression and the line with the caret.
pub fn put_marked(printer: &mut Printer, bytes: &[u8], place: usize)
    requires { HasRoom printer.old (length (marked_lines bytes.now place)) }
    ensures { Puts printer.old (marked_lines bytes.now place) printer.new }
{
    let under = caret_place(bytes, place);
    let start = printer.at;
    put_before(printer, bytes, under);
    let columns = printer.at - start;
    put_from(printer, bytes, under);
    printer.put(b"\n");
    put_spaces(printer, columns);
    printer.put(b"^\n");
}
