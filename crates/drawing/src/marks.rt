// The marks under the places that made a node.
ghost use Rattle.std.specs.Prelude.{◌*◌, ◌≤◌, ◌≡◌, length};
ghost use Rattle.tree.specs.Layout.{record_size};
ghost use Rattle.printing.specs.Printer.{HasRoom, Puts};
ghost use Rattle.drawing.specs.Marks.{placed, mark, mark_at, marks};

use printing::print::Printer;
use showing::bytes::{put_spaces, shown_width};
use tree::layout::place_at;

// The byte of a mark, and the one where there is none.
const MARK: u8 = b'^';

const NO_MARK: u8 = b' ';

// Whether one of the first records has this place.
fn placed(list: &[u8], records: usize, place: usize) -> bool
    requires { record_size * records ≤ length list.now }
    ensures { result ≡ placed list.now records place }
{
    for i in (0..records).rev() {
        if place_at(list, i) == place {
            return true;
        }
    }
    false
}

// The byte under a place.
#[tactic(auto, unfolding(crate::specs::Marks::mark))]
fn mark(list: &[u8], records: usize, place: usize) -> u8
    requires { record_size * records ≤ length list.now }
    ensures { result ≡ mark list.now records place }
{
    if placed(list, records, place) {
        MARK
    } else {
        NO_MARK
    }
}

// Prints the mark under a byte of the rule, as wide as that byte is shown.
#[tactic(auto, unfolding(crate::specs::Marks::mark_at))]
fn put_mark(printer: &mut Printer, byte: u8, marked: u8)
    requires { HasRoom printer.old (length (mark_at marked byte)) }
    ensures { Puts printer.old (mark_at marked byte) printer.new }
{
    printer.put_byte(marked);
    put_spaces(printer, shown_width(byte) - 1);
}

// Prints the marks under a rule.
pub fn put_marks(printer: &mut Printer, rule: &[u8], list: &[u8], records: usize)
    requires inside { record_size * records ≤ length list.now }
    requires room { HasRoom printer.old
        (length (marks rule.now list.now records (length rule.now))) }
    ensures { Puts printer.old (marks rule.now list.now records (length rule.now)) printer.new }
{
    for (i, byte) in rule.iter().enumerate() {
        put_mark(printer, *byte, mark(list, records, i));
    }
}
