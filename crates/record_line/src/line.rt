// The line of a record.
ghost use Rattle.std.specs.Prelude.{◌+◌, ◌*◌, ◌≤◌, length};
ghost use Rattle.tree.specs.Layout.{record_size};
ghost use Rattle.printing.specs.Printer.{HasRoom, Puts};
ghost use Rattle.record_line.specs.Depth.{most_level};
ghost use Rattle.record_line.specs.Node.{column, numbers_of, node_of, record_line};

use crate::node::{kind_word, put_held};
use printing::print::Printer;
use showing::bytes::put_spaces;
use tree::layout::{kind_at, piece_at, place_at};

// How wide a column is.
const COLUMN: usize = 7;

// Prints a number, and spaces up to the next column.
#[tactic(auto, unfolding(crate::specs::Node::column))]
fn put_column(printer: &mut Printer, n: usize)
    requires { HasRoom printer.old (length (column n)) }
    ensures { Puts printer.old (column n) printer.new }
{
    let start = printer.at;
    printer.put_number(n);
    let digits = printer.at - start;
    put_spaces(printer, COLUMN.saturating_sub(digits));
}

// Prints the numbers of a record: its own, its piece and its place.
#[tactic(auto, unfolding(crate::specs::Node::numbers_of))]
fn put_numbers(printer: &mut Printer, list: &[u8], i: usize)
    requires inside { record_size * i + record_size ≤ length list.now }
    requires room { HasRoom printer.old (length (numbers_of list.now i)) }
    ensures { Puts printer.old (numbers_of list.now i) printer.new }
{
    put_column(printer, i);
    put_column(printer, piece_at(list, i));
    put_column(printer, place_at(list, i));
}

// Prints what a record is and what it holds.
#[tactic(auto, unfolding(crate::specs::Node::node_of))]
fn put_node(printer: &mut Printer, list: &[u8], i: usize)
    requires inside { record_size * i + record_size ≤ length list.now }
    requires room { HasRoom printer.old (length (node_of list.now i)) }
    ensures { Puts printer.old (node_of list.now i) printer.new }
{
    printer.put(kind_word(kind_at(list, i)));
    put_held(printer, list, i);
    printer.put(b"\n");
}

// Prints the line of a record, its node indented by its level.
#[tactic(auto, unfolding(crate::specs::Node::record_line))]
pub fn put_line(printer: &mut Printer, list: &[u8], i: usize, level: usize)
    requires inside { record_size * i + record_size ≤ length list.now }
    requires low { level ≤ most_level }
    requires room { HasRoom printer.old (length (record_line list.now i level)) }
    ensures { Puts printer.old (record_line list.now i level) printer.new }
{
    put_numbers(printer, list, i);
    put_spaces(printer, 2 * level);
    put_node(printer, list, i);
}
