// A rule and its records drawn: the rule, a mark under each place that made a node, and a line for each record.
#![tactic(auto)]

pub mod depth;
pub mod marks;

ghost use Rattle.std.specs.Prelude.{◌*◌, ◌≤◌, ◌≡◌, length};
ghost use Rattle.tree.specs.Layout.{record_size};
ghost use Rattle.tree.specs.Limits.{longest_expression, most_records};
ghost use Rattle.printing.specs.Printer.{HasRoom, Puts};
ghost use Rattle.drawing.specs.Drawing.{gap, record_lines, drawing, most_drawn};

use depth::{level, tell_children};
use marks::put_marks;
use printing::print::Printer;
use record_line::line::put_line;
use showing::bytes::put_shown;
use tree::layout::piece_at;
use tree::limits::MOST_RECORDS;

// Prints an empty line where a piece is not that of the line above.
fn put_gap(printer: &mut Printer, above: usize, piece: usize)
    requires { HasRoom printer.old (length (gap above piece)) }
    ensures { Puts printer.old (gap above piece) printer.new }
{
    if above != piece {
        printer.put(b"\n");
    }
}

// Prints a line for each record, the root's first, with an empty line between two of different pieces.
fn put_records(printer: &mut Printer, list: &[u8], records: usize)
    requires few { records ≤ most_records }
    requires long { length list.now ≡ record_size * records }
    requires room { HasRoom printer.old (length (record_lines list.now records)) }
    ensures { Puts printer.old (record_lines list.now records) printer.new }
{
    let mut table = [0usize; MOST_RECORDS];
    let mut above = 0;
    for i in (0..records).rev() {
        let piece = piece_at(list, i);
        put_gap(printer, above, piece);
        let depth = level(&table, i);
        put_line(printer, list, i, depth);
        tell_children(&mut table, list, i, depth);
        above = piece;
    }
}

// Prints the rule, its marks and its records.
pub fn draw(printer: &mut Printer, rule: &[u8], list: &[u8], records: usize)
    requires few { records ≤ most_records }
    requires long { length list.now ≡ record_size * records }
    requires short { length rule.now ≤ longest_expression }
    requires room { HasRoom printer.old most_drawn }
    ensures { Puts printer.old (drawing rule.now list.now records) printer.new }
{
    put_shown(printer, rule);
    printer.put(b"\n");
    put_marks(printer, rule, list, records);
    printer.put(b"\n\nrecord piece  place  node\n");
    put_records(printer, list, records);
}
