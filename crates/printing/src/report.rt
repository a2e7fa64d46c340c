// The lines of the output.
ghost use Rattle.std.specs.Prelude.{◌≤◌, length};
ghost use Rattle.printing.specs.ReportLines.{text_line, total_line, refused_at, refusal_line, too_long_line};
ghost use Rattle.printing.specs.Printing.{Prints};
ghost use Rattle.printing.specs.Printer.{HasRoom, Puts};

use crate::print::Printer;

// Prints the line of a text: its number, `yes` and its rank, or `no`.
pub fn text_line(printer: &mut Printer, yes: bool, number: usize, rank: usize)
    requires { HasRoom printer.old (length (text_line yes number rank)) }
    ensures { Puts printer.old (text_line yes number rank) printer.new }
{
    printer.put_number(number);
    if yes {
        printer.put(b" yes ");
        printer.put_number(rank);
        printer.put_byte(b'\n');
    } else {
        printer.put(b" no -\n");
    }
}

// Prints a refusal: its number, and its place. Any number is printed, as the definition has it.
pub fn put_refused(printer: &mut Printer, number: u8, place: usize)
    requires { HasRoom printer.old (length (refused_at number place)) }
    ensures { Puts printer.old (refused_at number place) printer.new }
{
    printer.put(b"refused ");
    printer.put_number(usize::from(number));
    printer.put(b" at ");
    printer.put_number(place);
}

// Prints the only line for an expression that is refused.
pub fn refusal_line(printer: &mut Printer, number: u8, place: usize)
    requires { HasRoom printer.old (length (refusal_line number place)) }
    ensures { Puts printer.old (refusal_line number place) printer.new }
{
    put_refused(printer, number, place);
    printer.put(b"\n");
}

// Prints the last line: how many texts, yes lines and no lines.
pub fn total_line(printer: &mut Printer, count: usize, yes: usize)
    requires ordered { yes ≤ count }
    requires room { HasRoom printer.old (length (total_line count yes)) }
    ensures { Puts printer.old (total_line count yes) printer.new }
{
    printer.put(b"total ");
    printer.put_number(count);
    printer.put(b" yes ");
    printer.put_number(yes);
    printer.put(b" no ");
    printer.put_number(count - yes);
    printer.put(b"\n");
}

// Writes the only line for an input that is too long to the front of a buffer, and answers its length.
pub fn too_long_line(out: &mut [u8]) -> usize
    requires { length too_long_line ≤ length out.old }
    ensures { Prints out.old 0 too_long_line out.new result }
{
    let mut printer = Printer::new(out);
    printer.put(b"input too long\n");
    printer.at
}
