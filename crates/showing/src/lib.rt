// How an expression that is refused is shown: the expression, a caret under the place, and the refusal in words.
#![tactic(auto)]

pub mod bytes;
pub mod cut;

ghost use Rattle.std.specs.Prelude.{◌≤◌, length};
ghost use Rattle.printing.specs.Printing.{Prints};
ghost use Rattle.showing.specs.Refusal.{lent_refusal};

use cut::put_marked;
use printing::print::Printer;
use wording::words::put_told;

// How many bytes of a buffer are always enough for the three lines of a refusal.
pub const MOST_SHOWN: usize = 256;

// Writes the three lines of a refusal to the front of a buffer, and answers their length; nothing, and 0, where the
// buffer is too short for some refusal.
pub fn refusal(expression: &[u8], number: u8, place: usize, out: &mut [u8]) -> usize
    ensures { Prints out.old 0
        (lent_refusal (length out.old) expression.now number place) out.new result }
{
    if out.len() < MOST_SHOWN {
        return 0;
    }
    let mut printer = Printer::new(out);
    put_marked(&mut printer, expression, place);
    put_told(&mut printer, number, place);
    printer.at
}
