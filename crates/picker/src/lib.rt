// The whole output of `pick`, from the bytes that it reads.
#![tactic(auto)]

mod texts;

ghost use Rattle.std.specs.Prelude.{◌≤◌, [], length};
ghost use Rattle.finder.specs.Decide.{matches};
ghost use Rattle.printing.specs.OutputLimits.{longest_input, most_output};
ghost use Rattle.input.specs.Lines.{lines, expression, texts};
ghost use Rattle.reporting.specs.Print.{reading_outcome, reported, picked};
ghost use Rattle.printing.specs.Printing.{Prints};
ghost use Rattle.picker.specs.Promise.{Picks};

use input::line::{Lines, next_line};
use printing::print::Printer;
use printing::report::{refusal_line, too_long_line};
use reader::read;
use texts::list_texts;
use tree::layout::RECORD_SIZE;
use tree::limits::MOST_RECORDS;
use tree::refusal::Refusal;

// The most bytes that an input may have.
pub const LONGEST_INPUT: usize = 65536;

// The most bytes that the output can have.
pub const MOST_OUTPUT: usize = 1048575;

// Prints what is reported for an input: the expression is read once, and its tables are made once for all texts.
fn report_lines(input: &[u8], out: &mut [u8]) -> usize
    requires short { length input.now ≤ longest_input }
    requires room { most_output ≤ length out.old }
    ensures { Prints out.old 0
        (reported (matches []) (reading_outcome (expression (lines input.now)))
        (texts (lines input.now)))
        out.new result }
{
    let mut lines = Lines::of(input);
    let expression = lines.next().unwrap_or(b"");
    let mut list = [0u8; RECORD_SIZE * MOST_RECORDS];
    match read(expression, &mut list) {
        Ok(read) => {
            let bytes = input.len() - next_line(input, expression.len());
            list_texts(&list[..RECORD_SIZE * read.records], bytes, lines, out)
        }
        Err(refused) => {
            let mut printer = Printer::new(out);
            refusal_line(&mut printer, refused.refusal.number(), refused.place);
            printer.at
        }
    }
}

// Writes the whole output of `pick` for an input into a buffer, and answers how many bytes it has; or the buffer is
// shorter than the longest output.
pub fn pick(input: &[u8], output: &mut [u8]) -> Result<usize, Refusal>
    ensures { Picks input.now output.old output.new result }
{
    if output.len() < MOST_OUTPUT {
        return Err(Refusal::BufferTooShort);
    }
    if input.len() > LONGEST_INPUT {
        return Ok(too_long_line(output));
    }
    Ok(report_lines(input, output))
}
