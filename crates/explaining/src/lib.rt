// The whole output of `explain`, from the bytes that it reads.
#![tactic(auto)]

ghost use Rattle.std.specs.Prelude.{◌≤◌, length};
ghost use Rattle.printing.specs.Printing.{Prints};
ghost use Rattle.explaining.specs.Explained.{explained_rule, most_explained};
ghost use Rattle.explaining.specs.Promise.{Explains};

use drawing::draw;
use input::line::Lines;
use printing::print::Printer;
use printing::report::too_long_line;
use reader::read_second;
use showing::refusal;
use tree::layout::{CLASS_RECORD_SIZE, RECORD_SIZE};
use tree::limits::MOST_RECORDS;
use tree::refusal::Refusal;

// The most bytes that an input may have.
const LONGEST_INPUT: usize = 65536;

// The most bytes that the output can have.
pub const MOST_EXPLAINED: usize = 184861;

// Prints what is said of a rule: its refusal, or its records drawn; answers how many bytes that is.
fn explain_rule(rule: &[u8], out: &mut [u8]) -> usize
    requires { most_explained ≤ length out.old }
    ensures { Prints out.old 0 (explained_rule rule.now) out.new result }
{
    let mut list = [0u8; RECORD_SIZE * MOST_RECORDS];
    let mut classes = [0u8; CLASS_RECORD_SIZE * MOST_RECORDS];
    match read_second(rule, &mut list, &mut classes) {
        Ok(counts) => {
            let mut printer = Printer::new(out);
            draw(
                &mut printer,
                rule,
                &list[..RECORD_SIZE * counts.records],
                counts.records,
            );
            printer.at
        }
        Err(refused) => refusal(rule, refused.refusal.number(), refused.place, out),
    }
}

// Writes the whole output of `explain` for an input into a buffer, and answers how many bytes it has; or the buffer is
// shorter than the longest output.
pub fn explain(input: &[u8], output: &mut [u8]) -> Result<usize, Refusal>
    ensures { Explains input.now output.old output.new result }
{
    if output.len() < MOST_EXPLAINED {
        return Err(Refusal::BufferTooShort);
    }
    if input.len() > LONGEST_INPUT {
        return Ok(too_long_line(output));
    }
    let rule = Lines::of(input).next().unwrap_or(b"");
    Ok(explain_rule(rule, output))
}
