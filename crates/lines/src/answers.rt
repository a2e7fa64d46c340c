// An answer for each line, by a test of the lines.
ghost use Rattle.std.specs.Prelude.{◌≤◌, length};
ghost use Rattle.std.specs.Fn.{FnReturnsAt};
ghost use Rattle.input.specs.Lines.{lines};
ghost use Rattle.lines.specs.Promise.{LinesWritten};

use input::line::Lines;
use tree::counted::LineCounts;

// Writes what the test says of each line: 1 for yes, 0 for no.
pub fn answer_lines<F: Fn(&[u8]) -> bool>(text: &[u8], answers: &mut [u8], test: F) -> LineCounts
    requires callable { F.IsAlwaysCallable test }
    requires room { length (lines text.now) ≤ length answers.old }
    ensures { LinesWritten (FnReturnsAt F.Fn test) text.now answers.old
        answers.new result.lines result.yes }
{
    let mut counts = LineCounts { lines: 0, yes: 0 };
    for line in Lines::of(text) {
        let matched = test(line);
        answers[counts.lines] = u8::from(matched);
        counts.lines += 1;
        counts.yes += usize::from(matched);
    }
    counts
}
