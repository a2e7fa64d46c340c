// Standard input, read whole, and what fails, told on standard error: what the programs do around their work.
#![tactic(auto)]

ghost use Rattle.std.specs.Prelude.{◌≡◌, length};
ghost use Rattle.std.specs.Io.{ReadsAtMost};
ghost use Rattle.streams.specs.ReadWithin.{ReadWithin};

use std::alloc::Global;
use std::io;
use std::io::{ErrorKind, Read};
use std::process::ExitCode;

// So many times a read is tried at most, so that the program ends however often it is interrupted.
const MOST_TRIES: usize = 1000000;

// One read of the input; a read that a signal interrupted is tried again.
fn read_part(stdin: &mut impl Read, part: &mut [u8]) -> io::Result<usize>
    ensures { ReadsAtMost result part.new }
{
    for _ in 1..MOST_TRIES {
        match stdin.read(part) {
            Err(error) if error.kind() == ErrorKind::Interrupted => {}
            got => return got,
        }
    }
    stdin.read(part)
}

// Reads the input, which may come in many parts, into a buffer: up to the input's end, or as many bytes as there is
// space for; answers how many were read.
pub fn read_input(stdin: &mut impl Read, input: &mut [u8]) -> io::Result<usize>
    ensures { ReadWithin input.new result }
{
    let mut count = 0;
    // The count grows by what each read gives, so it is no index of a `for`.
    while count < input.len() {
        let more = read_part(stdin, &mut input[count..])?;
        if more == 0 {
            break;
        }
        count += more;
    }
    Ok(count)
}

// Why something failed, in the system's words, without the error's number behind them.
fn reason(said: &str) -> &str {
    match said.split_once(" (os error ") {
        Some((words, _)) => words,
        None => said,
    }
}

// Says on standard error, which is lent, what failed and why.
fn tell(stderr: &impl Print, alloc: Global, what: &str, error: io::Error) -> io::Result<()> {
    let said = format!(in alloc; "{error}")?;
    let words = reason(&said);
    println!(stderr; "{what}: {words}")
}

// The exit status where nobody reads the output any more: a shell's for a program that the signal for it ends.
const NOBODY_READS: u8 = 141;

// Says on standard error what failed and why, but not that nobody reads the output any more; answers the exit status.
pub fn fail(stderr: &impl Print, alloc: Global, what: &str, error: io::Error) -> ExitCode {
    if error.kind() == ErrorKind::BrokenPipe {
        return ExitCode::from(NOBODY_READS);
    }
    let _ = tell(stderr, alloc, what, error);
    ExitCode::SUCCESS
}
