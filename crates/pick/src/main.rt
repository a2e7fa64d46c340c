// Reads standard input, and writes which of its later lines match its first one, and on standard error why it is
// refused.
#![tactic(auto)]

ghost use Rattle.std.specs.Prelude.{◌≤◌, length};
ghost use Rattle.printing.specs.Printing.{Prints};
ghost use Rattle.showing.specs.Refusal.{most_shown};
ghost use Rattle.pick.specs.Space.{Space};
ghost use Rattle.pick.specs.Said.{said_of_expression, said};

use checker::check;
use input::line::Lines;
use picker::{LONGEST_INPUT, MOST_OUTPUT};
use printing::print::Printer;
use showing::{MOST_SHOWN, refusal};
use std::alloc::Global;
use std::io::Read;
use std::process::ExitCode;
use streams::{fail, read_input};

// Puts what is said of an expression into a buffer: where and why it is refused, nothing where it is not.
fn put_refusal(expression: &[u8], out: &mut [u8]) -> usize
    requires room { most_shown ≤ length out.old }
    ensures { Prints out.old 0 (said_of_expression expression.now) out.new result }
{
    match check(expression) {
        Ok(_) => 0,
        Err(refused) => refusal(expression, refused.refusal.number(), refused.place, out),
    }
}

// Puts what is said of an input into a buffer.
fn put_said(input: &[u8], out: &mut [u8]) -> usize
    requires room { most_shown ≤ length out.old }
    ensures { Prints out.old 0 (said input.now) out.new result }
{
    if input.len() > LONGEST_INPUT {
        let mut printer = Printer::new(out);
        printer.put(b"refused: the input has more than 65,536 bytes\n");
        return printer.at;
    }
    let expression = Lines::of(input).next().unwrap_or(b"");
    put_refusal(expression, out)
}

// Says on standard error why an input is refused.
fn tell_refusal(stderr: &impl Print, input: &[u8]) {
    let mut said = [0u8; MOST_SHOWN];
    let length = put_said(input, &mut said);
    let _ = stderr.write_all(&said[..length]);
}

// Writes the output for an input, by way of a buffer that is long enough for every output, and then why it is refused.
fn write_output(
    stdout: &impl Print,
    stderr: &impl Print,
    alloc: Global,
    input: &[u8],
    output: &mut [u8],
) -> ExitCode {
    let Ok(length) = picker::pick(input, output) else {
        return ExitCode::SUCCESS;
    };
    if let Err(error) = stdout.write_all(&output[..length]) {
        return fail(stderr, alloc, "standard output", error);
    }
    tell_refusal(stderr, input);
    ExitCode::SUCCESS
}

// Reads the input, and writes the output for it; a read or a write that fails is told on standard error. One function for
// this program and `explain` would take the call, the bound on what it writes and the space it asks for as parameters.
fn run(
    stdin: &mut impl Read,
    stdout: &impl Print,
    stderr: &impl Print,
    alloc: Global,
    input: &mut [u8],
    output: &mut [u8; MOST_OUTPUT],
) -> ExitCode
    requires space { Space input.old }
{
    match read_input(stdin, input) {
        Ok(count) => write_output(stdout, stderr, alloc, &input[..count], output),
        Err(error) => fail(stderr, alloc, "standard input", error),
    }
}

// The input buffer has a byte more than an input may have, so that a longer one is seen.
fn main(rt: HostRuntime) -> ExitCode {
    let mut input = [0u8; 65537];
    let mut output = [0u8; MOST_OUTPUT];
    let mut stdin = rt.stdin();
    let stdout = rt.stdout();
    let stderr = rt.stderr();
    run(
        &mut stdin,
        &stdout,
        &stderr,
        rt.alloc(),
        &mut input,
        &mut output,
    )
}
