// Reads standard input, and writes what the rule on its first line is read as.
#![tactic(auto)]

ghost use Rattle.explain.specs.Space.{ExplainSpace};

use explaining::MOST_EXPLAINED;
use std::alloc::Global;
use std::io::Read;
use std::process::ExitCode;
use streams::{fail, read_input};

// Writes the output for an input, by way of a buffer that is long enough for every output.
fn write_output(
    stdout: &impl Print,
    stderr: &impl Print,
    alloc: Global,
    input: &[u8],
    output: &mut [u8],
) -> ExitCode {
    let Ok(length) = explaining::explain(input, output) else {
        return ExitCode::SUCCESS;
    };
    if let Err(error) = stdout.write_all(&output[..length]) {
        return fail(stderr, alloc, "standard output", error);
    }
    ExitCode::SUCCESS
}

// Reads the input, and writes the output for it; a read or a write that fails is told on standard error. One function for
// this program and `pick` would take the call, the bound on what it writes and the space it asks for as parameters.
fn run(
    stdin: &mut impl Read,
    stdout: &impl Print,
    stderr: &impl Print,
    alloc: Global,
    input: &mut [u8],
    output: &mut [u8; MOST_EXPLAINED],
) -> ExitCode
    requires space { ExplainSpace input.old }
{
    match read_input(stdin, input) {
        Ok(count) => write_output(stdout, stderr, alloc, &input[..count], output),
        Err(error) => fail(stderr, alloc, "standard input", error),
    }
}

// The input buffer has a byte more than an input may have, so that a longer one is seen.
fn main(rt: HostRuntime) -> ExitCode {
    let mut input = [0u8; 65537];
    let mut output = [0u8; MOST_EXPLAINED];
    let mut stdin = rt.stdin();
    let stdout = rt.stdout();
    let stderr = rt.stderr();
    run(
        &mut stdin,
        &stdout,
        &stderr,
        rt.alloc(),
        &mut input,
        &mut output,
    )
}
