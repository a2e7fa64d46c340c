// The desk's own trial: each line of standard input is an expression, and is tried on the end of February, on all 366
// dates and on texts that are no dates; the dates that the first picks are listed.
#![tactic(auto)]

mod date;
mod trial;

use date::dates;
use std::io;
use streams::read_input;
use trial::trial;

// Tries each line's expression; what the first picks is listed.
fn each_line(rt: &impl Print, input: &[u8]) -> io::Result<()> {
    let dates = dates();
    for (i, line) in input.split_inclusive(|byte| *byte == b'\n').enumerate() {
        let expr = line.strip_suffix(b"\n").unwrap_or(line);
        trial(rt, expr, &dates, i == 0)?;
    }
    Ok(())
}

fn main(rt: HostRuntime) -> io::Result<()> {
    let mut stdin = rt.stdin();
    let mut input = [0u8; 65536];
    let count = read_input(&mut stdin, &mut input)?;
    each_line(&rt, &input[..count])
}
