// Both sides of each limit and refusal of docs/REFERENCE.md: what is refused and what is not, a line each. Standard
// input is a table of the cases: each row gives what is printed first, what is called, and what is lent to it.
#![tactic(auto)]

mod answers;
mod calls;
mod rows;

use std::io;
use streams::read_input;

fn main(rt: HostRuntime) -> io::Result<()> {
    let mut stdin = rt.stdin();
    let mut input = [0u8; 65536];
    let count = read_input(&mut stdin, &mut input)?;
    rows::each_row(&rt, &input[..count])
}
