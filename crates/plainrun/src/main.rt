// Document 01's plainrun: one line of five numbers in, the words per round and the answer out.
#![tactic(auto)]

use output::Onward;
use std::io::{self, Write};

// As planner has it, but for the function and the room: one for both would take a closure, and be a crate of its own for five lines.
// Five numbers and a newline take 55 bytes at most: a line for which 64 are too few is none, whatever comes after.
fn main(rt: HostRuntime) -> io::Result<()> {
    let rt = Onward { to: &rt };
    let mut line = [0; 64];
    let len = input::read_line(&mut line);
    let mut out = [0; 78];
    let end = plain::answer(&line[..len], &mut out);
    io::writer(&rt).write_all(&out[..end])
}
