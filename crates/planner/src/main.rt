// The planner's program: one line `n count` in, what so many jobs need out.
#![tactic(auto)]

use output::Onward;
use std::io::{self, Write};

// As plainrun has it, but for the function and the room: one for both would take a closure, and be a crate of its own for five lines.
// Two numbers and a newline take 22 bytes at most, so a line that does not end within 64 is not two numbers, whatever follows.
fn main(rt: HostRuntime) -> io::Result<()> {
    let rt = Onward { to: &rt };
    let mut line = [0; 64];
    let len = input::read_line(&mut line);
    let mut out = [0; 94];
    let end = plan::answer(&line[..len], &mut out);
    io::writer(&rt).write_all(&out[..end])
}
