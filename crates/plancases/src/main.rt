// Runs the planner's function on many lines, and prints what each gets.
#![tactic(auto)]

use output::Onward;
use std::io::{self, Write};

const ONE_JOB: [&str; 7] = [
    "3 1\n", "5 1\n", "7 1\n", "13 1\n", "17 1\n", "19 1\n", "31 1\n",
];

// Every count at one width, and the largest at the others.
const SEVERAL_JOBS: [&str; 13] = [
    "3 2\n", "3 3\n", "3 4\n", "3 5\n", "3 6\n", "3 7\n", "3 8\n", "5 8\n", "7 8\n", "13 8\n",
    "17 8\n", "19 8\n", "31 8\n",
];

// The width is looked at first, so of both it is what is refused.
const REFUSED_WIDTH: [&str; 11] = [
    "0 1\n",
    "1 1\n",
    "2 1\n",
    "4 8\n",
    "11 1\n",
    "30 1\n",
    "32 1\n",
    "4294967295 1\n",
    "4 0\n",
    "4 9\n",
    "0 0\n",
];

const REFUSED_COUNT: [&str; 5] = ["3 0\n", "3 9\n", "31 0\n", "31 9\n", "7 4294967295\n"];

// What the line is: up to its newline or the end.
const ONE_LINE: [&str; 3] = [
    "5 2",
    "5 2\nand what stands on the next line\n",
    "5 2\n4 9\n",
];

const NOT_TWO: [&str; 12] = [
    "", "\n", "\n3 1\n", "3\n", "3 \n", " 3\n", "3 1 1\n", "3  1\n", " 3 1\n", "3 1 \n", "3\t1\n",
    "3 1\r\n",
];

const NOT_NUMBERS: [&str; 11] = [
    "+3 1\n",
    "3 -1\n",
    "3 one\n",
    "0x3 1\n",
    "3 1.\n",
    "03 1\n",
    "3 01\n",
    "3 4294967296\n",
    "4294967299 1\n",
    "3 18446744073709551617\n",
    "3 1111111111111111111111111111111111111111111111111111111111111111111111111111111111111111111111\n",
];

// As plaincases has it, but for the function and the room of its text: one for both would be a crate of its own for nine lines.
fn show(rt: &impl Print, title: &str, lines: &[&str]) -> io::Result<()> {
    println!(rt; "{title}")?;
    for line in lines {
        let mut out = [0; 94];
        let end = plan::answer(line.as_bytes(), &mut out);
        io::writer(rt).write_all(&out[..end])?;
    }
    Ok(())
}

fn main(rt: HostRuntime) -> io::Result<()> {
    let rt = Onward { to: &rt };
    show(&rt, "one job, every width", &ONE_JOB)?;
    show(&rt, "several jobs", &SEVERAL_JOBS)?;
    show(&rt, "width refused", &REFUSED_WIDTH)?;
    show(&rt, "count refused", &REFUSED_COUNT)?;
    show(&rt, "the first line", &ONE_LINE)?;
    show(&rt, "not two numbers", &NOT_TWO)?;
    show(&rt, "not numbers of 32 bits", &NOT_NUMBERS)
}
