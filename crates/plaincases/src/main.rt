// Runs the function of plainrun on many lines, and prints what each gets.
#![tactic(auto)]

use output::Onward;
use std::io::{self, Write};

// Lines that are five numbers: the example, the widths, the refusals of the boxes.
const NUMBERS: [&str; 11] = [
    "3 5 4 1 2\n",
    "3 5 4 1 2",
    "3 0 0 0 0\n",
    "3 6 6 6 6\n",
    "3 3 0 4 0\n",
    "3 4 0 3 0\n",
    "5 30 30 0 30\n",
    "7 126 0 0 1\n",
    "13 8190 0 0 8190\n",
    "13 0 1 4000 4190\n",
    "3 5 4 1 2\nand what stands on the next line\n",
];

const REFUSED_WIDTH: [&str; 10] = [
    "0 0 0 0 0\n",
    "1 0 0 0 0\n",
    "2 0 0 0 0\n",
    "4 0 0 0 0\n",
    "12 0 0 0 0\n",
    "14 0 0 0 0\n",
    "17 0 0 0 0\n",
    "31 0 0 0 0\n",
    "4294967295 0 0 0 0\n",
    "4 9 9 9 9\n",
];

const REFUSED_SHARE: [&str; 7] = [
    "3 7 0 0 0\n",
    "3 0 7 0 0\n",
    "3 0 0 7 0\n",
    "3 0 0 0 7\n",
    "13 8191 0 0 0\n",
    "3 4294967295 0 0 0\n",
    "3 0 0 0 4294967295\n",
];

// Lines that are not five numbers of 32 bits.
const NOT_FIVE: [&str; 13] = [
    "",
    "\n",
    "\n3 5 4 1 2\n",
    "3\n",
    "3 5 4 1\n",
    "3 5 4 1 \n",
    "3 5 4 1 2 0\n",
    "3  5 4 1 2\n",
    " 3 5 4 1 2\n",
    "3 5 4 1 2 \n",
    "3\t5 4 1 2\n",
    "3 5 4 1 2\t\n",
    "3 5 4 1 2\r\n",
];

const NOT_NUMBERS: [&str; 13] = [
    "3 +5 4 1 2\n",
    "3 -5 4 1 2\n",
    "3 5 4 1 2.\n",
    "3 five 4 1 2\n",
    "0x3 5 4 1 2\n",
    "3 5 4 1 4294967296\n",
    "4294967296 5 4 1 2\n",
    "3 5 4 1 18446744073709551617\n",
    "03 5 4 1 2\n",
    "3 5 4 1 02\n",
    "3 00 4 1 2\n",
    "3 5 4 1 1111111111111111111111111111111111111111111111111111111111111111111111111111111111111111111111\n",
    "1111111111111111111111111111111111111111111111111111111111111111111111111111111111111111111111 5 4 1 2\n",
];

// As plancases has it, but for the function and the room of its text: one for both would be a crate of its own for nine lines.
fn show(rt: &impl Print, title: &str, lines: &[&str]) -> io::Result<()> {
    println!(rt; "{title}")?;
    for line in lines {
        let mut out = [0; 78];
        let end = plain::answer(line.as_bytes(), &mut out);
        io::writer(rt).write_all(&out[..end])?;
    }
    Ok(())
}

fn main(rt: HostRuntime) -> io::Result<()> {
    let rt = Onward { to: &rt };
    show(&rt, "five numbers", &NUMBERS)?;
    show(&rt, "width refused", &REFUSED_WIDTH)?;
    show(&rt, "share refused", &REFUSED_SHARE)?;
    show(&rt, "not five numbers", &NOT_FIVE)?;
    show(&rt, "not numbers of 32 bits", &NOT_NUMBERS)
}
