// A cut at either of the two marks of a band's start on tape 1; then the box wakes, and a start of a band is tried on each tape and the next.
ghost use Rattle.std.specs.Prelude.{◌<◌};

use crate::calls;
use crate::cuts::after;
use crate::five::Box1;
use crate::joined_cuts::{after_cut, label};
use crate::say::short;
use std::io;

fn starts(rt: &impl Print, box1: &Box1<40>) -> io::Result<()> {
    for number in 0..10 {
        short(rt, box1.band_on(number))?;
    }
    println!(rt)
}

fn line(rt: &impl Print, marks: usize, left: [u8; 4]) -> io::Result<()>
    requires { marks < 2 }
{
    label(rt, "a band", marks, left)?;
    let box1 = after_cut(marks, left);
    let woken = calls::wake(box1.state, 3, 1, &box1.tally);
    print!(rt; ": wake")?;
    short(rt, woken)?;
    print!(rt; ", a start of a band on each tape")?;
    starts(rt, &after(&box1, woken))
}

pub fn lines(rt: &impl Print) -> io::Result<()> {
    for marks in 0..2 {
        line(rt, marks, [255; 4])?;
        line(rt, marks, [255, 255, 255, 0])?;
        line(rt, marks, [0; 4])?;
    }
    Ok(())
}
