// A cut at each of the eight marks of a start: the marks below it are written, and what it leaves in its own is FF four times, half written, or 00.
ghost use Rattle.std.specs.Prelude.{◌≡◌, ◌<◌};
ghost use Rattle.tally.specs.Tally.{mark_of, cut_marks};
ghost use Rattle.rules.specs.Modes.{asleep_state};
ghost use Rattle.walk.specs.Walk.{idle_state, ten_fresh};

use crate::cuts::awake_again;
use crate::five::Box1;
use crate::say::bytes;
use crate::{states, tallies};
use std::io;

// What is left of box 1 after such a cut in a start on tapes 1 to 8 of ten.
pub fn after_cut(marks: usize, left: [u8; 4]) -> Box1<40>
    requires { marks < 8 }
    ensures { (result.state ≡ asleep_state (idle_state 40)) × (result.tally ≡ cut_marks ten_fresh 1 marks (mark_of left 0)) }
{
    let awake = Box1 {
        state: states::ten(),
        tally: tallies::cut_start(1, marks, left),
    };
    awake.cut()
}

pub fn label(rt: &impl Print, jobs: &str, marks: usize, left: [u8; 4]) -> io::Result<()>
    requires { marks < 8 }
{
    print!(rt;
        "cut in mark {} of a start of {jobs} on tape 1, bytes",
        marks + 1
    )?;
    bytes(rt, &left)
}

fn line(rt: &impl Print, marks: usize, left: [u8; 4]) -> io::Result<()>
    requires { marks < 8 }
{
    label(rt, "eight", marks, left)?;
    awake_again(rt, &after_cut(marks, left), 10)
}

pub fn lines(rt: &impl Print) -> io::Result<()> {
    for marks in 0..8 {
        line(rt, marks, [255; 4])?;
        line(rt, marks, [255, 255, 255, 0])?;
        line(rt, marks, [0; 4])?;
    }
    Ok(())
}
