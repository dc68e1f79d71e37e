// A state of a band outside the ranges counts as asleep in every call, a start of a band too: its bounds out of order or too large, or what any job has.
ghost use Rattle.std.specs.Prelude.{◌≤◌};

use crate::band_starts::{INSIDE, SHARE};
use crate::joined_outside::{five, job};
use crate::joined_starts::of_sides;
use crate::say::short;
use crate::states;
use crate::tallies::FRESH;
use rules::state::{Batch, State, Task, Turn};
use std::io;

fn line(rt: &impl Print, label: &str, state: State) -> io::Result<()>
    requires { state.batch.first ≤ 4 }
{
    five(rt, label, state)?;
    short(rt, of_sides(state, 0, INSIDE, &SHARE, [1, 1], 200, FRESH))?;
    println!(rt)
}

// Where the shares are in range.
fn bounds(rt: &impl Print) -> io::Result<()> {
    for (label, low, high) in [
        ("in range:", 2, 5),
        ("bounds 2 2:", 2, 2),
        ("bounds 5 2:", 5, 2),
        ("bounds 2 7:", 2, 7),
        ("bounds 7 8:", 7, 8),
        ("in range, bounds 2 6:", 2, 6),
        ("in range, bounds 0 1:", 0, 1),
    ] {
        line(rt, label, job(0, Task::Band(low, high), [2, 3, 3, 5]))?;
    }
    Ok(())
}

fn jobs(rt: &impl Print) -> io::Result<()> {
    for (label, first, shares) in [
        ("job 2's number 4:", 3, [2, 3, 3, 5]),
        ("in range, job 2's number 3:", 2, [2, 3, 3, 5]),
        ("job 1's x 7:", 0, [7, 3, 3, 5]),
        ("job 1's y 7:", 0, [2, 7, 3, 5]),
        ("job 2's x 7:", 0, [2, 3, 7, 5]),
        ("job 2's y 7:", 0, [2, 3, 3, 7]),
    ] {
        line(rt, label, job(first, INSIDE, shares))?;
    }
    Ok(())
}

// A share past the two is not looked at, nor anything of a band where no job is open.
fn not_looked_at(rt: &impl Print) -> io::Result<()> {
    let past = Batch {
        x: [2, 3, 7, 0, 0, 0, 0, 0],
        ..states::band()
    };
    let idle = State {
        batch: job(4, Task::Band(5, 2), [7, 7, 7, 7]).batch,
        ..states::idle()
    };
    line(
        rt,
        "in range, the x past the two 7:",
        states::in_job(Turn::Speak(1), past),
    )?;
    line(rt, "in range, idle, with words of a band:", idle)
}

pub fn lines(rt: &impl Print) -> io::Result<()> {
    println!(rt;
        "a state outside the ranges, of a band: wake, start, speak, hear, drop, start of a band"
    )?;
    bounds(rt)?;
    jobs(rt)?;
    not_looked_at(rt)
}
