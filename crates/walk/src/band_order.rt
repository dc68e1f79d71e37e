// First match counts in a band: a start with two grounds at once, the first of them right before the other; then with all, without the first of them, and so on
// until it is taken. Refusal 17 stands straight after 5 and before 4. Of the second job only the number and the tape can be refused: its share is the
// first job's, and a mark above the first number makes that late.
ghost use Rattle.std.specs.Prelude.{◌≤◌};

use crate::band_starts::{INSIDE, SHARE};
use crate::joined_order::{hears, speaks};
use crate::joined_starts::of_sides;
use crate::say::{line, short};
use crate::states;
use crate::tallies::{FRESH, one_byte, spent};
use rules::state::{FIRST, State, Task, Turn};
use std::io;

// Not in order, and not below p.
const DOWNWARDS: Task = Task::Band(5, 2);

const TOO_LARGE: Task = Task::Band(2, 7);

// What is wrong, two things, and what the start answers. Before any job is looked at.
fn told(rt: &impl Print, what: &str, state: State, first: u32, task: Task) -> io::Result<()>
    requires { first ≤ 4 }
{
    let tried = of_sides(state, first, task, &SHARE, [1, 1], 200, FRESH);
    print!(rt; "start of a band, {what}")?;
    line(rt, ": ", tried)
}

fn before_jobs(rt: &impl Print) -> io::Result<()> {
    let busy = states::in_job(Turn::Speak(1), states::two());
    let longer = states::longer(states::idle());
    told(rt, "asleep and bounds 5 2", FIRST, 0, DOWNWARDS)?;
    told(rt, "in a job and bounds 5 2", busy, 0, DOWNWARDS)?;
    told(
        rt,
        "bounds 5 2 and tally of 20 bytes at wake",
        longer,
        0,
        DOWNWARDS,
    )?;
    told(
        rt,
        "bounds 2 7 and tally of 20 bytes at wake",
        longer,
        0,
        TOO_LARGE,
    )?;
    told(
        rt,
        "tally of 20 bytes at wake and number 4",
        longer,
        4,
        INSIDE,
    )
}

// The marks, in a box that is idle. Of numbers 3 and 4 the second is past the tally.
fn marks(rt: &impl Print) -> io::Result<()> {
    for (what, first, share, tally) in [
        ("number 4 and share 7", 4, 7, FRESH),
        ("its tape spent and one above it", 0, 3, spent()),
        ("its tape spent and job 2's number 4", 3, 3, one_byte(12, 0)),
        ("a tape above spent and share 7", 1, 7, spent()),
    ] {
        let tried = of_sides(states::idle(), first, INSIDE, &[share], [1, 1], 200, tally);
        print!(rt; "start of a band, {what}")?;
        line(rt, ": ", tried)?;
    }
    Ok(())
}

// On fresh tapes.
fn jobs(rt: &impl Print) -> io::Result<()> {
    for (what, first, share, sides, words) in [
        (
            "share 7 and the other box's tape for job 1",
            0,
            7,
            [2, 1],
            200,
        ),
        ("share 7 and job 2's number 4", 3, 7, [1, 1], 200),
        (
            "the other box's tape for job 1 and job 2's number 4",
            3,
            3,
            [2, 1],
            200,
        ),
        (
            "job 2's number 4 and the other box's tape for job 2",
            3,
            3,
            [1, 2],
            200,
        ),
        ("job 2's number 4 and work of 199 words", 3, 3, [1, 1], 199),
        (
            "the other box's tape for job 2 and work of 199 words",
            0,
            3,
            [1, 2],
            199,
        ),
    ] {
        let tried = of_sides(states::idle(), first, INSIDE, &[share], sides, words, FRESH);
        print!(rt; "start of a band, {what}")?;
        line(rt, ": ", tried)?;
    }
    Ok(())
}

// One of many at once.
fn of_many(rt: &impl Print, state: State, first: u32, task: Task) -> io::Result<()>
    requires { first ≤ 4 }
{
    short(rt, of_sides(state, first, task, &[7], [2, 2], 199, spent()))
}

// All that comes before the shares, where tapes 0 and 2 are spent, so 0 and 1 are late.
fn several_before_jobs(rt: &impl Print) -> io::Result<()> {
    let idle = states::idle();
    let busy = states::longer(states::in_job(Turn::Speak(1), states::band()));
    let longer = states::longer(idle);
    of_many(rt, FIRST, 4, DOWNWARDS)?;
    of_many(rt, busy, 4, DOWNWARDS)?;
    of_many(rt, longer, 4, DOWNWARDS)?;
    of_many(rt, longer, 4, INSIDE)?;
    of_many(rt, idle, 4, INSIDE)?;
    of_many(rt, idle, 0, INSIDE)?;
    of_many(rt, idle, 1, INSIDE)
}

// Then on fresh tapes.
fn several_in_jobs(rt: &impl Print) -> io::Result<()> {
    for (first, share, sides, words) in [
        (3, 7, [2, 2], 199),
        (3, 3, [2, 2], 199),
        (3, 3, [1, 2], 199),
        (2, 3, [1, 2], 199),
        (2, 3, [1, 1], 199),
        (2, 3, [1, 1], 200),
    ] {
        short(
            rt,
            of_sides(states::idle(), first, INSIDE, &[share], sides, words, FRESH),
        )?;
    }
    Ok(())
}

pub fn lines(rt: &impl Print) -> io::Result<()> {
    before_jobs(rt)?;
    marks(rt)?;
    jobs(rt)?;
    print!(rt; "start of a band, first of several:")?;
    several_before_jobs(rt)?;
    several_in_jobs(rt)?;
    println!(rt)?;
    speaks(rt, "a band", states::band())?;
    hears(rt, "a band", states::band())
}
