// A state outside the ranges counts as asleep in every call: wake is taken, the others are refused with 1.
ghost use Rattle.std.specs.Prelude.{◌≡◌, [], ◌∷◌};
ghost use Rattle.rules.specs.Batches.{batch_of};
ghost use Rattle.rules.specs.declared.state.Task.TheVariants.{Compare};
ghost use Rattle.walk.specs.Walk.{due_state};

use crate::five::Box1;
use crate::states;
use crate::tallies::FRESH;
use rules::state::{Batch, State, Task, Turn};
use std::io;

fn line(rt: &impl Print, label: &str, state: State) -> io::Result<()> {
    print!(rt; "{label}")?;
    let box1 = Box1 {
        state,
        tally: FRESH,
    };
    box1.all(rt, 1)?;
    println!(rt)
}

// The words that wake keeps, idle and in a job.
fn kept_words(rt: &impl Print) -> io::Result<()> {
    let idle = states::idle();
    let due = states::opened();
    line(rt, "in range, speak 1 due:", due)?;
    line(rt, "n 4:", State { n: 4, ..due })?;
    line(rt, "side 3:", State { side: 3, ..due })?;
    line(rt, "n 4, idle:", State { n: 4, ..idle })
}

// In a job, with that length of tally, which wake keeps too.
fn tally_lengths(rt: &impl Print) -> io::Result<()> {
    for (label, tally) in [
        ("tally 0:", 0),
        ("tally 3:", 3),
        ("in range, tally 4:", 4),
        ("tally 5:", 5),
        ("in range, tally 11680:", 11680),
        ("tally 11681:", 11681),
        ("tally 11684:", 11684),
    ] {
        let due = states::opened();
        line(rt, label, State { tally, ..due })?;
    }
    Ok(())
}

fn job(turn: Turn, number: u32, x: u32, y: u32) -> State
    ensures { result ≡ due_state turn (batch_of number (Compare 1) (x ∷ y ∷ [])) }
{
    let batch = Batch {
        first: number,
        task: Task::Compare(1),
        x: [x, 0, 0, 0, 0, 0, 0, 0],
        y: [y, 0, 0, 0, 0, 0, 0, 0],
    };
    states::in_job(turn, batch)
}

// The words of a job.
fn job_words(rt: &impl Print) -> io::Result<()> {
    line(rt, "number 4:", job(Turn::Speak(1), 4, 5, 1))?;
    line(rt, "speak of round 0:", job(Turn::Speak(0), 0, 5, 1))?;
    line(rt, "hear of round 6:", job(Turn::Hear(6), 0, 5, 1))?;
    line(rt, "x 7:", job(Turn::Speak(1), 0, 7, 1))?;
    line(rt, "y 7:", job(Turn::Speak(1), 0, 5, 7))
}

pub fn lines(rt: &impl Print) -> io::Result<()> {
    println!(rt; "a state outside the ranges: wake, start, speak, hear, drop")?;
    kept_words(rt)?;
    tally_lengths(rt)?;
    job_words(rt)
}
