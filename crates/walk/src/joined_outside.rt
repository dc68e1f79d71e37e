// A state of a job of two outside the ranges counts as asleep in every call, as one of a single job does.
ghost use Rattle.std.specs.Prelude.{◌≡◌, ◌≤◌, [], ◌∷◌, replicate};
ghost use Rattle.rules.specs.Batches.{x_in, y_in};
ghost use Rattle.rules.specs.declared.state.Turn.TheVariants.{Speak};
ghost use Rattle.walk.specs.Walk.{due_state};

use crate::five::Box1;
use crate::joined_turns::{hear_two, speak_two};
use crate::tallies::FRESH;
use crate::{states, tapes};
use rules::state::{Batch, State, Task, Turn};
use std::io;

// Speak and hear name the job's first number, and are lent both its tapes.
pub fn five(rt: &impl Print, label: &str, state: State) -> io::Result<()>
    requires { state.batch.first ≤ 4 }
{
    let first = state.batch.first;
    let tapes: [u32; 298] = tapes::joined(&[1, 1], first);
    let box1 = Box1 {
        state,
        tally: FRESH,
    };
    print!(rt; "{label}")?;
    box1.with(
        rt,
        speak_two(state, first, &tapes),
        hear_two(state, first, &tapes),
    )
}

fn line(rt: &impl Print, label: &str, state: State) -> io::Result<()>
    requires { state.batch.first ≤ 4 }
{
    five(rt, label, state)?;
    println!(rt)
}

// Where speak 1 is due, with those shares of x and y of two jobs.
pub fn job(first: u32, task: Task, shares: [u32; 4]) -> State
    ensures { result ≡ due_state (Speak 1) (record {
      first = first;
      task = task;
      x = x_in shares 0 ∷ x_in shares 1 ∷ replicate 6 0;
      y = y_in shares 0 ∷ y_in shares 1 ∷ replicate 6 0;
    }) }
{
    let batch = Batch {
        first,
        task,
        x: [shares[0], shares[2], 0, 0, 0, 0, 0, 0],
        y: [shares[1], shares[3], 0, 0, 0, 0, 0, 0],
    };
    states::in_job(Turn::Speak(1), batch)
}

// The last two are in range: a share past the count is not looked at, nor anything of a job where none is open.
pub fn lines(rt: &impl Print) -> io::Result<()> {
    println!(rt; "a state outside the ranges, of a job of two: wake, start, speak, hear, drop")?;
    for (label, first, count, shares) in [
        ("in range:", 0, 2, [5, 1, 6, 2]),
        ("count 0:", 0, 0, [5, 1, 6, 2]),
        ("count 9:", 0, 9, [5, 1, 6, 2]),
        ("job 2's number 4:", 3, 2, [5, 1, 6, 2]),
        ("in range, job 2's number 3:", 2, 2, [5, 1, 6, 2]),
        ("job 2's x 7:", 0, 2, [5, 1, 7, 2]),
        ("job 2's y 7:", 0, 2, [5, 1, 6, 7]),
        ("in range, count 1, the x past it 7:", 0, 1, [5, 1, 7, 2]),
    ] {
        line(rt, label, job(first, Task::Compare(count), shares))?;
    }
    let idle = State {
        batch: job(4, Task::Compare(9), [7, 7, 7, 7]).batch,
        ..states::idle()
    };
    line(rt, "in range, idle, with words of a job:", idle)
}
