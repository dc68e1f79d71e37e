// What a job needs, at every width. For tools/bench it does, given `jobs WIDTH COUNT`, so many whole jobs, given `checks`, so many checks of a job's tapes,
// and given `joined`, `singly`, `pairs` or `bands`, so many times eight comparisons, in one go, one by one, by twos, or as four bands.
#![tactic(auto)]

ghost use Rattle.std.specs.Prelude.{◌≤◌, length};

mod eight;
mod work;

use eight::Way;
use field::Width;
use output::Onward;
use std::env::{Env, FillError};
use std::io;
use work::Work;

// The words that are lent to a box for a job.
fn sizes(rt: &impl Print, n: Width) -> io::Result<()> {
    let tape = tape::tape_words(n);
    let work = compare::words::work_words(n.bits);
    let longest = compare::words::words_of(n, 1);
    println!(rt;
        "width {}: tape {tape}, work {work}, longest message {longest} words",
        n.bits
    )
}

// What is done often, as argument 1 names it.
#[derive(Clone, Copy)]
enum Task {
    Jobs,
    Checks,
    Joined,
    Singly,
    Pairs,
    Bands,
}

// Does it so often, and says how many turns came out right.
fn run(rt: &impl Print, task: Task, n: Width, count: u32) -> io::Result<()> {
    match task {
        Task::Jobs => {
            println!(rt;
                "jobs: {} of {count} right",
                work::often(Work::Jobs, n, count)
            )
        }
        Task::Checks => {
            println!(rt;
                "checks: {} of {count} in order",
                work::often(Work::Checks, n, count)
            )
        }
        Task::Joined => {
            println!(rt;
                "joined: {} of {count} right",
                eight::often(Way::Joined, n, count)
            )
        }
        Task::Singly => {
            println!(rt;
                "singly: {} of {count} right",
                eight::often(Way::Singly, n, count)
            )
        }
        Task::Pairs => {
            println!(rt;
                "pairs: {} of {count} right",
                eight::often(Way::Pairs, n, count)
            )
        }
        Task::Bands => {
            println!(rt;
                "bands: {} of {count} right",
                eight::often(Way::Bands, n, count)
            )
        }
    }
}

// An argument, put at the start of word: none of its bytes where there is none, or a longer one than word.
fn argument<'a>(rt: &impl Env, place: usize, word: &'a mut [u8]) -> &'a [u8]
    ensures { length result.now ≤ length word.old }
{
    let len = rt.arg(place, word).unwrap_or(0);
    &word[..len]
}

// An argument as a number.
fn number_at(rt: &impl Env, place: usize) -> Option<u32> {
    let mut word = [0u8; 16];
    lines::reading::number_of(argument(rt, place, &mut word))
}

// The width and the count are arguments 2 and 3.
fn asked(env: &impl Env, rt: &impl Print, task: Task) -> io::Result<()> {
    let Some(width) = number_at(env, 2) else {
        return println!(rt; "bench: the width is no number");
    };
    let Some(count) = number_at(env, 3) else {
        return println!(rt; "bench: the count is no number");
    };
    match Width::new(width) {
        Some(n) => run(rt, task, n, count),
        None => println!(rt; "bench: the width is not listed"),
    }
}

// Whether the program was started with no argument but its own name.
fn is_alone(rt: &impl Env) -> bool {
    matches!(rt.arg(1, &mut []), Err(FillError::NotPresent))
}

fn main(rt: HostRuntime) -> io::Result<()> {
    let env = &rt;
    let rt = Onward { to: env };
    let mut word = [0u8; 8];
    if is_alone(env) {
        return all_sizes(&rt);
    }
    match argument(env, 1, &mut word) {
        b"jobs" => asked(env, &rt, Task::Jobs),
        b"checks" => asked(env, &rt, Task::Checks),
        b"joined" => asked(env, &rt, Task::Joined),
        b"singly" => asked(env, &rt, Task::Singly),
        b"pairs" => asked(env, &rt, Task::Pairs),
        b"bands" => asked(env, &rt, Task::Bands),
        _ => println!(&rt;
            "bench: jobs, checks, joined, singly, pairs or bands, a width and a count, or nothing"
        ),
    }
}

fn all_sizes(rt: &impl Print) -> io::Result<()> {
    for n in Width::all() {
        sizes(rt, n)?;
    }
    Ok(())
}
