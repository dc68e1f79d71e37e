// First match counts in joined jobs too: each call with all its grounds at once, then without the first of them, and so on until it is taken.
ghost use Rattle.std.specs.Prelude.{◌≡◌, ◌≤◌, take, replicate};
ghost use Rattle.rules.specs.Calls.{hear_rule};
ghost use Rattle.walk.specs.Walk.{joined_tapes, filler, Answered};

use crate::calls::{FILLER, Tried, hear};
use crate::joined_starts::of_sides;
use crate::joined_turns::speak_of;
use crate::say::short;
use crate::tallies::{FRESH, spent};
use crate::{states, tapes};
use rules::state::{Batch, FIRST, State, Task, Turn};
use std::io;

// Before any job is looked at, and the marks of the first: tapes 0 and 2 are spent, so 0 and 1 are late.
fn before_jobs(rt: &impl Print) -> io::Result<()> {
    let idle = states::idle();
    let busy = states::longer(states::in_job(Turn::Speak(1), states::two()));
    let all = [7, 7, 7, 7];
    for (state, first, count, shares) in [
        (FIRST, 4, 9, &all[..3]),
        (busy, 4, 9, &all[..3]),
        (states::longer(idle), 4, 9, &all[..3]),
        (states::longer(idle), 4, 2, &all[..3]),
        (idle, 4, 2, &all[..3]),
        (idle, 4, 2, &all[..]),
        (idle, 0, 2, &all[..]),
        (idle, 1, 2, &all[..]),
    ] {
        let task = Task::Compare(count);
        short(
            rt,
            of_sides(state, first, task, shares, [2, 2], 199, spent()),
        )?;
    }
    Ok(())
}

// On fresh tapes: of numbers 3 and 4 the second is past the tally.
fn job_by_job(rt: &impl Print) -> io::Result<()> {
    let idle = states::idle();
    let task = Task::Compare(2);
    for (first, shares, sides, words) in [
        (3, [7, 7, 7, 7], [2, 2], 199),
        (3, [5, 1, 7, 7], [2, 2], 199),
        (3, [5, 1, 7, 7], [1, 2], 199),
        (2, [5, 1, 7, 7], [1, 2], 199),
        (2, [5, 1, 6, 2], [1, 2], 199),
        (2, [5, 1, 6, 2], [1, 1], 199),
        (2, [5, 1, 6, 2], [1, 1], 200),
    ] {
        short(
            rt,
            of_sides(idle, first, task, &shares, sides, words, FRESH),
        )?;
    }
    Ok(())
}

fn starts(rt: &impl Print) -> io::Result<()> {
    print!(rt; "start of two, first of several:")?;
    before_jobs(rt)?;
    job_by_job(rt)?;
    println!(rt)
}

pub fn speaks(rt: &impl Print, jobs: &str, batch: Batch) -> io::Result<()> {
    let opened = states::in_job(Turn::Speak(1), batch);
    print!(rt; "speak of {jobs}, first of several:")?;
    for (state, first, sides, work, words) in [
        (FIRST, 1, [1, 2], 199, 65),
        (states::idle(), 1, [1, 2], 199, 65),
        (opened, 1, [1, 2], 199, 65),
        (opened, 0, [1, 2], 199, 65),
        (opened, 0, [1, 1], 199, 65),
        (opened, 0, [1, 1], 200, 66),
    ] {
        short(rt, speak_of(state, first, sides, work, words))?;
    }
    println!(rt)
}

// A hear with such tapes, so many words of work, and so many incoming words, all this one.
fn hear_of(state: State, first: u32, sides: [u32; 2], words: usize, word: u32) -> Tried
    requires { words ≤ 66 }
    ensures { Answered result state (filler 200) (hear_rule state first 1 (joined_tapes sides 0) (filler 200) (take words (replicate 66 word))) }
{
    let tapes: [u32; 298] = tapes::joined(&sides, 0);
    let mut work = [FILLER; 200];
    hear(state, first, 1, &tapes, &mut work, &[word; 66][..words])
}

pub fn hears(rt: &impl Print, jobs: &str, batch: Batch) -> io::Result<()> {
    let spoken = states::in_job(Turn::Hear(1), batch);
    print!(rt; "hear of {jobs}, first of several:")?;
    for (state, first, sides, words, word) in [
        (FIRST, 1, [1, 2], 65, 8),
        (states::idle(), 1, [1, 2], 65, 8),
        (spoken, 1, [1, 2], 65, 8),
        (spoken, 0, [1, 2], 65, 8),
        (spoken, 0, [1, 1], 65, 8),
        (spoken, 0, [1, 1], 66, 8),
        (spoken, 0, [1, 1], 66, 0),
    ] {
        short(rt, hear_of(state, first, sides, words, word))?;
    }
    println!(rt)
}

pub fn lines(rt: &impl Print) -> io::Result<()> {
    starts(rt)?;
    speaks(rt, "two", states::two())?;
    hears(rt, "two", states::two())
}
