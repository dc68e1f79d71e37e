// A start of several jobs: how many, on which numbers, and as many shares, tapes and work.
ghost use Rattle.std.specs.Prelude.{◌≡◌, ◌≤◌, ◌+◌, ◌*◌, [], ◌∷◌, length, replicate, take};
ghost use Rattle.lists.specs.Tabulate.{tabulate};
ghost use Rattle.rules.specs.Calls.{start_rule};
ghost use Rattle.rules.specs.declared.state.Task.TheVariants.{Compare};
ghost use Rattle.walk.specs.Walk.{idle_state, joined_tapes, fresh_tally, ten_fresh, Answered};

use crate::calls::{Tried, open, start};
use crate::say::{bytes, line};
use crate::tallies::{FRESH, TEN};
use crate::{states, tallies, tapes};
use rules::state::{State, Task};
use std::io;

// A start of so many jobs, with just what they need, where the tally has ten tapes. The room is of nine jobs' size, and fewer use its first words.
fn of_count(first: u32, count: usize) -> Tried
    requires { (count ≤ 9) × (first ≤ 10) }
    ensures { Answered result (idle_state 40) ten_fresh (start_rule (idle_state 40) first (Compare count) (take (2 * count) (replicate 18 1))
        (take (149 * count) (joined_tapes (replicate 9 1) first)) (take (100 * count) (replicate 900 0)) ten_fresh) }
{
    let task = Task::Compare(count as u32);
    let shares = &[1; 18][..2 * count];
    let tapes = &tapes::joined::<1341>(&[1; 9], first)[..149 * count];
    let work = &[0; 900][..100 * count];
    start(states::ten(), first, task, shares, tapes, work, TEN)
}

fn counts(rt: &impl Print) -> io::Result<()> {
    for count in [0, 1, 8, 9] {
        print!(rt; "start, count {count}")?;
        line(rt, ": ", of_count(0, count))?;
    }
    Ok(())
}

// The last number is the tally's last, or the first past it; then the first number is.
fn numbers(rt: &impl Print) -> io::Result<()> {
    for (count, first) in [(8, 2), (8, 3), (2, 8), (2, 9), (2, 10)] {
        print!(rt; "start of {count} jobs, first number {first} of ten")?;
        line(rt, ": ", of_count(first, count))?;
    }
    Ok(())
}

// A start of two jobs or of a band on this number, with those shares. The tapes are those of numbers 0 and 1.
pub fn of_shares(first: u32, task: Task, shares: &[u32]) -> Tried
    ensures { Answered result (idle_state 16) fresh_tally (start_rule (idle_state 16) first task shares.now
        (joined_tapes (1 ∷ 1 ∷ []) 0) (tabulate 200 (λ k. 0)) fresh_tally) }
{
    let tapes: [u32; 298] = tapes::joined(&[1, 1], 0);
    start(
        states::idle(),
        first,
        task,
        shares,
        &tapes,
        &[0; 200],
        FRESH,
    )
}

// The second number would be past the words.
pub fn last_number(rt: &impl Print, jobs: &str, task: Task, shares: &[u32]) -> io::Result<()> {
    print!(rt; "start of {jobs}, first number 4294967295")?;
    line(rt, ": ", of_shares(4294967295, task, shares))
}

// On a number in the tally, and on one past it.
fn lists(rt: &impl Print) -> io::Result<()> {
    for (number, words) in [(0, 3), (0, 5), (4, 3), (4, 5)] {
        let shares = &[5, 1, 6, 2, 3][..words];
        print!(rt; "start of two, {words} shares, number {number}")?;
        line(rt, ": ", of_shares(number, Task::Compare(2), shares))?;
    }
    Ok(())
}

// A start of two jobs or of a band, with so many words of the tapes of three.
pub fn of_tapes(task: Task, shares: &[u32], words: usize) -> Tried
    requires { words ≤ 447 }
    ensures { Answered result (idle_state 16) fresh_tally (start_rule (idle_state 16) 0 task shares.now
        (take words (joined_tapes (1 ∷ 1 ∷ 1 ∷ []) 0)) (tabulate 200 (λ k. 0)) fresh_tally) }
{
    let tapes = &tapes::joined::<447>(&[1, 1, 1], 0)[..words];
    start(states::idle(), 0, task, shares, tapes, &[0; 200], FRESH)
}

pub fn tape_lengths(rt: &impl Print, jobs: &str, task: Task, shares: &[u32]) -> io::Result<()> {
    for words in [149, 297, 298, 299, 447] {
        print!(rt; "start of {jobs}, tapes of {words} words")?;
        line(rt, ": ", of_tapes(task, shares, words))?;
    }
    Ok(())
}

// The joined length is the first job's: its shares come before it, the second job's after it.
fn lengths_and_shares(rt: &impl Print) -> io::Result<()> {
    for (what, words, x1, x2) in [
        ("tapes of 297 words and job 2's x 7", 297, 5, 7),
        ("tapes of 299 words and job 2's x 7", 299, 5, 7),
        ("tapes of 299 words and job 1's x 7", 299, 7, 6),
    ] {
        print!(rt; "start of two, {what}")?;
        line(rt, ": ", of_tapes(Task::Compare(2), &[x1, 1, x2, 2], words))?;
    }
    Ok(())
}

// A start with plain tapes of those sides, and so many words of work.
pub fn of_sides(
    state: State,
    first: u32,
    task: Task,
    shares: &[u32],
    sides: [u32; 2],
    words: usize,
    tally: [u8; 16],
) -> Tried
    requires { (first ≤ 4) × (words ≤ 200) }
    ensures { Answered result state tally
        (start_rule state first task shares.now (joined_tapes sides first) (take words (replicate 200 0)) tally) }
{
    let tapes: [u32; 298] = tapes::joined(&sides, first);
    let work = &[0; 200][..words];
    start(state, first, task, shares, &tapes, work, tally)
}

// The tally after a start of two jobs or of a band on tape 1.
fn tally_after(task: Task, shares: &[u32], tally: [u8; 16]) -> [u8; 16]
    ensures { result ≡ (start_rule (idle_state 16) 1 task shares.now (joined_tapes (1 ∷ 1 ∷ []) 1) (tabulate 200 (λ k. 0)) tally).buffer }
{
    let mut state = states::idle();
    let mut after = tally;
    let tapes: [u32; 298] = tapes::joined(&[1, 1], 1);
    let _ = open(&mut state, 1, task, shares, &tapes, &[0; 200], &mut after);
    after
}

// It marks both tapes, and no other: the one below is half written, the one above is fresh.
pub fn marks(rt: &impl Print, jobs: &str, task: Task, shares: &[u32]) -> io::Result<()> {
    let before = tallies::with_mark(FRESH, 0, [255, 255, 255, 0]);
    print!(rt; "start of {jobs} on tape 1, the tally before it:")?;
    bytes(rt, &before)?;
    print!(rt; "\nstart of {jobs} on tape 1, the tally after it:")?;
    bytes(rt, &tally_after(task, shares, before))?;
    println!(rt)
}

pub fn lines(rt: &impl Print) -> io::Result<()> {
    let two = Task::Compare(2);
    let shares = [5, 1, 6, 2];
    counts(rt)?;
    numbers(rt)?;
    last_number(rt, "2 jobs", two, &shares)?;
    lists(rt)?;
    tape_lengths(rt, "two", two, &shares)?;
    lengths_and_shares(rt)?;
    marks(rt, "two", two, &shares)
}
