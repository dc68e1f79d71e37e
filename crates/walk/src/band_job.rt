// Whole bands of both boxes on plain tapes 1 and 2; and what comes of it where one box has a band and the other a joined pair, whose messages are as long.
// The masks of the plain tapes are 0 and box 2's words all 0, so it holds no part of a product, and its answer share in a comparison is what comes
// of its own low bits alone.
ghost use Rattle.std.specs.Prelude.{◌≤◌, [], ◌∷◌};
ghost use Rattle.rules.specs.Tasks.{count_of};
ghost use Rattle.rules.specs.declared.state.Task.TheVariants.{Band};
ghost use Rattle.walk.specs.Courses.{Woken, CourseFrom};
ghost use Rattle.walk.specs.Bands.{on_two};

use crate::answers::Answer;
use crate::band_starts::INSIDE;
use crate::job::{answers, opened, shares_in};
use crate::job_steps::LAST;
use crate::progress::{Job, Pair};
use crate::{joined_drops, say, tapes};
use rules::state::Task;
use std::io;

// Both boxes after so many steps of what each is asked.
fn reached(task1: Task, shares1: &[u32], task2: Task, shares2: &[u32], steps: u32) -> Pair
    requires { (count_of task1 ≤ 2) × (count_of task2 ≤ 2) }
    ensures { CourseFrom Woken (on_two task1 task2 shares1.now shares2.now) steps result }
{
    let tapes1: [u32; 298] = tapes::joined(&[1, 1], 1);
    let tapes2: [u32; 298] = tapes::joined(&[2, 2], 1);
    let job = Job {
        first: 1,
        task1,
        task2,
        shares1,
        shares2,
        tapes1: &tapes1,
        tapes2: &tapes2,
    };
    let mut pair = Pair::woken();
    pair.walk(job, steps);
    pair
}

// Of a band, where a is 4 + 6 = 3 modulo 7.
fn band(steps: u32) -> Pair
    ensures { CourseFrom Woken (on_two (Band 2 5) (Band 2 5) (4 ∷ []) (6 ∷ [])) steps result }
{
    reached(INSIDE, &[4], INSIDE, &[6], steps)
}

fn drops(rt: &impl Print) -> io::Result<()> {
    println!(rt; "a drop of a band on tape 1")?;
    for step in 1..=LAST {
        joined_drops::line(rt, step, band(step).box1)?;
    }
    Ok(())
}

// What both states hold of the band.
fn held(rt: &impl Print, when: &str, pair: Pair) -> io::Result<()> {
    print!(rt; "box 1 after {when}:")?;
    say::batch(rt, pair.box1.state.batch)?;
    print!(rt; "\nbox 2 after {when}:")?;
    say::batch(rt, pair.box2.state.batch)?;
    println!(rt)
}

fn shares(rt: &impl Print, answer: Answer) -> io::Result<()> {
    match shares_in(answer) {
        Some(shares) => say::words(rt, &shares),
        None => print!(rt; " NO answer share"),
    }
}

// What both answer after the last hear, all eight places.
fn answered(rt: &impl Print, last: Pair) -> io::Result<()> {
    print!(rt; "answer shares")?;
    shares(rt, last.box1.answer)?;
    print!(rt; " and")?;
    shares(rt, last.box2.answer)
}

// What the first answer shares open.
fn inside(rt: &impl Print, last: Pair) -> io::Result<()> {
    match (shares_in(last.box1.answer), shares_in(last.box2.answer)) {
        (Some(shares1), Some(shares2)) => {
            println!(rt; ", inside {}", opened(shares1[0], shares2[0]))
        }
        _ => println!(rt; ", NO answer"),
    }
}

// For 2 to 5, each of two shares.
fn cases(rt: &impl Print) -> io::Result<()> {
    for (a, share1, share2) in [(2, 6, 3), (3, 4, 6), (4, 4, 0), (5, 3, 2)] {
        let last = reached(INSIDE, &[share1], INSIDE, &[share2], LAST);
        print!(rt; "a {a}: ")?;
        answered(rt, last)?;
        inside(rt, last)?;
    }
    Ok(())
}

// No ground refuses the words of another kind of job: each hear is taken, as of any words.
fn crossed(
    rt: &impl Print,
    task1: Task,
    shares1: &[u32],
    task2: Task,
    shares2: &[u32],
) -> io::Result<()>
    requires { (count_of task1 ≤ 2) × (count_of task2 ≤ 2) }
{
    answers(rt, "box 1", |step| {
        reached(task1, shares1, task2, shares2, step).box1.answer
    })?;
    answers(rt, "box 2", |step| {
        reached(task1, shares1, task2, shares2, step).box2.answer
    })?;
    answered(rt, reached(task1, shares1, task2, shares2, LAST))?;
    println!(rt)
}

fn other_words(rt: &impl Print) -> io::Result<()> {
    let two = Task::Compare(2);
    println!(rt; "a band at box 1, a joined pair at box 2")?;
    crossed(rt, INSIDE, &[4], two, &[5, 3, 5, 1])?;
    println!(rt; "a joined pair at box 1, a band at box 2")?;
    crossed(rt, two, &[5, 1, 6, 2], INSIDE, &[6])
}

pub fn lines(rt: &impl Print) -> io::Result<()> {
    drops(rt)?;
    println!(rt; "a band on tapes 1 and 2, bounds 2 5")?;
    answers(rt, "box 1", |step| band(step).box1.answer)?;
    answers(rt, "box 2", |step| band(step).box2.answer)?;
    held(rt, "start", band(1))?;
    held(rt, "hear 5", band(LAST))?;
    cases(rt)?;
    other_words(rt)
}
