// The three comparisons together give what they give one by one: each job's words in every round, its mark and its answer share.
ghost use Rattle.std.specs.Prelude.{◌≡◌, true, ◌<◌};
ghost use Rattle.rules.specs.Answers.{reply_of};
ghost use Rattle.walk.specs.Said.{as_reply, shares_in};
ghost use Rattle.walk.specs.Three.{InRounds, step_of, SameShare, Same};
ghost use Rattle.walk.specs.declared.one_by_one.Part.TheVariants.{Words, Marks};

use crate::answers::Answer;
use crate::job::shares_in;
use crate::job_steps::LAST;
use crate::joined_job::{one_by_one, together};
use crate::progress::Pair;
use compare::words::LAST_ROUND;
use std::io;

// What is compared of a job.
#[derive(Clone, Copy)]
pub enum Part {
    // what it says in a round
    Words(u32),
    // its mark and those below it
    Marks,
    Share,
}

// The step after which it is there.
fn steps(part: Part) -> u32
    requires { InRounds part }
    ensures { result ≡ step_of part }
{
    match part {
        Part::Words(round) => 2 * round,
        Part::Marks | Part::Share => LAST,
    }
}

// Part i of both boxes' messages, and what they say in the job alone.
fn same_words(joined: Pair, alone: Pair, round: u32, i: usize) -> bool
    requires { i < 3 }
    ensures { (result ≡ true → Same (Words round) i joined alone) × (Same (Words round) i joined alone → result ≡ true) }
{
    let words = crate::five::words(round);
    let from = i * words;
    let part1 = &joined.box1.out[from..from + words];
    let part2 = &joined.box2.out[from..from + words];
    part1 == &alone.box1.out[..words] && part2 == &alone.box2.out[..words]
}

fn same_marks(joined: Pair, alone: Pair, i: usize) -> bool
    requires { i < 3 }
    ensures { (result ≡ true → Same Marks i joined alone) × (Same Marks i joined alone → result ≡ true) }
{
    let bytes = 4 * (i + 2);
    joined.box1.tally[..bytes] == alone.box1.tally[..bytes]
        && joined.box2.tally[..bytes] == alone.box2.tally[..bytes]
}

// Both have finished, and answer share i is the one of the job alone.
fn same_share(joined: Answer, alone: Answer, i: usize) -> bool
    requires { i < 3 }
    ensures { (result ≡ true → SameShare i (shares_in (reply_of as_reply joined)) (shares_in (reply_of as_reply alone)))
        × (SameShare i (shares_in (reply_of as_reply joined)) (shares_in (reply_of as_reply alone)) → result ≡ true) }
{
    match (shares_in(joined), shares_in(alone)) {
        (Some(all), Some(one)) => all[i] == one[0],
        _ => false,
    }
}

// Whether both boxes have the same of job i, where the jobs before it were done alone too.
fn is_same(part: Part, joined: Pair, alone: Pair, i: usize) -> bool
    requires { i < 3 }
    ensures { (result ≡ true → Same part i joined alone) × (Same part i joined alone → result ≡ true) }
{
    match part {
        Part::Words(round) => same_words(joined, alone, round, i),
        Part::Marks => same_marks(joined, alone, i),
        Part::Share => {
            same_share(joined.box1.answer, alone.box1.answer, i)
                && same_share(joined.box2.answer, alone.box2.answer, i)
        }
    }
}

// Says so: only of a job of which it is so.
fn tell_same(rt: &impl Print, part: Part, joined: Pair, alone: Pair, i: usize) -> io::Result<()>
    requires { Same part i joined alone }
{
    print!(rt; " same")
}

fn told(rt: &impl Print, part: Part, i: usize) -> io::Result<()>
    requires { InRounds part × (i < 3) }
{
    let joined = together(steps(part));
    let alone = one_by_one(i, steps(part));
    if is_same(part, joined, alone, i) {
        tell_same(rt, part, joined, alone, i)
    } else {
        print!(rt; " OTHER")
    }
}

fn line(rt: &impl Print, part: Part) -> io::Result<()>
    requires { InRounds part }
{
    print!(rt; " one by one:")?;
    for i in 0..3 {
        told(rt, part, i)?;
    }
    println!(rt)
}

pub fn lines(rt: &impl Print) -> io::Result<()> {
    for round in 1..=LAST_ROUND {
        print!(rt; "round {round}, its words")?;
        line(rt, Part::Words(round))?;
    }
    print!(rt; "the marks")?;
    line(rt, Part::Marks)?;
    print!(rt; "the answer shares")?;
    line(rt, Part::Share)
}
