// One whole job of both boxes: x = 5 + 5 = 3 and y = 1 + 3 = 4 modulo 7.
ghost use Rattle.std.specs.Prelude.{◌≡◌, ◌+◌, ◌%◌, ◌≤◌};
ghost use Rattle.protocol.specs.Rounds.{last_round};
ghost use Rattle.rules.specs.Answers.{reply_of};
ghost use Rattle.walk.specs.Said.{as_reply, shares_in};

use crate::answers::{Answer, Said};
use crate::{job_steps, progress};
use rules::state::MOST_JOBS;
use std::io;

// What one of the boxes answers at each step.
pub fn answers<F: Fn(u32) -> Answer>(rt: &impl Print, label: &str, after: F) -> io::Result<()>
    requires { F.IsAlwaysCallable after }
{
    print!(rt; "{label}:")?;
    for step in 0..=job_steps::LAST {
        print!(rt; " ")?;
        crate::say::answer(rt, after(step))?;
    }
    println!(rt)
}

// Two shares opened.
pub fn opened(share1: u32, share2: u32) -> u32
    ensures { result ≡ (share1 + share2) % 7 }
{
    ((share1 as u64 + share2 as u64) % 7) as u32
}

// The words that both boxes' messages of a round open. The plain tapes' masks are 0, so these are the factors of its products.
fn openings(rt: &impl Print, round: u32) -> io::Result<()>
    requires { round ≤ last_round }
{
    let pair = progress::reached(2 * round);
    let count = crate::five::words(round);
    print!(rt; "round {round} opens")?;
    // Without a heap the room for a message is of one size, and a shorter one is its first words.
    for (&word1, &word2) in pair.box1.out[..count].iter().zip(&pair.box2.out[..count]) {
        print!(rt; " {}", opened(word1, word2))?;
    }
    println!(rt)
}

// The answer shares, if they were answered.
pub fn shares_in(answer: Answer) -> Option<[u32; MOST_JOBS]>
    ensures { result ≡ shares_in (reply_of as_reply answer) }
{
    match answer {
        Ok(Said::Finished(shares)) => Some(shares),
        _ => None,
    }
}

pub fn lines(rt: &impl Print) -> io::Result<()> {
    println!(rt; "a whole job, x 3 and y 4")?;
    answers(rt, "box 1", |step| progress::reached(step).box1.answer)?;
    answers(rt, "box 2", |step| progress::reached(step).box2.answer)?;
    openings(rt, 4)?;
    openings(rt, 5)?;
    let last = progress::reached(job_steps::LAST);
    match (shares_in(last.box1.answer), shares_in(last.box2.answer)) {
        (Some(shares1), Some(shares2)) => println!(rt; "less {}", opened(shares1[0], shares2[0])),
        _ => println!(rt; "NO answer share"),
    }
}
