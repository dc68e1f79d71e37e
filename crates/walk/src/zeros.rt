// A 7, which is p, is heard as 0: in each round of a job, both boxes hear a message of sevens as one of zeros.
ghost use Rattle.std.specs.Prelude.{◌≡◌, true, ◌≤◌};
ghost use Rattle.lists.specs.Tabulate.{tabulate};
ghost use Rattle.protocol.specs.Rounds.{last_round};
ghost use Rattle.walk.specs.Walk.{HeardAsZeros};

use crate::memory::BoxMemory;
use crate::progress;
use std::io;

// Whether two boxes gave the same answer, and have the same state and work.
// Part by part: == on the whole memory of a box would ask for out and the tally to be equal too, which is more than is meant.
fn same(a: BoxMemory, b: BoxMemory) -> bool
    ensures { (result ≡ true → (a.answer ≡ b.answer) × (a.state ≡ b.state) × (a.work ≡ b.work))
        × (a.answer ≡ b.answer → a.state ≡ b.state → a.work ≡ b.work → result ≡ true) }
{
    a.answer == b.answer && a.state == b.state && a.work == b.work
}

// Whether a box's hear of these words is taken, and is its hear of zeros: the same answer, state and work. The tape is one on
// which a hear depends on the words.
pub fn as_zeros(b: BoxMemory, side: u32, round: u32, incoming: [u32; 33]) -> bool
    ensures { (result ≡ true → HeardAsZeros b.state side round b.work incoming)
        × (HeardAsZeros b.state side round b.work incoming → result ≡ true) }
{
    let tape = crate::tapes::threes(side);
    let mut after = b;
    let mut zeros = b;
    let words = crate::five::words(round);
    after.hear(0, round, &tape, &incoming[..words]);
    zeros.hear(0, round, &tape, &[0; 33][..words]);
    after.answer.is_ok() && same(after, zeros)
}

// The same of sevens.
fn sevens_as_zeros(b: BoxMemory, side: u32, round: u32) -> bool
    ensures { (result ≡ true → HeardAsZeros b.state side round b.work (tabulate 33 (λ k. 7)))
        × (HeardAsZeros b.state side round b.work (tabulate 33 (λ k. 7)) → result ≡ true) }
{
    as_zeros(b, side, round, [7; 33])
}

// Says so: only of a box of which it is so.
fn tell_as_zeros(rt: &impl Print, b: BoxMemory, side: u32, round: u32) -> io::Result<()>
    requires { HeardAsZeros b.state side round b.work (tabulate 33 (λ k. 7)) }
{
    print!(rt; " as of zeros")
}

fn told(rt: &impl Print, b: BoxMemory, side: u32, round: u32) -> io::Result<()> {
    print!(rt; "box {side}")?;
    if sevens_as_zeros(b, side, round) {
        tell_as_zeros(rt, b, side, round)
    } else {
        print!(rt; " NOT as of zeros")
    }
}

// Both boxes have spoken, and hear as many words as the round has.
fn line(rt: &impl Print, round: u32) -> io::Result<()>
    requires { round ≤ last_round }
{
    let pair = progress::reached(2 * round);
    print!(rt; "hear {round}, {} words 7: ", crate::five::words(round))?;
    told(rt, pair.box1, 1, round)?;
    print!(rt; ", ")?;
    told(rt, pair.box2, 2, round)?;
    println!(rt)
}

pub fn lines(rt: &impl Print) -> io::Result<()> {
    for round in 1..=compare::words::LAST_ROUND {
        line(rt, round)?;
    }
    Ok(())
}
