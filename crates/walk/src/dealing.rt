// The test dealer's grounds: 14, 2, 12. Both buffers are lent full of filler.
ghost use Rattle.std.specs.Prelude.{◌≡◌, ◌≤◌, length};
ghost use Rattle.walk.specs.Walk.{filler};
ghost use Rattle.walk.specs.Deals.{dealt, Told};

use crate::calls::{FILLER, untouched};
use crate::say::{in_line, whole_line};
use refusals::Refusal;
use std::io;

#[derive(Clone, Copy)]
pub struct Attempt {
    pub answer: Result<(), Refusal>,
    // whether both buffers are as they were
    pub kept: bool,
}

fn deal(seed: u32, n: u32, t1: &mut [u32], t2: &mut [u32]) -> Attempt
    requires { (t1.old ≡ filler (length t1.old)) × (t2.old ≡ filler (length t2.old)) }
    ensures { Told result t1.old t2.old (dealt seed n t1.old t2.old) }
{
    let answer = deals::deal(seed, n, crate::tapes::PAIR, 0, &mut *t1, &mut *t2);
    Attempt {
        answer,
        kept: untouched(t1) && untouched(t2),
    }
}

// Into buffers of so many words: without a heap the room is of one size, and what is shorter uses its first words.
#[tactic(auto, using(crate::proofs::Deals::front, crate::proofs::Deals::whole))]
fn sized(seed: u32, n: u32, words1: usize, words2: usize) -> Attempt
    requires { (words1 ≤ 150) × (words2 ≤ 150) }
    ensures { Told result (filler words1) (filler words2) (dealt seed n (filler words1) (filler words2)) }
{
    let mut t1 = [FILLER; 150];
    let mut t2 = [FILLER; 150];
    deal(seed, n, &mut t1[..words1], &mut t2[..words2])
}

// One ground at a time.
fn single(rt: &impl Print) -> io::Result<()> {
    for (label, seed, n, words1, words2) in [
        ("deal, seed 0: ", 0, 3, 149, 149),
        ("deal, n 4: ", 1, 4, 149, 149),
        ("deal, box 1's buffer of 148 words: ", 1, 3, 148, 149),
        ("deal, box 1's buffer of 150 words: ", 1, 3, 150, 149),
        ("deal, box 2's buffer of 148 words: ", 1, 3, 149, 148),
        ("deal, box 2's buffer of 150 words: ", 1, 3, 149, 150),
    ] {
        let Attempt { answer, kept } = sized(seed, n, words1, words2);
        whole_line(rt, label, answer.map(|_| "dealt"), kept)?;
    }
    Ok(())
}

// All at once, then without the first of them, and so on until it is taken.
fn several(rt: &impl Print) -> io::Result<()> {
    print!(rt; "deal, first of several:")?;
    for (seed, n, words1, words2) in [
        (0, 4, 148, 150),
        (1, 4, 148, 150),
        (1, 3, 148, 150),
        (1, 3, 149, 149),
    ] {
        let Attempt { answer, kept } = sized(seed, n, words1, words2);
        in_line(rt, answer.map(|_| "dealt"), kept)?;
    }
    println!(rt)
}

pub fn lines(rt: &impl Print) -> io::Result<()> {
    single(rt)?;
    several(rt)
}
