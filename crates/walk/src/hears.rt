// Hear's grounds: 1, 6, 11, 10, 12, 13.

ghost use Rattle.std.specs.Prelude.{◌≡◌, ◌<◌, length, set};
ghost use Rattle.lists.specs.Tabulate.{tabulate};
ghost use Rattle.rules.specs.Calls.{hear_rule};
ghost use Rattle.rules.specs.declared.state.Turn.TheVariants.{Hear};
ghost use Rattle.walk.specs.Walk.{box_tape, job_state, filler, Answered};

use crate::calls::{FILLER, Tried, hear};
use crate::five::hear_on;
use crate::say::line;
use crate::speaks::tapes_lent;
use crate::{states, tapes};
use rules::state::FIRST;
use std::io;

fn turns(rt: &impl Print) -> io::Result<()> {
    line(rt, "hear, asleep: ", hear_on(FIRST, 0, 1))?;
    line(rt, "hear, idle: ", hear_on(states::idle(), 0, 1))?;
    line(rt, "hear, number 1: ", hear_on(states::spoken(), 1, 1))?;
    line(rt, "hear, round 2: ", hear_on(states::spoken(), 0, 2))?;
    line(rt, "hear, speak 1 due: ", hear_on(states::opened(), 0, 1))
}

// The hear that is due, lent this tape.
fn on_tape(tape: &[u32]) -> Tried
    ensures { Answered result (job_state 16 (Hear 1)) (filler 100) (hear_rule (job_state 16 (Hear 1)) 0 1 tape.now (filler 100) (tabulate 33 (λ k. 0))) }
{
    let mut work = [FILLER; 100];
    hear(states::spoken(), 0, 1, tape, &mut work, &[0; 33])
}

// The hear that is due, of these words.
pub fn of_words(incoming: &[u32]) -> Tried
    ensures { Answered result (job_state 16 (Hear 1)) (filler 100) (hear_rule (job_state 16 (Hear 1)) 0 1 (box_tape 1 0) (filler 100) incoming.now) }
{
    let mut work = [FILLER; 100];
    let tape = tapes::plain(1, 0);
    hear(states::spoken(), 0, 1, &tape, &mut work, incoming)
}

fn rooms(rt: &impl Print) -> io::Result<()> {
    let tape = tapes::plain(1, 0);
    let mut work = [FILLER; 99];
    line(
        rt,
        "hear, work of 99 words: ",
        hear(states::spoken(), 0, 1, &tape, &mut work, &[0; 33]),
    )?;
    line(rt, "hear, 32 words: ", of_words(&[0; 32]))?;
    line(rt, "hear, 34 words: ", of_words(&[0; 34]))
}

// Zeros with another word in one place.
pub fn changed(place: usize, word: u32) -> [u32; 33]
    requires { place < 33 }
    ensures { (length result ≡ 33) × (result ≡ set (tabulate 33 (λ k. 0)) place word) }
{
    let mut incoming = [0u32; 33];
    incoming[place] = word;
    incoming
}

// The hear that is due, of those.
pub fn of_changed(place: usize, word: u32) -> Tried
    requires { place < 33 }
    ensures { Answered result (job_state 16 (Hear 1)) (filler 100) (hear_rule (job_state 16 (Hear 1)) 0 1 (box_tape 1 0) (filler 100) (set (tabulate 33 (λ k. 0)) place word)) }
{
    of_words(&changed(place, word))
}

pub fn lines(rt: &impl Print) -> io::Result<()> {
    turns(rt)?;
    tapes_lent(rt, "hear", on_tape)?;
    rooms(rt)?;
    line(rt, "hear, first word 7: ", of_changed(0, 7))?;
    line(rt, "hear, first word 8: ", of_changed(0, 8))?;
    line(rt, "hear, last word 7: ", of_changed(32, 7))?;
    line(rt, "hear, last word 8: ", of_changed(32, 8))
}
