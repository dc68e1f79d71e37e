// Speak and hear in a job of two on tapes 0 and 1. What they ask for is the same in a band, which is two comparisons too.
ghost use Rattle.std.specs.Prelude.{◌≡◌, true, ◌<◌, ◌≤◌, [], ◌∷◌, length, set, drop, take, replicate};
ghost use Rattle.lists.specs.Tabulate.{tabulate};
ghost use Rattle.rules.specs.Calls.{speak_rule, hear_rule};
ghost use Rattle.rules.specs.Answers.{reply_of};
ghost use Rattle.walk.specs.Said.{as_reply};
ghost use Rattle.walk.specs.Walk.{joined_tapes, filler, roomy_speak, roomy_hear, Answered};

use crate::answers::Answer;
use crate::calls::{FILLER, Tried, hear, speak, untouched};
use crate::say::{answer, line};
use crate::{states, tapes};
use rules::state::{Batch, State, Turn};
use std::io;

// Both tapes, in order.
fn own() -> [u32; 298]
    ensures { (length result ≡ 298) × (result ≡ joined_tapes (1 ∷ 1 ∷ []) 0) }
{
    tapes::joined(&[1, 1], 0)
}

// The same with another word in one place.
fn changed(place: usize, word: u32) -> [u32; 298]
    requires { place < 298 }
    ensures { (length result ≡ 298) × (result ≡ set (joined_tapes (1 ∷ 1 ∷ []) 0) place word) }
{
    let mut tapes = own();
    tapes[place] = word;
    tapes
}

// Another number than the first, and what is wrong with the tapes: their length, or the second one alone.
fn refused<F: Fn(u32, &[u32]) -> Tried>(
    rt: &impl Print,
    call: &str,
    jobs: &str,
    due: F,
) -> io::Result<()>
    requires { F.IsAlwaysCallable due }
{
    let three: [u32; 447] = tapes::joined(&[1, 1, 1], 0);
    let other: [u32; 298] = tapes::joined(&[1, 2], 0);
    print!(rt; "{call} of {jobs}, number 1")?;
    line(rt, ": ", due(1, &own()))?;
    for (what, tapes) in [
        ("tapes of 149 words", &three[..149]),
        ("tapes of 297 words", &three[..297]),
        ("tapes of 299 words", &three[..299]),
        ("tapes of 447 words", &three),
        ("the other box's tape for job 2", &other),
        ("job 2's tape of number 0", &changed(149 + 147, 0)),
        ("last body word of job 2's tape 7", &changed(149 + 141, 7)),
    ] {
        print!(rt; "{call} of {jobs}, {what}")?;
        line(rt, ": ", due(0, tapes))?;
    }
    Ok(())
}

// A speak with the room of two jobs.
pub fn speak_two(state: State, first: u32, tapes: &[u32]) -> Tried
    ensures { Answered result state (filler 66) (speak_rule state first 1 tapes.now (tabulate 200 (λ k. 0)) (filler 66)) }
{
    let mut out = [FILLER; 66];
    speak(state, first, 1, tapes, &[0; 200], &mut out)
}

// A speak with plain tapes of those sides, and so many words of work and out.
pub fn speak_of(state: State, first: u32, sides: [u32; 2], work: usize, words: usize) -> Tried
    requires { (work ≤ 200) × (words ≤ 66) }
    ensures { Answered result state (filler words) (speak_rule state first 1 (joined_tapes sides 0) (take work (replicate 200 0)) (filler words)) }
{
    let tapes: [u32; 298] = tapes::joined(&sides, 0);
    let mut out = [FILLER; 66];
    speak(
        state,
        first,
        1,
        &tapes,
        &[0; 200][..work],
        &mut out[..words],
    )
}

// A hear with the room and the words of two jobs.
pub fn hear_two(state: State, first: u32, tapes: &[u32]) -> Tried
    ensures { Answered result state (filler 200) (hear_rule state first 1 tapes.now (filler 200) (tabulate 66 (λ k. 0))) }
{
    let mut work = [FILLER; 200];
    hear(state, first, 1, tapes, &mut work, &[0; 66])
}

// A hear of so many words, all 0 but for one place, with so many words of work.
fn hear_of(state: State, words: usize, place: usize, word: u32, room: usize) -> Tried
    requires { (words ≤ 99) × (place < 99) × (room ≤ 200) }
    ensures { Answered result state (filler room) (hear_rule state 0 1 (joined_tapes (1 ∷ 1 ∷ []) 0)
        (filler room) (take words (set (tabulate 99 (λ k. 0)) place word))) }
{
    let mut work = [FILLER; 200];
    let mut incoming = [0; 99];
    incoming[place] = word;
    hear(state, 0, 1, &own(), &mut work[..room], &incoming[..words])
}

fn rooms(rt: &impl Print, jobs: &str, opened: State) -> io::Result<()> {
    for (what, work, words) in [
        ("work of 199 words", 199, 66),
        ("out of 65 words", 200, 65),
        ("out of 66 words", 200, 66),
    ] {
        print!(rt; "speak of {jobs}, {what}")?;
        line(rt, ": ", speak_of(opened, 0, [1, 1], work, words))?;
    }
    Ok(())
}

fn words(rt: &impl Print, jobs: &str, spoken: State) -> io::Result<()> {
    print!(rt; "hear of {jobs}, work of 199 words")?;
    line(rt, ": ", hear_of(spoken, 66, 0, 0, 199))?;
    for words in [33, 65, 67, 99] {
        print!(rt; "hear of {jobs}, {words} words")?;
        line(rt, ": ", hear_of(spoken, words, 0, 0, 200))?;
    }
    for (what, place, word) in [
        ("first word 8", 0, 8),
        ("job 2's first word 8", 33, 8),
        ("job 2's last word 8", 65, 8),
        ("job 2's last word 7", 65, 7),
    ] {
        print!(rt; "hear of {jobs}, {what}")?;
        line(rt, ": ", hear_of(spoken, 66, place, word, 200))?;
    }
    Ok(())
}

// What a call answered whose buffer has a third more words than two jobs use, and whether those are as they were.
fn past(rt: &impl Print, said: Answer, kept: bool) -> io::Result<()> {
    let left = if kept { "as they were" } else { "CHANGED" };
    answer(rt, said)?;
    println!(rt; ", the words past them {left}")
}

// Out has 99 words.
fn spoken_past(state: State) -> (Answer, bool)
    ensures reply { reply_of as_reply result.0 ≡ (roomy_speak state).reply }
    ensures kept { (result.1 ≡ true → drop 66 (roomy_speak state).buffer ≡ filler 33)
        × (drop 66 (roomy_speak state).buffer ≡ filler 33 → result.1 ≡ true) }
{
    let mut out = [FILLER; 99];
    let tried = speak(state, 0, 1, &own(), &[0; 200], &mut out);
    (tried.answer, untouched(&out[66..]))
}

// Work has 300.
fn heard_past(state: State) -> (Answer, bool)
    ensures reply { reply_of as_reply result.0 ≡ (roomy_hear state).reply }
    ensures kept { (result.1 ≡ true → drop 200 (roomy_hear state).buffer ≡ filler 100)
        × (drop 200 (roomy_hear state).buffer ≡ filler 100 → result.1 ≡ true) }
{
    let mut work = [FILLER; 300];
    let tried = hear(state, 0, 1, &own(), &mut work, &[0; 66]);
    (tried.answer, untouched(&work[200..]))
}

// With speak 1 or hear 1 of such jobs due.
pub fn of_jobs(rt: &impl Print, jobs: &str, batch: Batch) -> io::Result<()> {
    let opened = states::in_job(Turn::Speak(1), batch);
    let spoken = states::in_job(Turn::Hear(1), batch);
    refused(rt, "speak", jobs, |first, tapes| {
        speak_two(opened, first, tapes)
    })?;
    rooms(rt, jobs, opened)?;
    let (said, kept) = spoken_past(opened);
    print!(rt; "speak of {jobs}, out of 99 words: ")?;
    past(rt, said, kept)?;
    refused(rt, "hear", jobs, |first, tapes| {
        hear_two(spoken, first, tapes)
    })?;
    words(rt, jobs, spoken)?;
    let (said, kept) = heard_past(spoken);
    print!(rt; "hear of {jobs}, work of 300 words: ")?;
    past(rt, said, kept)
}

pub fn lines(rt: &impl Print) -> io::Result<()> {
    of_jobs(rt, "two", states::two())
}
