// First match counts: each call with all its grounds at once, then without the first of them, and so on until it is taken.
ghost use Rattle.lists.specs.Tabulate.{tabulate};
ghost use Rattle.rules.specs.Calls.{speak_rule, hear_rule};
ghost use Rattle.walk.specs.Walk.{box_tape, filler, spent_tally, one_start, Answered};

use crate::calls::{FILLER, Tried};
use crate::hears::of_words;
use crate::say::short;
use crate::tallies::{FRESH, spent};
use crate::tapes::plain;
use crate::{calls, states};
use rules::state::{FIRST, State};
use std::io;

fn wakes(rt: &impl Print) -> io::Result<()> {
    print!(rt; "wake, first of several:")?;
    short(rt, calls::wake(states::idle(), 4, 3, &[]))?;
    short(rt, calls::wake(FIRST, 4, 3, &[]))?;
    short(rt, calls::wake(FIRST, 3, 3, &[]))?;
    short(rt, calls::wake(FIRST, 3, 1, &[]))?;
    short(rt, calls::wake(FIRST, 3, 1, &FRESH))?;
    println!(rt)
}

// A start with shares, tape and work that are refused, where tapes 0 and 2 are spent: 0 and 1 are late.
fn wrong_start(state: State, number: u32) -> Tried
    ensures { Answered result state spent_tally (one_start state number 7 7 (box_tape 2 0) (tabulate 99 (λ k. 0)) spent_tally) }
{
    let tape = plain(2, 0);
    calls::start_one(state, number, 7, 7, &tape, &[0; 99], spent())
}

// On a fresh tape: without the wrong shares, then without the other box's tape, then with all of the work.
fn fresh_starts(rt: &impl Print) -> io::Result<()> {
    let idle = states::idle();
    let other = plain(2, 0);
    let own = plain(1, 0);
    short(rt, calls::start_one(idle, 0, 7, 7, &other, &[0; 99], FRESH))?;
    short(rt, calls::start_one(idle, 0, 5, 1, &other, &[0; 99], FRESH))?;
    short(rt, calls::start_one(idle, 0, 5, 1, &own, &[0; 99], FRESH))?;
    short(rt, calls::start_one(idle, 0, 5, 1, &own, &[0; 100], FRESH))
}

fn starts(rt: &impl Print) -> io::Result<()> {
    print!(rt; "start, first of several:")?;
    short(rt, wrong_start(FIRST, 4))?;
    short(rt, wrong_start(states::longer(states::opened()), 4))?;
    short(rt, wrong_start(states::longer(states::idle()), 4))?;
    short(rt, wrong_start(states::idle(), 4))?;
    short(rt, wrong_start(states::idle(), 0))?;
    short(rt, wrong_start(states::idle(), 1))?;
    fresh_starts(rt)?;
    println!(rt)
}

// A speak with a tape, work and out that are refused.
fn wrong_speak(state: State, number: u32) -> Tried
    ensures { Answered result state (filler 32) (speak_rule state number 1 (box_tape 2 0) (tabulate 99 (λ k. 0)) (filler 32)) }
{
    let mut out = [FILLER; 32];
    calls::speak(state, number, 1, &plain(2, 0), &[0; 99], &mut out)
}

// What a speak asks of a tape in order.
fn due_speaks(rt: &impl Print) -> io::Result<()> {
    let opened = states::opened();
    let tape = plain(1, 0);
    let mut out = [FILLER; 33];
    short(rt, calls::speak(opened, 0, 1, &tape, &[0; 99], &mut out))?;
    short(rt, calls::speak(opened, 0, 1, &tape, &[0; 100], &mut out))
}

fn speaks(rt: &impl Print) -> io::Result<()> {
    print!(rt; "speak, first of several:")?;
    short(rt, wrong_speak(FIRST, 1))?;
    short(rt, wrong_speak(states::idle(), 1))?;
    short(rt, wrong_speak(states::opened(), 1))?;
    short(rt, wrong_speak(states::opened(), 0))?;
    due_speaks(rt)?;
    println!(rt)
}

// A hear with a tape, work and words that are refused.
fn wrong_hear(state: State, number: u32) -> Tried
    ensures { Answered result state (filler 99) (hear_rule state number 1 (box_tape 2 0) (filler 99) (tabulate 32 (λ k. 8))) }
{
    let mut work = [FILLER; 99];
    calls::hear(state, number, 1, &plain(2, 0), &mut work, &[8; 32])
}

// On a tape in order: work and the words are too few, then the words are above p, then zeros.
fn due_hears(rt: &impl Print) -> io::Result<()> {
    let spoken = states::spoken();
    let tape = plain(1, 0);
    let mut less = [FILLER; 99];
    short(rt, calls::hear(spoken, 0, 1, &tape, &mut less, &[8; 32]))?;
    short(rt, of_words(&[8; 33]))?;
    short(rt, of_words(&[0; 33]))
}

fn hears(rt: &impl Print) -> io::Result<()> {
    print!(rt; "hear, first of several:")?;
    short(rt, wrong_hear(FIRST, 1))?;
    short(rt, wrong_hear(states::idle(), 1))?;
    short(rt, wrong_hear(states::spoken(), 1))?;
    short(rt, wrong_hear(states::spoken(), 0))?;
    due_hears(rt)?;
    println!(rt)
}

fn drops(rt: &impl Print) -> io::Result<()> {
    print!(rt; "drop, first of several:")?;
    short(rt, calls::drop(FIRST))?;
    short(rt, calls::drop(states::idle()))?;
    short(rt, calls::drop(states::opened()))?;
    println!(rt)
}

pub fn lines(rt: &impl Print) -> io::Result<()> {
    wakes(rt)?;
    starts(rt)?;
    speaks(rt)?;
    hears(rt)?;
    drops(rt)
}
