// Start's grounds: 1, 5, 4, 7, 8, 15, 9, 10, 12.

ghost use Rattle.std.specs.Prelude.{◌≡◌, ◌<◌, set};
ghost use Rattle.lists.specs.Tabulate.{tabulate};
ghost use Rattle.walk.specs.Walk.{idle_state, box_tape, fresh_tally, one_start, Answered};

use crate::calls::{Tried, start_one};
use crate::five::Box1;
use crate::say::{bytes, line};
use crate::tallies::FRESH;
use crate::{states, tallies, tapes};
use rules::state::{FIRST, State};
use std::io;

// With a fresh tally.
fn on_number(state: State, number: u32) -> Tried
    ensures { Answered result state fresh_tally (one_start state number 5 1 (box_tape 1 number) (tabulate 100 (λ k. 0)) fresh_tally) }
{
    let box1 = Box1 {
        state,
        tally: FRESH,
    };
    box1.start_on(number)
}

fn states_and_numbers(rt: &impl Print) -> io::Result<()> {
    line(rt, "start, asleep: ", on_number(FIRST, 0))?;
    line(rt, "start, in a job: ", on_number(states::opened(), 0))?;
    line(
        rt,
        "start, tally of 20 bytes at wake, now of 16: ",
        on_number(states::longer(states::idle()), 0),
    )?;
    line(rt, "start, number 4: ", on_number(states::idle(), 4))?;
    line(
        rt,
        "start, number 4294967295: ",
        on_number(states::idle(), 4294967295),
    )
}

// A start on tape 0 with those marks.
pub fn on_marks(tally: [u8; 16]) -> Tried
    ensures { Answered result (idle_state 16) tally (one_start (idle_state 16) 0 5 1 (box_tape 1 0) (tabulate 100 (λ k. 0)) tally) }
{
    let box1 = Box1 {
        state: states::idle(),
        tally,
    };
    box1.start_on(0)
}

// One byte is enough to spend a tape, first or last of its mark.
fn spent_marks(rt: &impl Print) -> io::Result<()> {
    line(rt, "start, byte 0 00: ", on_marks(tallies::one_byte(0, 0)))?;
    line(
        rt,
        "start, byte 3 FE: ",
        on_marks(tallies::one_byte(3, 254)),
    )
}

// Around the highest spent number. Of the four only number 1 is fresh and late.
fn around_spent(rt: &impl Print) -> io::Result<()> {
    let box1 = Box1 {
        state: states::idle(),
        tally: tallies::spent(),
    };
    for number in 0..4 {
        print!(rt; "start, tapes 0 and 2 spent, number {number}")?;
        line(rt, ": ", box1.start_on(number))?;
    }
    Ok(())
}

// Far below it.
fn below_spent(rt: &impl Print) -> io::Result<()> {
    line(
        rt,
        "start, byte 15 00, number 0: ",
        on_marks(tallies::one_byte(15, 0)),
    )
}

// A start with those shares, and that work.
fn on_shares(x: u32, y: u32, work: &[u32]) -> Tried
    ensures { Answered result (idle_state 16) fresh_tally (one_start (idle_state 16) 0 x y (box_tape 1 0) work.now fresh_tally) }
{
    let tape = tapes::plain(1, 0);
    start_one(states::idle(), 0, x, y, &tape, work, FRESH)
}

fn shares_and_room(rt: &impl Print) -> io::Result<()> {
    line(rt, "start, x 7: ", on_shares(7, 1, &[0; 100]))?;
    line(rt, "start, y 7: ", on_shares(5, 7, &[0; 100]))?;
    line(rt, "start, work of 99 words: ", on_shares(5, 1, &[0; 99]))
}

// A start on number 0 that is lent this tape.
fn on_tape(tape: &[u32]) -> Tried
    ensures { Answered result (idle_state 16) fresh_tally (one_start (idle_state 16) 0 5 1 tape.now (tabulate 100 (λ k. 0)) fresh_tally) }
{
    start_one(states::idle(), 0, 5, 1, tape, &[0; 100], FRESH)
}

fn tape_lengths(rt: &impl Print) -> io::Result<()> {
    line(rt, "start, tape of 148 words: ", on_tape(&tapes::short()))?;
    line(rt, "start, tape of 150 words: ", on_tape(&tapes::long()))
}

// Another word in one place of the tape.
pub fn on_changed(place: usize, word: u32) -> Tried
    requires { place < 149 }
    ensures { Answered result (idle_state 16) fresh_tally (one_start (idle_state 16) 0 5 1 (set (box_tape 1 0) place word) (tabulate 100 (λ k. 0)) fresh_tally) }
{
    on_tape(&tapes::changed(place, word))
}

// Distances that did not grow with the last group; then whose tape it is.
fn trailers(rt: &impl Print) -> io::Result<()> {
    for (what, place, word) in [
        ("distance to the squares 141", 142, 141),
        ("distance to the powers 87", 143, 87),
        ("distance to the triples 51", 144, 51),
        ("tape of pair 6", 145, 6),
        ("tape of side 2", 146, 2),
        ("tape of number 1", 147, 1),
        ("tape of n 5", 148, 5),
    ] {
        print!(rt; "start, {what}")?;
        line(rt, ": ", on_changed(place, word))?;
    }
    Ok(())
}

// The tally after a start on that tape.
fn tally_after(number: u32, tally: [u8; 16]) -> [u8; 16]
    ensures { result ≡ (one_start (idle_state 16) number 5 1 (box_tape 1 number) (tabulate 100 (λ k. 0)) tally).buffer }
{
    let mut state = states::idle();
    let mut after = tally;
    let tape = tapes::plain(1, number);
    let _ = limit_box::start(&mut state, number, 1, &[5, 1], &tape, &[0; 100], &mut after);
    after
}

// A start that is taken marks its tape's four bytes, and no other: its neighbours below are spent and half written, the one above is fresh.
fn mark(rt: &impl Print) -> io::Result<()> {
    let half = tallies::with_mark(FRESH, 1, [255, 255, 255, 0]);
    let before = tallies::with_mark(half, 0, [0; 4]);
    print!(rt; "start on tape 2, the tally before it:")?;
    bytes(rt, &before)?;
    let after = tally_after(2, before);
    print!(rt; "\nstart on tape 2, the tally after it:")?;
    bytes(rt, &after)?;
    println!(rt)
}

pub fn lines(rt: &impl Print) -> io::Result<()> {
    states_and_numbers(rt)?;
    spent_marks(rt)?;
    around_spent(rt)?;
    below_spent(rt)?;
    shares_and_room(rt)?;
    tape_lengths(rt)?;
    trailers(rt)?;
    mark(rt)
}
