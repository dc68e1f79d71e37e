// Wake's grounds: 5, 2, 3, 4. Drop's: 1, 6.
use crate::calls::wake;
use crate::say::line;
use crate::states;
use crate::tallies::{FRESH, with_mark};
use rules::state::FIRST;
use std::io;

fn states_and_words(rt: &impl Print) -> io::Result<()> {
    line(rt, "wake, idle: ", wake(states::idle(), 3, 1, &FRESH))?;
    line(rt, "wake, in a job: ", wake(states::opened(), 3, 1, &FRESH))?;
    line(rt, "wake, n 4: ", wake(FIRST, 4, 1, &FRESH))?;
    line(rt, "wake, side 0: ", wake(FIRST, 3, 0, &FRESH))?;
    line(rt, "wake, side 3: ", wake(FIRST, 3, 3, &FRESH))
}

fn of_length(rt: &impl Print, tally: &[u8]) -> io::Result<()> {
    print!(rt; "wake, tally of {}", tally.len())?;
    line(rt, " bytes: ", wake(FIRST, 3, 1, tally))
}

// From none to one mark, and from the longest tally to a mark more.
fn lengths(rt: &impl Print) -> io::Result<()> {
    let bytes = [255u8; 11684];
    for count in [0, 3, 4, 5, 11680, 11681, 11684] {
        of_length(rt, &bytes[..count])?;
    }
    Ok(())
}

fn of_marks(rt: &impl Print, label: &str, tally: [u8; 16]) -> io::Result<()> {
    line(rt, label, wake(FIRST, 3, 1, &tally))
}

// Marks are counted, not bytes.
fn counts(rt: &impl Print) -> io::Result<()> {
    let half = [255, 255, 255, 0];
    let one = with_mark(FRESH, 1, [0, 0, 255, 255]);
    let two = with_mark(with_mark(FRESH, 0, half), 1, [0, 255, 255, 255]);
    let all = with_mark(with_mark(two, 2, half), 3, half);
    of_marks(rt, "wake, bytes 4 and 5 of 16 00: ", one)?;
    of_marks(rt, "wake, bytes 3 and 4 of 16 00: ", two)?;
    of_marks(rt, "wake, one byte of each of four marks 00: ", all)
}

fn drops(rt: &impl Print) -> io::Result<()> {
    line(rt, "drop, asleep: ", crate::calls::drop(FIRST))?;
    line(rt, "drop, idle: ", crate::calls::drop(states::idle()))
}

pub fn lines(rt: &impl Print) -> io::Result<()> {
    states_and_words(rt)?;
    lengths(rt)?;
    counts(rt)?;
    drops(rt)
}
