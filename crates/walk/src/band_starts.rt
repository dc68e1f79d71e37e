// A band's start: its bounds, its numbers, its one share, its tapes, its room to work, and the marks.
use crate::joined_starts::{last_number, of_shares, of_sides, tape_lengths};
use crate::say::{line, short};
use crate::tallies::FRESH;
use crate::{joined_grounds, joined_starts, states};
use rules::state::Task;
use std::io;

// 2 < a and a < 5.
pub const INSIDE: Task = Task::Band(2, 5);

// Box 1's share of a.
pub const SHARE: [u32; 1] = [3];

// The lower bound below the upper one, and that below p, or not.
fn bounds(rt: &impl Print) -> io::Result<()> {
    for (low, high) in [
        (2, 2),
        (5, 2),
        (2, 6),
        (2, 7),
        (0, 1),
        (0, 0),
        (7, 8),
        (2, 4294967295),
        (4294967295, 0),
    ] {
        print!(rt; "start of a band, bounds {low} {high}")?;
        line(rt, ": ", of_shares(0, Task::Band(low, high), &SHARE))?;
    }
    Ok(())
}

// This lower bound with every upper one, up to p + 1.
fn upper_bounds(rt: &impl Print, low: u32) -> io::Result<()> {
    print!(rt; "start of a band, bounds {low} and each of 0 to 8:")?;
    for high in 0..9 {
        short(rt, of_shares(0, Task::Band(low, high), &SHARE))?;
    }
    println!(rt)
}

fn all_bounds(rt: &impl Print) -> io::Result<()> {
    for low in 0..9 {
        upper_bounds(rt, low)?;
    }
    Ok(())
}

fn shares(rt: &impl Print) -> io::Result<()> {
    for share in [0, 6, 7] {
        print!(rt; "start of a band, share {share}")?;
        line(rt, ": ", of_shares(0, INSIDE, &[share]))?;
    }
    Ok(())
}

// The second number is the tally's last, or the first past it; then the first number is.
fn numbers(rt: &impl Print) -> io::Result<()> {
    for first in [2, 3, 4] {
        print!(rt; "start of a band, first number {first} of four")?;
        line(
            rt,
            ": ",
            of_sides(states::idle(), first, INSIDE, &SHARE, [1, 1], 200, FRESH),
        )?;
    }
    last_number(rt, "a band", INSIDE, &SHARE)
}

fn lent(rt: &impl Print) -> io::Result<()> {
    for (what, sides, words) in [
        ("the other box's tape for job 1", [2, 1], 200),
        ("the other box's tape for job 2", [1, 2], 200),
        ("work of 199 words", [1, 1], 199),
        ("work of 200 words", [1, 1], 200),
    ] {
        print!(rt; "start of a band, {what}")?;
        line(
            rt,
            ": ",
            of_sides(states::idle(), 0, INSIDE, &SHARE, sides, words, FRESH),
        )?;
    }
    Ok(())
}

pub fn lines(rt: &impl Print) -> io::Result<()> {
    bounds(rt)?;
    all_bounds(rt)?;
    shares(rt)?;
    numbers(rt)?;
    tape_lengths(rt, "a band", INSIDE, &SHARE)?;
    lent(rt)?;
    joined_grounds::marks(rt, "a band", INSIDE, &SHARE)?;
    joined_starts::marks(rt, "a band", INSIDE, &SHARE)
}
