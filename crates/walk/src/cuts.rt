// Cuts and drops of box 1 at every point of a job.
ghost use Rattle.std.specs.Prelude.{◌≡◌, ◌<◌};
ghost use Rattle.tally.specs.Tally.{mark_of, cut_marked};
ghost use Rattle.walk.specs.Walk.{fresh_tally};

use crate::calls;
use crate::calls::Tried;
use crate::five::Box1;
use crate::job_steps::{LAST, Step};
use crate::progress::box1_after;
use crate::say::{bytes, short};
use crate::tallies::with_mark;
use std::io;

// What a wake or a drop leaves of the box: its tally is as it was.
pub fn after<const N: usize>(box1: &Box1<N>, tried: Tried) -> Box1<N>
    ensures { (result.state ≡ tried.state) × (result.tally ≡ box1.now.tally) }
{
    Box1 {
        state: tried.state,
        ..*box1
    }
}

// A start on each of so many tapes.
pub fn starts<const N: usize>(rt: &impl Print, box1: &Box1<N>, tapes: u32) -> io::Result<()> {
    for number in 0..tapes {
        short(rt, box1.start_on(number))?;
    }
    println!(rt)
}

// The box asleep: the five calls, then it wakes.
fn asleep(rt: &impl Print, box1: &Box1<16>, round: u32) -> io::Result<()> {
    print!(rt; ":")?;
    box1.all(rt, round)?;
    let woken = calls::wake(box1.state, 3, 1, &box1.tally);
    print!(rt; ";")?;
    starts(rt, &after(box1, woken), 2)
}

fn cut(rt: &impl Print, number: u32) -> io::Result<()> {
    let step = Step::at(number);
    print!(rt; "cut after {step}")?;
    asleep(rt, &box1_after(number).cut(), step.round())
}

// Box 1 awake, but for what a cut in a start's write left of that tape's mark.
fn with_left(number: usize, mark: [u8; 4]) -> Box1<16>
    requires { number < 4 }
    ensures { result.tally ≡ cut_marked fresh_tally number (mark_of mark 0) }
{
    let before = box1_after(0);
    Box1 {
        tally: with_mark(before.tally, number, mark),
        ..before
    }
}

// The start's write leaves those values in its four bytes, and the start answers nothing.
fn cut_in_write(rt: &impl Print, mark: [u8; 4]) -> io::Result<()> {
    print!(rt; "cut in the start's write, bytes")?;
    bytes(rt, &mark)?;
    asleep(rt, &with_left(0, mark).cut(), 1)
}

// The byte there: 00 where the number has a bit, FF, not yet written, where it has none. A number, as counting goes through all mixtures.
fn byte_of(bits: u32, place: u32) -> u8
    requires { place < 4 }
{
    if (bits >> place) & 1 == 1 { 0 } else { 255 }
}

// Every kind of group: each byte is FF or 00.
fn kinds(rt: &impl Print) -> io::Result<()> {
    for bits in 0..16 {
        cut_in_write(rt, std::array::from_fn(|place| byte_of(bits, place as u32)))?;
    }
    Ok(())
}

// The box wakes again, and a start is tried on each of so many tapes.
pub fn awake_again<const N: usize>(rt: &impl Print, box1: &Box1<N>, tapes: u32) -> io::Result<()> {
    print!(rt; ": wake")?;
    let woken = calls::wake(box1.state, 3, 1, &box1.tally);
    short(rt, woken)?;
    print!(rt; ", a start on each tape")?;
    starts(rt, &after(box1, woken), tapes)
}

// In a start on tape 2: the tapes below it are late, unless FF was left.
fn cut_above(rt: &impl Print, mark: [u8; 4]) -> io::Result<()> {
    print!(rt; "cut in the write of a start on tape 2, bytes")?;
    bytes(rt, &mark)?;
    awake_again(rt, &with_left(2, mark).cut(), 4)
}

fn drop(rt: &impl Print, number: u32) -> io::Result<()> {
    let before = box1_after(number);
    let step = Step::at(number);
    print!(rt; "drop after {step}:")?;
    let dropped = calls::drop(before.state);
    short(rt, dropped)?;
    print!(rt; ";")?;
    let left = after(&before, dropped);
    left.all(rt, step.round())?;
    print!(rt; ";")?;
    starts(rt, &left, 2)
}

// Both at every point of a job.
fn points(rt: &impl Print) -> io::Result<()> {
    for number in 0..=LAST {
        cut(rt, number)?;
        drop(rt, number)?;
    }
    Ok(())
}

pub fn lines(rt: &impl Print) -> io::Result<()> {
    println!(rt;
        "a cut: wake, start, speak, hear, drop; awake again, start on tape 0, start on tape 1"
    )?;
    println!(rt; "a drop: drop; wake, start, speak, hear, drop; start on tape 0, start on tape 1")?;
    points(rt)?;
    kinds(rt)?;
    cut_in_write(rt, [127, 128, 1, 254])?;
    cut_above(rt, [255, 255, 255, 255])?;
    cut_above(rt, [255, 255, 255, 127])
}
