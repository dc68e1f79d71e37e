// A drop at every point of a job of three on tapes 1 to 3: what the state holds of it before and after, and a start on each tape. After the last
// hear the job is closed already.
use crate::calls;
use crate::cuts::starts;
use crate::five::Box1;
use crate::job_steps::{LAST, Step};
use crate::joined_job::together;
use crate::memory::BoxMemory;
use crate::say::{batch, short};
use std::io;

// After that step, with what the box keeps then.
pub fn line(rt: &impl Print, step: u32, memory: BoxMemory) -> io::Result<()> {
    let BoxMemory { state, tally, .. } = memory;
    print!(rt; "after {}:", Step::at(step))?;
    batch(rt, state.batch)?;
    let dropped = calls::drop(state);
    print!(rt; "; drop")?;
    short(rt, dropped)?;
    print!(rt; ";")?;
    batch(rt, dropped.state.batch)?;
    print!(rt; "; a start on each tape")?;
    let left = Box1 {
        state: dropped.state,
        tally,
    };
    starts(rt, &left, 4)
}

pub fn lines(rt: &impl Print) -> io::Result<()> {
    println!(rt; "a drop of a job of three on tape 1")?;
    for step in 1..=LAST {
        line(rt, step, together(step).box1)?;
    }
    Ok(())
}
