// Job by job: whatever is wrong with the first job comes before what is wrong with the second, and so on. 8 and 15 can only be the first job's. Work
// comes last.
ghost use Rattle.std.specs.Prelude.{◌≡◌, ◌≤◌, ◌<◌, [], ◌∷◌, set, replicate, take};
ghost use Rattle.lists.specs.Tabulate.{tabulate};
ghost use Rattle.rules.specs.Calls.{start_rule};
ghost use Rattle.rules.specs.declared.state.Task.TheVariants.{Compare};
ghost use Rattle.walk.specs.Walk.{idle_state, joined_tapes, fresh_tally, Answered};

use crate::calls::{Tried, start};
use crate::say::line;
use crate::tallies::{FRESH, one_byte};
use crate::{states, tapes};
use rules::state::Task;
use std::io;

// A start of three jobs, with plain tapes of those sides and so many words of work.
fn of_three(first: u32, shares: [u32; 6], sides: [u32; 3], words: usize) -> Tried
    requires { (first ≤ 4) × (words ≤ 300) }
    ensures { Answered result (idle_state 16) fresh_tally
        (start_rule (idle_state 16) first (Compare 3) shares (joined_tapes sides first) (take words (replicate 300 0)) fresh_tally) }
{
    let tapes: [u32; 447] = tapes::joined(&sides, first);
    let work = &[0; 300][..words];
    start(
        states::idle(),
        first,
        Task::Compare(3),
        &shares,
        &tapes,
        work,
        FRESH,
    )
}

const GOOD: [u32; 6] = [5, 1, 6, 2, 3, 4];

// The same with a 7 in one place.
const X1: [u32; 6] = [7, 1, 6, 2, 3, 4];

const X2: [u32; 6] = [5, 1, 7, 2, 3, 4];

const Y2: [u32; 6] = [5, 1, 6, 7, 3, 4];

const X3: [u32; 6] = [5, 1, 6, 2, 7, 4];

const Y3: [u32; 6] = [5, 1, 6, 2, 3, 7];

// What is wrong, and what the start answers. On tapes 0 to 2 the numbers are right, on 2 to 4 the third is not, on 3 to 5 the second is not.
// A tape of side 2 is the other box's.
fn told(
    rt: &impl Print,
    what: &str,
    first: u32,
    shares: [u32; 6],
    sides: [u32; 3],
    words: usize,
) -> io::Result<()>
    requires { (first ≤ 4) × (words ≤ 300) }
{
    print!(rt; "start of three, wrong {what}")?;
    line(rt, ": ", of_three(first, shares, sides, words))
}

fn single(rt: &impl Print) -> io::Result<()> {
    told(rt, "job 1's share", 0, X1, [1, 1, 1], 300)?;
    told(rt, "job 2's share", 0, X2, [1, 1, 1], 300)?;
    told(rt, "job 2's other share", 0, Y2, [1, 1, 1], 300)?;
    told(rt, "job 3's share", 0, X3, [1, 1, 1], 300)?;
    told(rt, "job 3's other share", 0, Y3, [1, 1, 1], 300)?;
    told(rt, "job 1's tape", 0, GOOD, [2, 1, 1], 300)?;
    told(rt, "job 2's tape", 0, GOOD, [1, 2, 1], 300)?;
    told(rt, "job 3's tape", 0, GOOD, [1, 1, 2], 300)?;
    told(rt, "job 3's number", 2, GOOD, [1, 1, 1], 300)?;
    told(rt, "work of 299 words", 0, GOOD, [1, 1, 1], 299)?;
    told(rt, "nothing", 0, GOOD, [1, 1, 1], 300)
}

// Two of these at once.
fn double(rt: &impl Print) -> io::Result<()> {
    told(rt, "job 1's tape, job 2's share", 0, X2, [2, 1, 1], 300)?;
    told(rt, "job 2's share, job 2's tape", 0, X2, [1, 2, 1], 300)?;
    told(rt, "job 2's tape, job 3's share", 0, X3, [1, 2, 1], 300)?;
    told(rt, "job 2's number, job 2's share", 3, X2, [1, 1, 1], 300)?;
    told(rt, "job 1's share, job 2's number", 3, X1, [1, 1, 1], 300)?;
    told(rt, "job 1's tape, job 2's number", 3, GOOD, [2, 1, 1], 300)?;
    told(rt, "job 3's number, job 3's share", 2, X3, [1, 1, 1], 300)?;
    told(rt, "job 2's share, job 3's number", 2, X2, [1, 1, 1], 300)?;
    told(rt, "job 2's tape, job 3's number", 2, GOOD, [1, 2, 1], 300)?;
    told(
        rt,
        "job 3's number, work of 299 words",
        2,
        GOOD,
        [1, 1, 1],
        299,
    )?;
    told(
        rt,
        "job 3's share, work of 299 words",
        0,
        X3,
        [1, 1, 1],
        299,
    )?;
    told(
        rt,
        "job 3's tape, work of 299 words",
        0,
        GOOD,
        [1, 1, 2],
        299,
    )
}

// A start of two jobs or of a band on tape 1, where a byte of the tally is another.
pub fn on_byte(place: usize, byte: u8, task: Task, shares: &[u32]) -> Tried
    requires { place < 16 }
    ensures { Answered result (idle_state 16) (set fresh_tally place byte)
        (start_rule (idle_state 16) 1 task shares.now (joined_tapes (1 ∷ 1 ∷ []) 1) (tabulate 200 (λ k. 0)) (set fresh_tally place byte)) }
{
    let tally = one_byte(place, byte);
    let tapes: [u32; 298] = tapes::joined(&[1, 1], 1);
    start(states::idle(), 1, task, shares, &tapes, &[0; 200], tally)
}

// In the group below the first number, in its own, in the second's, and in the one above both, 00 or half written: what is not fresh above the
// first number makes it late.
pub fn marks(rt: &impl Print, jobs: &str, task: Task, shares: &[u32]) -> io::Result<()> {
    for (what, place, byte) in [
        ("byte 3 00", 3, 0),
        ("byte 4 00", 4, 0),
        ("byte 7 FE", 7, 254),
        ("byte 8 00", 8, 0),
        ("byte 11 FE", 11, 254),
        ("byte 12 00", 12, 0),
        ("byte 15 FE", 15, 254),
    ] {
        print!(rt; "start of {jobs} on tape 1, {what}")?;
        line(rt, ": ", on_byte(place, byte, task, shares))?;
    }
    Ok(())
}

// Nothing else of the jobs is looked at.
fn marks_and_shares(rt: &impl Print) -> io::Result<()> {
    for (what, shares) in [("job 1's x 7", [7, 1, 6, 2]), ("job 2's x 7", [5, 1, 7, 2])] {
        print!(rt; "start of two on tape 1, byte 11 FE, {what}")?;
        line(rt, ": ", on_byte(11, 254, Task::Compare(2), &shares))?;
    }
    Ok(())
}

pub fn lines(rt: &impl Print) -> io::Result<()> {
    single(rt)?;
    double(rt)?;
    marks(rt, "two", Task::Compare(2), &[5, 1, 6, 2])?;
    marks_and_shares(rt)
}
