// Three comparisons of both boxes on dealt tapes 1 to 3: together as one job, and one by one.
ghost use Rattle.std.specs.Prelude.{◌≡◌, ◌+◌, ◌<◌, ◌≤◌, length};
ghost use Rattle.rules.specs.declared.state.Task.TheVariants.{Compare};
ghost use Rattle.walk.specs.Courses.{asked_of};
ghost use Rattle.walk.specs.Three.{dealt_tapes, three_of, Together, OneByOne};

use crate::job::{answers, opened, shares_in};
use crate::progress::{Job, Pair};
use crate::{job_steps, tapes};
use field::Width;
use rules::state::Task;
use std::io;

// x is 5 + 5 = 3, 6 + 5 = 4 and 3 + 2 = 5 modulo 7, y is 1 + 3 = 4, 2 + 1 = 3 and 4 + 1 = 5.
const SHARES1: [u32; 6] = [5, 1, 6, 2, 3, 4];

const SHARES2: [u32; 6] = [5, 3, 5, 1, 2, 1];

// Both boxes' tapes, each pair of the seed that is its number.
fn dealt() -> ([u32; 447], [u32; 447])
    ensures { (result.0 ≡ dealt_tapes 1) × (result.1 ≡ dealt_tapes 2) }
{
    let mut tapes1 = [0u32; 447];
    let mut tapes2 = [0u32; 447];
    for i in 0..3 {
        let from = 149 * i as usize;
        let t1 = &mut tapes1[from..from + 149];
        let t2 = &mut tapes2[from..from + 149];
        deals::write(i + 1, Width { bits: 3 }, tapes::PAIR, i + 1, t1, t2);
    }
    (tapes1, tapes2)
}

// So many of them from this one on, as a job.
fn job<'a>(tapes1: &'a [u32], tapes2: &'a [u32], from: usize, count: usize) -> Job<'a>
    requires within { (from + count ≤ 3) × (length tapes1.now ≡ 447) × (length tapes2.now ≡ 447) }
    requires dealt { (tapes1.now ≡ dealt_tapes 1) × (tapes2.now ≡ dealt_tapes 2) }
    ensures { (result.task1 ≡ Compare count) × (result.task2 ≡ Compare count) × (asked_of result ≡ three_of from count) }
{
    let to = from + count;
    let task = Task::Compare(count as u32);
    Job {
        first: 1 + from as u32,
        task1: task,
        task2: task,
        shares1: &SHARES1[2 * from..2 * to],
        shares2: &SHARES2[2 * from..2 * to],
        tapes1: &tapes1[149 * from..149 * to],
        tapes2: &tapes2[149 * from..149 * to],
    }
}

// Both boxes after so many steps of the three together.
pub fn together(steps: u32) -> Pair
    ensures { Together steps result }
{
    let (tapes1, tapes2) = dealt();
    let mut pair = Pair::woken();
    pair.walk(job(&tapes1, &tapes2, 0, 3), steps);
    pair
}

// And one by one: after so many of them, and so many steps of the next.
#[tactic(auto, using(crate::specs::Three::none, crate::specs::Three::next))]
pub fn one_by_one(done: usize, steps: u32) -> Pair
    requires { done < 3 }
    ensures { OneByOne done steps result }
{
    let (tapes1, tapes2) = dealt();
    let mut pair = Pair::woken();
    for earlier in 0..done {
        pair.walk(job(&tapes1, &tapes2, earlier, 1), job_steps::LAST);
    }
    pair.walk(job(&tapes1, &tapes2, done, 1), steps);
    pair
}

// What the answer shares open.
fn less(rt: &impl Print, last: Pair) -> io::Result<()> {
    match (shares_in(last.box1.answer), shares_in(last.box2.answer)) {
        (Some(shares1), Some(shares2)) => {
            print!(rt; "less")?;
            for (&share1, &share2) in shares1[..3].iter().zip(&shares2[..3]) {
                print!(rt; " {}", opened(share1, share2))?;
            }
            println!(rt)
        }
        _ => println!(rt; "NO answer shares"),
    }
}

pub fn lines(rt: &impl Print) -> io::Result<()> {
    println!(rt; "a job of three on tapes 1 to 3, x 3 4 5 and y 4 3 5")?;
    answers(rt, "box 1", |step| together(step).box1.answer)?;
    answers(rt, "box 2", |step| together(step).box2.answer)?;
    less(rt, together(job_steps::LAST))
}
