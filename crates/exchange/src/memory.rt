// Memory for jobs of one comparison at any width: room for the longest tape, work and message, and jobs with buffers of their own, of one comparison and of a
// band. There is no heap, so a job of a narrower width uses the first words of each.
ghost use Rattle.std.specs.Prelude.{◌≡◌, true, ◌+◌, ◌%◌, ◌<◌, ◌&&◌, eqb, ltb, length, take, get_or};
ghost use Rattle.field.specs.Width.{modulus};
ghost use Rattle.tape.specs.Layout.{tape_length};
ghost use Rattle.tape.specs.Dealt.{Dealt};
ghost use Rattle.encoding.specs.Matching.{indicator};
ghost use Rattle.refusals.specs.Checks.{ground_of};
ghost use Rattle.exchange.specs.Jobs.{lent, job_of};
ghost use Rattle.exchange.specs.Memory.{blank_work, blank_words, shares_of, less_of, fresh_job, fresh_band};

use crate::rooms::{blank_messages, blank_works};
use crate::{Job, Jobs, Shares};
use field::Width;
use refusals::Refusal;
use rules::state::Task;

// The only tape number of a pair with one tape.
const FIRST_TAPE: u32 = 0;

// The tally of a band's two tapes.
const TWO_MARKS: usize = 2 * tally::MARK_BYTES;

// Zeros for the longest tape.
pub fn blank_tape() -> [u32; 9053]
    ensures { length result ≡ 9053 }
{
    [0; 9053]
}

// The first words of such room, as many as a tape of this width has.
#[tactic(auto, using(tape::proofs::Sizes::small))]
pub fn tape_room(n: Width, room: &mut [u32; 9053]) -> &mut [u32]
    ensures first { result.now ≡ take (tape_length n.bits) room.old }
    ensures long { length result.now ≡ tape_length n.bits }
{
    let len = tape::tape_words(n);
    &mut room[..len]
}

// Zeros to work in.
pub fn blank_work() -> [u32; 436]
    ensures { (length result ≡ 436) × (result ≡ blank_work) }
{
    [0; 436]
}

// Zeros for the longest message.
pub fn blank_words() -> [u32; 2889]
    ensures { (length result ≡ 2889) × (result ≡ blank_words) }
{
    [0; 2889]
}

// The list of one comparison's shares.
fn list(own: Shares) -> [u32; 2]
    ensures { result ≡ shares_of own }
{
    [own.x, own.y]
}

// A whole job: its first answer.
fn first_answer(
    jobs: Jobs<'_>,
    t1: &[u32],
    t2: &[u32],
    w1: &mut [u32],
    w2: &mut [u32],
    k1: &mut [u8],
    k2: &mut [u8],
    o1: &mut [u32],
    o2: &mut [u32],
) -> Result<u32, Refusal>
    ensures refusal { ground_of result
        ≡ (job_of jobs.entry.n jobs.entry.pair jobs.entry.first jobs.entry.task
        (lent jobs.entry.box1.now t1.now w1.old k1.old o1.old)
        (lent jobs.entry.box2.now t2.now w2.old k2.old o2.old)).refusal }
    ensures answer { less_of result
        ≡ get_or (job_of jobs.entry.n jobs.entry.pair jobs.entry.first jobs.entry.task
        (lent jobs.entry.box1.now t1.now w1.old k1.old o1.old)
        (lent jobs.entry.box2.now t2.now w2.old k2.old o2.old)).bits 0 0 }
{
    let [first, ..] = crate::less(jobs, t1, t2, w1, w2, k1, k2, o1, o2)?;
    Ok(first)
}

// A whole job of one comparison, on one fresh tape of each box.
pub fn fresh_job(job: Job, t1: &[u32], t2: &[u32]) -> Result<u32, Refusal>
    ensures refusal { ground_of result ≡ (fresh_job job.n job.pair job.number job.box1 job.box2 t1.now t2.now).refusal }
    ensures less { less_of result ≡ (fresh_job job.n job.pair job.number job.box1 job.box2 t1.now t2.now).less }
{
    let mut w1 = blank_work();
    let mut w2 = blank_work();
    let mut k1 = [255u8; tally::MARK_BYTES];
    let mut k2 = [255u8; tally::MARK_BYTES];
    let mut o1 = blank_words();
    let mut o2 = blank_words();
    let Job {
        n,
        pair,
        number,
        box1,
        box2,
    } = job;
    let jobs = Jobs {
        n,
        pair,
        first: number,
        task: Task::Compare(1),
        box1: &list(box1),
        box2: &list(box2),
    };
    first_answer(
        jobs, t1, t2, &mut w1, &mut w2, &mut k1, &mut k2, &mut o1, &mut o2,
    )
}

// A whole band, low < a and a < high, for the boxes' shares a1 and a2 of a, on two fresh tapes of each box.
pub fn fresh_band(
    n: u32,
    pair: u32,
    first: u32,
    low: u32,
    high: u32,
    a1: u32,
    a2: u32,
    t1: &[u32],
    t2: &[u32],
) -> Result<u32, Refusal>
    ensures refusal { ground_of result ≡ (fresh_band n pair first low high a1 a2 t1.now t2.now).refusal }
    ensures less { less_of result ≡ (fresh_band n pair first low high a1 a2 t1.now t2.now).less }
{
    let mut w1 = blank_works();
    let mut w2 = blank_works();
    let mut k1 = [255u8; TWO_MARKS];
    let mut k2 = [255u8; TWO_MARKS];
    let mut o1 = blank_messages();
    let mut o2 = blank_messages();
    let jobs = Jobs {
        n,
        pair,
        first,
        task: Task::Band(low, high),
        box1: &[a1],
        box2: &[a2],
    };
    first_answer(
        jobs, t1, t2, &mut w1, &mut w2, &mut k1, &mut k2, &mut o1, &mut o2,
    )
}

// The ordinary comparison of what the boxes' shares add up to.
#[tactic(auto, using(field::proofs::Widths::bounds))]
fn compared(n: Width, box1: Shares, box2: Shares) -> u32
    requires { (box1.x < modulus n.bits) × (box1.y < modulus n.bits) × (box2.x < modulus n.bits) × (box2.y < modulus n.bits) }
    ensures { result ≡ indicator (ltb ((box1.x + box2.x) % modulus n.bits) ((box1.y + box2.y) % modulus n.bits)) }
{
    let p = n.modulus();
    let x = (box1.x + box2.x) % p;
    let y = (box1.y + box2.y) % p;
    u32::from(x < y)
}

// Whether a job on one fresh tape of each box is taken, and answers as the ordinary comparison does: for programs that try many jobs.
pub fn is_right(n: Width, pair: u32, box1: Shares, box2: Shares, t1: &[u32], t2: &[u32]) -> bool
    requires { (box1.x < modulus n.bits) × (box1.y < modulus n.bits) × (box2.x < modulus n.bits) × (box2.y < modulus n.bits) }
    ensures value { result
        ≡ (eqb (fresh_job n.bits pair 0 box1 box2 t1.now t2.now).refusal 0
        && eqb (fresh_job n.bits pair 0 box1 box2 t1.now t2.now).less
        (indicator (ltb ((box1.x + box2.x) % modulus n.bits) ((box1.y + box2.y) % modulus n.bits)))) }
    ensures dealt { Dealt n.bits pair 0 t1.now t2.now → result ≡ true }
{
    let job = Job {
        n: n.bits,
        pair,
        number: FIRST_TAPE,
        box1,
        box2,
    };
    match fresh_job(job, t1, t2) {
        Ok(less) => less == compared(n, box1, box2),
        Err(_) => false,
    }
}
