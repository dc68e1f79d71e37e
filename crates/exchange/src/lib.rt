// Both boxes of a job in one memory, through the five calls: the opening, one round, the whole exchange, and the answers that it opens. A job is
// what one start takes: 1 to 8 comparisons on consecutive tapes, or a band, which is two of them.
#![tactic(auto)]

ghost use Rattle.std.specs.Prelude.{ℕ, ◌≡◌, cond, ◌+◌, ◌%◌, ◌<◌, ◌≤◌, length, get_or, IfOk, IsOkAnd, IsSome};
ghost use Rattle.std.proofs.lemmas.List.Edits.{sets};
ghost use Rattle.lists.specs.Tabulate.{tabulate};
ghost use Rattle.field.specs.Width.{modulus};
ghost use Rattle.protocol.specs.Sizes.{most_jobs, round_for};
ghost use Rattle.refusals.specs.Checks.{ground_of};
ghost use Rattle.rules.specs.Answers.{started, heard_or_finished, reply_of};
ghost use Rattle.rules.specs.Modes.{in_phase};
ghost use Rattle.rules.specs.Tasks.{count_of, answer_count};
ghost use Rattle.rules.specs.Batches.{joined_message};
ghost use Rattle.rules.specs.Bits.{right_bit};
ghost use Rattle.rules.specs.Calls.{outcome, heard_after, hear_rule};
ghost use Rattle.rules.specs.declared.state.Turn.TheVariants.{Speak, Hear};
ghost use Rattle.rules.specs.declared.state.Phase.TheVariants.{Job as InJob};
ghost use Rattle.exchange.specs.Opening.{begun};
ghost use Rattle.exchange.specs.Boxes.{Ready, answers1, answers2};
ghost use Rattle.exchange.specs.Jobs.{lent, roomy, opened_bits, no_bits, bits_of, ended, job_of, DealtFor};

use compare::words::LAST_ROUND;
use field::Width;
use refusals::Refusal;
use rules::state;
use rules::state::{MOST_JOBS, State, Task};

pub mod memory;
pub mod rooms;

// A box's shares of x and y.
#[derive(Clone, Copy, Debug, PartialEq, Eq)]
pub struct Shares {
    pub x: u32,
    pub y: u32,
}

// What a job of one comparison is asked with: the width, the pair and the number of its tapes, and both boxes' shares.
#[derive(Clone, Copy, Debug, PartialEq, Eq)]
pub struct Job {
    pub n: u32,
    pub pair: u32,
    pub number: u32,
    pub box1: Shares,
    pub box2: Shares,
}

// The same of any task, on tapes from the first number on. A box's list has its shares x and y of the first comparison, then of the next, or, of a band, its
// one share of a.
#[derive(Clone, Copy)]
pub struct Jobs<'a> {
    pub n: u32,
    pub pair: u32,
    pub first: u32,
    pub task: Task,
    pub box1: &'a [u32],
    pub box2: &'a [u32],
}

// How many rounds come before the last one.
pub const EARLIER_ROUNDS: u32 = LAST_ROUND - 1;

// What both hears of a round answered, box 1's first.
pub type Heard = (
    Result<Option<[u32; MOST_JOBS]>, Refusal>,
    Result<Option<[u32; MOST_JOBS]>, Refusal>,
);

// A box wakes and starts its job. Of a band's list its start takes the first word.
pub fn begin(
    state: &mut State,
    n: u32,
    side: u32,
    pair: u32,
    first: u32,
    task: Task,
    shares: &[u32],
    tapes: &[u32],
    work: &[u32],
    tally: &mut [u8],
) -> Result<(), Refusal>
    ensures { outcome (reply_of (λ _. started) result) state.new tally.new
        ≡ begun state.old n side pair first task shares.now tapes.now work.now tally.old }
{
    limit_box::wake(state, n, side, pair, &*tally)?;
    match task {
        Task::Compare(count) => limit_box::start(state, first, count, shares, tapes, work, tally),
        Task::Band(low, high) => {
            let share = shares.first().copied().unwrap_or(0);
            limit_box::start_band(state, first, low, high, share, tapes, work, tally)
        }
    }
}

// Here and below both boxes' states and buffers go side by side: a round writes some of them and reads others, and each clause is of one box, so a
// struct of what a box is lent would be no plainer.
// Both boxes speak, and have the hear due then. The words of each stand at the front of its out.
pub fn both_speak(
    first: u32,
    round: u32,
    s1: &mut State,
    s2: &mut State,
    t1: &[u32],
    t2: &[u32],
    w1: &[u32],
    w2: &[u32],
    o1: &mut [u32],
    o2: &mut [u32],
)
    requires box1 { Ready s1.old first (Speak round) t1.now w1.now × (round_for s1.old.n (count_of s1.old.batch.task) round ≤ length o1.old) }
    requires box2 { Ready s2.old first (Speak round) t2.now w2.now × (round_for s2.old.n (count_of s2.old.batch.task) round ≤ length o2.old) }
    ensures box1 { (o1.new ≡ sets o1.old 0 (joined_message s1.old t1.now w1.now round))
        × (s1.new ≡ in_phase s1.old (InJob (Hear round)) s1.old.batch) }
    ensures box2 { (o2.new ≡ sets o2.old 0 (joined_message s2.old t2.now w2.now round))
        × (s2.new ≡ in_phase s2.old (InJob (Hear round)) s2.old.batch) }
{
    let _ = limit_box::speak(s1, first, round, t1, w1, o1);
    let _ = limit_box::speak(s2, first, round, t2, w2, o2);
}

// Both boxes hear: box 1 the words that came to it, box 2 those that came to it. What a board between them did to the words is left open.
pub fn both_hear(
    first: u32,
    round: u32,
    s1: &mut State,
    s2: &mut State,
    t1: &[u32],
    t2: &[u32],
    w1: &mut [u32],
    w2: &mut [u32],
    to1: &[u32],
    to2: &[u32],
) -> Heard
    ensures box1 { outcome (reply_of heard_or_finished result.0) s1.new w1.new
        ≡ hear_rule s1.old first round t1.now w1.old to1.now }
    ensures box2 { outcome (reply_of heard_or_finished result.1) s2.new w2.new
        ≡ hear_rule s2.old first round t2.now w2.old to2.now }
{
    let heard1 = limit_box::hear(s1, first, round, t1, w1, to1);
    let heard2 = limit_box::hear(s2, first, round, t2, w2, to2);
    (heard1, heard2)
}

// One round: both boxes speak, then both hear the other's words. The words of each stand at the front of its out.
fn round(
    first: u32,
    round: u32,
    s1: &mut State,
    s2: &mut State,
    t1: &[u32],
    t2: &[u32],
    w1: &mut [u32],
    w2: &mut [u32],
    o1: &mut [u32],
    o2: &mut [u32],
) -> Heard
    requires box1 { Ready s1.old first (Speak round) t1.now w1.old × (round_for s1.old.n (count_of s1.old.batch.task) round ≤ length o1.old) }
    requires box2 { Ready s2.old first (Speak round) t2.now w2.old × (round_for s2.old.n (count_of s2.old.batch.task) round ≤ length o2.old) }
    requires same { (s1.old.n ≡ s2.old.n) × (count_of s1.old.batch.task ≡ count_of s2.old.batch.task) }
    ensures box1 { (o1.new ≡ sets o1.old 0 (joined_message s1.old t1.now w1.old round))
        × (outcome (reply_of heard_or_finished result.0) s1.new w1.new
        ≡ heard_after s1.old t1.now w1.old round (joined_message s2.old t2.now w2.old round)) }
    ensures box2 { (o2.new ≡ sets o2.old 0 (joined_message s2.old t2.now w2.old round))
        × (outcome (reply_of heard_or_finished result.1) s2.new w2.new
        ≡ heard_after s2.old t2.now w2.old round (joined_message s1.old t1.now w1.old round)) }
{
    let words = compare::words::words_for(Width { bits: s1.n }, s1.batch.task.count(), round);
    both_speak(
        first, round, &mut *s1, &mut *s2, t1, t2, &*w1, &*w2, &mut *o1, &mut *o2,
    );
    both_hear(
        first,
        round,
        s1,
        s2,
        t1,
        t2,
        w1,
        w2,
        // the room is the longest message's: a shorter one has its first words
        &o2[..words],
        &o1[..words],
    )
}

// The answer shares, of a hear that gave them.
fn shares_in(heard: Result<Option<[u32; MOST_JOBS]>, Refusal>) -> [u32; MOST_JOBS]
    requires { IsOkAnd heard IsSome }
    ensures { heard ≡ Ok (Some result) }
{
    heard.unwrap().unwrap()
}

// Every round, from whatever work holds: the answer shares that the last two hears give.
fn answers(
    first: u32,
    s1: &mut State,
    s2: &mut State,
    t1: &[u32],
    t2: &[u32],
    w1: &mut [u32],
    w2: &mut [u32],
    o1: &mut [u32],
    o2: &mut [u32],
) -> ([u32; MOST_JOBS], [u32; MOST_JOBS])
    requires box1 { Ready s1.old first (Speak 1) t1.now w1.old × (round_for s1.old.n (count_of s1.old.batch.task) 1 ≤ length o1.old) }
    requires box2 { Ready s2.old first (Speak 1) t2.now w2.old × (round_for s2.old.n (count_of s2.old.batch.task) 1 ≤ length o2.old) }
    requires same { (s1.old.n ≡ s2.old.n) × (count_of s1.old.batch.task ≡ count_of s2.old.batch.task) }
    ensures box1 { result.0 ≡ answers1 s1.old s2.old t1.now t2.now w1.old w2.old }
    ensures box2 { result.1 ≡ answers2 s1.old s2.old t1.now t2.now w1.old w2.old }
{
    for heard in 0..EARLIER_ROUNDS {
        let _ = round(
            first,
            heard + 1,
            &mut *s1,
            &mut *s2,
            t1,
            t2,
            &mut *w1,
            &mut *w2,
            &mut *o1,
            &mut *o2,
        );
    }
    let (heard1, heard2) = round(first, LAST_ROUND, s1, s2, t1, t2, w1, w2, o1, o2);
    (shares_in(heard1), shares_in(heard2))
}

// A whole job: the opened bits in the order of the comparisons, or a band's one, 0 past them, or the first refusal. On tapes dealt by the rules a bit is 1 if
// x < y, or if a lies between the band's bounds, and 0 otherwise.
pub fn less(
    jobs: Jobs<'_>,
    t1: &[u32],
    t2: &[u32],
    w1: &mut [u32],
    w2: &mut [u32],
    k1: &mut [u8],
    k2: &mut [u8],
    o1: &mut [u32],
    o2: &mut [u32],
) -> Result<[u32; MOST_JOBS], Refusal>
    ensures ended { ended result k1.new k2.new
        ≡ job_of jobs.entry.n jobs.entry.pair jobs.entry.first jobs.entry.task
        (lent jobs.entry.box1.now t1.now w1.old k1.old o1.old)
        (lent jobs.entry.box2.now t2.now w2.old k2.old o2.old) }
    ensures right { IfOk result (λ bits. (i : ℕ) → i < answer_count jobs.entry.task
        → DealtFor jobs.entry.n jobs.entry.pair jobs.entry.first jobs.entry.task t1.now t2.now i
        → get_or bits i 0 ≡ right_bit jobs.entry.n jobs.entry.task jobs.entry.box1.now jobs.entry.box2.now i) }
{
    let Jobs {
        n,
        pair,
        first,
        task,
        box1,
        box2,
    } = jobs;
    let mut s1 = state::FIRST;
    let mut s2 = state::FIRST;
    begin(&mut s1, n, 1, pair, first, task, box1, t1, &*w1, k1)?;
    begin(&mut s2, n, 2, pair, first, task, box2, t2, &*w2, k2)?;
    let n = Width { bits: n };
    opened(n, first, task, &mut s1, &mut s2, t1, t2, w1, w2, o1, o2)
}

// Whether both outs have room for the first message, which is the longest.
fn has_room(n: Width, task: Task, o1: &[u32], o2: &[u32]) -> bool
    ensures { result ≡ roomy n.bits task o1.now o2.now }
{
    let words = compare::words::words_for(n, task.count(), 1);
    words <= o1.len() && words <= o2.len()
}

// The sums of the two boxes' answer shares.
fn added(n: Width, shares1: [u32; MOST_JOBS], shares2: [u32; MOST_JOBS]) -> [u32; MOST_JOBS]
    requires { (i : ℕ) → (get_or shares1 i 0 < modulus n.bits) × (get_or shares2 i 0 < modulus n.bits) }
    ensures { result ≡ tabulate most_jobs (λ i. (get_or shares1 i 0 + get_or shares2 i 0) % modulus n.bits) }
{
    std::array::from_fn(|i| n.add(shares1[i], shares2[i]))
}

// The sums of the answer shares, where both outs have room; otherwise the refusal of the first speak.
fn opened(
    n: Width,
    first: u32,
    task: Task,
    s1: &mut State,
    s2: &mut State,
    t1: &[u32],
    t2: &[u32],
    w1: &mut [u32],
    w2: &mut [u32],
    o1: &mut [u32],
    o2: &mut [u32],
) -> Result<[u32; MOST_JOBS], Refusal>
    requires ready { Ready s1.old first (Speak 1) t1.now w1.old × Ready s2.old first (Speak 1) t2.now w2.old }
    requires width { (s1.old.n ≡ n.bits) × (s2.old.n ≡ n.bits) }
    requires task { (s1.old.batch.task ≡ task) × (s2.old.batch.task ≡ task) }
    ensures { (ground_of result ≡ cond (roomy n.bits task o1.old o2.old) 0 12)
        × (bits_of result ≡ cond (roomy n.bits task o1.old o2.old)
        (opened_bits n.bits task s1.old s2.old t1.now t2.now w1.old w2.old) no_bits) }
{
    if !has_room(n, task, &*o1, &*o2) {
        return Err(Refusal::Room);
    }
    let (shares1, shares2) = answers(first, s1, s2, t1, t2, w1, w2, o1, o2);
    Ok(added(n, shares1, shares2))
}
