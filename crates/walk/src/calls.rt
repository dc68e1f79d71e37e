// One call of a box on copies of its buffers: what it answered, and whether all is as it was.
ghost use Rattle.std.specs.Prelude.{◌≡◌, true, ◌&&◌, [], eqb, length};
ghost use Rattle.refusals.specs.Numbers.{number_of};
ghost use Rattle.rules.specs.Answers.{started, reply_of};
ghost use Rattle.exchange.specs.Opening.{refusal_of};
ghost use Rattle.rules.specs.Calls.{outcome, wake_rule, start_rule, speak_rule, hear_rule, drop_rule};
ghost use Rattle.walk.specs.Said.{as_reply};
ghost use Rattle.walk.specs.Walk.{filler, one_start, Answered};

use crate::answers;
use crate::answers::Answer;
use refusals::Refusal;
use rules::state::{State, Task};

// What stands in the buffers that a call is lent to write.
pub const FILLER: u32 = 9;

#[derive(Clone, Copy)]
pub struct Tried {
    pub answer: Answer,
    // the state after the call
    pub state: State,
    // whether the state and the buffer that the call may change are as they were
    pub kept: bool,
}

// Refused so, and nothing changed.
pub fn is_refused(tried: Tried, refusal: Refusal) -> bool
    ensures { result ≡ (tried.kept && eqb (refusal_of (reply_of as_reply tried.answer)) (number_of refusal)) }
{
    tried.kept && tried.answer == Err(refusal)
}

// Whether every word is still the filler.
pub fn untouched(words: &[u32]) -> bool
    ensures { (result ≡ true → words.now ≡ filler (length words.now))
        × (words.now ≡ filler (length words.now) → result ≡ true) }
{
    words.iter().all(|&word| word == FILLER)
}

// A function of its own, as both ways are asked for.
pub fn same_state(a: State, b: State) -> bool
    ensures { (result ≡ true → a ≡ b) × (a ≡ b → result ≡ true) }
{
    a == b
}

fn compared(before: State, after: State, answer: Answer, kept: bool) -> Tried
    ensures { (result.answer ≡ answer) × (result.state ≡ after) × (result.kept ≡ true → (kept ≡ true) × (before ≡ after))
        × (kept ≡ true → before ≡ after → result.kept ≡ true) }
{
    Tried {
        answer,
        state: after,
        kept: kept && same_state(before, after),
    }
}

pub fn wake(state: State, n: u32, side: u32, tally: &[u8]) -> Tried
    ensures { Answered result state tally.now (wake_rule state n side 5 tally.now) }
{
    let mut after = state;
    let answer = limit_box::wake(&mut after, n, side, crate::tapes::PAIR, tally);
    compared(state, after, answers::of_wake(answer), true)
}

// A start of comparisons or of a band, with the state and the tally that it changes. A band's list has its one share of a.
pub fn open(
    state: &mut State,
    first: u32,
    task: Task,
    shares: &[u32],
    tapes: &[u32],
    work: &[u32],
    tally: &mut [u8],
) -> Result<(), Refusal>
    ensures { outcome (reply_of (λ _. started) result) state.new tally.new
        ≡ start_rule state.old first task shares.now tapes.now work.now tally.old }
{
    match task {
        Task::Compare(count) => limit_box::start(state, first, count, shares, tapes, work, tally),
        Task::Band(low, high) => {
            let share = shares.first().copied().unwrap_or(0);
            limit_box::start_band(state, first, low, high, share, tapes, work, tally)
        }
    }
}

pub fn start<const N: usize>(
    state: State,
    first: u32,
    task: Task,
    shares: &[u32],
    tapes: &[u32],
    work: &[u32],
    tally: [u8; N],
) -> Tried
    ensures { Answered result state tally.entry (start_rule state first task shares.now tapes.now work.now tally.entry) }
{
    let mut after = state;
    let mut marks = tally;
    let answer = open(&mut after, first, task, shares, tapes, work, &mut marks);
    compared(state, after, answers::of_start(answer), tally == marks)
}

// Of one job.
pub fn start_one<const N: usize>(
    state: State,
    number: u32,
    x: u32,
    y: u32,
    tape: &[u32],
    work: &[u32],
    tally: [u8; N],
) -> Tried
    ensures { Answered result state tally.entry (one_start state number x y tape.now work.now tally.entry) }
{
    let shares = [x, y];
    start(state, number, Task::Compare(1), &shares, tape, work, tally)
}

// `out` is lent full of filler.
pub fn speak(
    state: State,
    first: u32,
    round: u32,
    tapes: &[u32],
    work: &[u32],
    out: &mut [u32],
) -> Tried
    ensures answered { Answered result state (filler (length out.old)) (speak_rule state first round tapes.now work.now out.old) }
    ensures left { out.new ≡ (speak_rule state first round tapes.now work.now out.old).buffer }
{
    let mut after = state;
    let answer = limit_box::speak(&mut after, first, round, tapes, work, &mut *out);
    compared(state, after, answers::of_speak(answer), untouched(&*out))
}

// `work` is lent full of filler.
pub fn hear(
    state: State,
    first: u32,
    round: u32,
    tapes: &[u32],
    work: &mut [u32],
    incoming: &[u32],
) -> Tried
    ensures answered { Answered result state (filler (length work.old)) (hear_rule state first round tapes.now work.old incoming.now) }
    ensures left { work.new ≡ (hear_rule state first round tapes.now work.old incoming.now).buffer }
{
    let mut after = state;
    let answer = limit_box::hear(&mut after, first, round, tapes, &mut *work, incoming);
    compared(state, after, answers::of_hear(answer), untouched(&*work))
}

pub fn drop(state: State) -> Tried
    ensures { Answered result state [] (drop_rule state) }
{
    let mut after = state;
    let answer = limit_box::drop(&mut after);
    compared(state, after, answers::of_drop(answer), true)
}
