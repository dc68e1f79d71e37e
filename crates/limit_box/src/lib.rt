// The box's calls: document 01's five, and a start of its own for a band (document 02, P10). Each is the rule for it, whatever it is given: a call that is
// refused changes nothing. A job is what one start takes, 1 to 8 comparisons on consecutive tapes (P9), or a band, which is two of them.
#![tactic(auto)]

ghost use Rattle.std.specs.Prelude.{◌≡◌, [], ◌∷◌, ◌+◌, ◌*◌, ◌≤◌, length};
ghost use Rattle.tally.specs.Tally.{tapes_of, first_marks};
ghost use Rattle.rules.specs.Answers.{fresh, started, spoke, heard_or_finished, dropped, reply_of};
ghost use Rattle.rules.specs.Modes.{in_phase};
ghost use Rattle.rules.specs.Tasks.{count_of};
ghost use Rattle.rules.specs.Batches.{no_batch, batch_of};
ghost use Rattle.rules.specs.declared.state.Task.TheVariants.{Compare, Band};
ghost use Rattle.rules.specs.declared.state.Turn.TheVariants.{Speak};
ghost use Rattle.rules.specs.declared.state.Phase.TheVariants.{Idle, Job};
ghost use Rattle.rules.specs.Calls.{outcome, wake_rule, start_rule, speak_rule, hear_rule, drop_rule};

use refusals::Refusal;
use rules::state;
use rules::state::{MOST_JOBS, Phase, State, Task, Turn};

mod checks;
mod grounds;
mod joined;
mod modes;

// Counts the fresh tapes, and keeps the width, the side, the pair and the tally's length. The tally is lent for reading only, so it cannot
// change: the contract's buffer is the tally at entry.
#[tactic(auto, using(refusals::proofs::Numbers::numbered), unfolding(rules::specs::Calls::wake_rule))]
pub fn wake(state: &mut State, n: u32, side: u32, pair: u32, tally: &[u8]) -> Result<u32, Refusal>
    ensures { outcome (reply_of fresh result) state.new tally.now ≡ wake_rule state.old n side pair tally.now }
{
    checks::wake_check(&*state, n, side, tally)?;
    *state = State {
        n,
        side,
        pair,
        tally: tally.len() as u32,
        phase: Phase::Idle,
        batch: state::NO_BATCH,
    };
    Ok(tally::fresh_count(tally))
}

// Marks the tapes of all jobs, the lowest number first: each is spent from its mark on, whatever happens to its job.
fn mark(tally: &mut [u8], first: u32, count: u32)
    requires { first + count ≤ tapes_of (length tally.old) }
    ensures { tally.new ≡ first_marks tally.old first count }
{
    for i in 0..count as usize {
        tally::spend(&mut *tally, first as usize + i);
    }
}

// The tapes of all jobs are marked, and they are open.
fn open(state: &mut State, first: u32, task: Task, pairs: &[u32], tally: &mut [u8])
    requires { (length pairs.now ≡ 2 * count_of task) × (first + count_of task ≤ tapes_of (length tally.old)) }
    ensures tally { tally.new ≡ first_marks tally.old first (count_of task) }
    ensures state { state.new ≡ in_phase state.old (Job (Speak 1)) (batch_of first task pairs.now) }
{
    mark(tally, first, task.count());
    state.phase = Phase::Job(Turn::Speak(1));
    state.batch = joined::batch_of(first, task, pairs);
}

// Opens a job: count comparisons on the tapes from number first on. Lent are x and y of the first, then of the next, and so their tapes and their room to
// work. Nothing is sent.
#[tactic(auto, using(refusals::proofs::Numbers::numbered), unfolding(rules::specs::Calls::start_rule))]
pub fn start(
    state: &mut State,
    first: u32,
    count: u32,
    shares: &[u32],
    tapes: &[u32],
    work: &[u32],
    tally: &mut [u8],
) -> Result<(), Refusal>
    ensures { outcome (reply_of (λ _. started) result) state.new tally.new
        ≡ start_rule state.old first (Compare count) shares.now tapes.now work.now tally.old }
{
    checks::start_check(&*state, first, count, shares, tapes, work, &*tally)?;
    open(state, first, Task::Compare(count), shares, tally);
    Ok(())
}

// Opens a band, low < a and a < high, for one share of a: two comparisons on the tapes number first and the next. Nothing is sent.
#[tactic(auto, using(refusals::proofs::Numbers::numbered), unfolding(rules::specs::Calls::start_rule))]
pub fn start_band(
    state: &mut State,
    first: u32,
    low: u32,
    high: u32,
    share: u32,
    tapes: &[u32],
    work: &[u32],
    tally: &mut [u8],
) -> Result<(), Refusal>
    ensures { outcome (reply_of (λ _. started) result) state.new tally.new
        ≡ start_rule state.old first (Band low high) (share ∷ []) tapes.now work.now tally.old }
{
    let pairs = checks::band_check(&*state, first, low, high, share, tapes, work, &*tally)?;
    open(state, first, Task::Band(low, high), &pairs, tally);
    Ok(())
}

// Writes the round's words at the front of out, and answers how many, as document 01 has it.
#[tactic(auto, using(refusals::proofs::Numbers::numbered), unfolding(rules::specs::Calls::speak_rule))]
pub fn speak(
    state: &mut State,
    first: u32,
    round: u32,
    tapes: &[u32],
    work: &[u32],
    out: &mut [u32],
) -> Result<usize, Refusal>
    ensures { outcome (reply_of spoke result) state.new out.new ≡ speak_rule state.old first round tapes.now work.now out.old }
{
    let joined = checks::speak_check(&*state, first, round, tapes, work, &*out)?;
    joined.speak(round, work, out);
    let words = compare::words::words_for(joined.width(), joined.state.batch.task.count(), round);
    state.phase = Phase::Job(Turn::Hear(round));
    Ok(words)
}

// Takes in the other box's words. After the last round the answer shares come back, in the order of the jobs, and the job is closed.
#[tactic(auto, using(refusals::proofs::Numbers::numbered), unfolding(rules::specs::Calls::hear_rule))]
pub fn hear(
    state: &mut State,
    first: u32,
    round: u32,
    tapes: &[u32],
    work: &mut [u32],
    incoming: &[u32],
) -> Result<Option<[u32; MOST_JOBS]>, Refusal>
    ensures { outcome (reply_of heard_or_finished result) state.new work.new
        ≡ hear_rule state.old first round tapes.now work.old incoming.now }
{
    let joined = checks::hear_check(&*state, first, round, tapes, &*work, incoming)?;
    let shares = joined.hear(round, work, incoming);
    if shares.is_some() {
        close(state);
    } else {
        state.phase = Phase::Job(Turn::Speak(round + 1));
    }
    Ok(shares)
}

// No job is open any more, and nothing is left of it.
fn close(state: &mut State)
    ensures { state.new ≡ in_phase state.old Idle no_batch }
{
    state.phase = Phase::Idle;
    state.batch = state::NO_BATCH;
}

// Closes the job. Its tapes remain spent.
#[tactic(auto, using(refusals::proofs::Numbers::numbered), unfolding(rules::specs::Calls::drop_rule))]
pub fn drop(state: &mut State) -> Result<(), Refusal>
    ensures { outcome (reply_of (λ _. dropped) result) state.new [] ≡ drop_rule state.old }
{
    checks::drop_check(&*state)?;
    close(state);
    Ok(())
}
