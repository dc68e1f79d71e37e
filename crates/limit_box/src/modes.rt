// What a state counts as. Outside document 01's ranges it counts as asleep.
ghost use Rattle.std.specs.Prelude.{◌≡◌, true, ◌+◌, ◌&&◌, ◌<◌, ltb, get_or};
ghost use Rattle.field.specs.Width.{modulus};
ghost use Rattle.protocol.specs.Sizes.{most_jobs};
ghost use Rattle.tally.specs.Tally.{tapes_of};
ghost use Rattle.rules.specs.Tasks.{bounds_fit, task_fits};
ghost use Rattle.rules.specs.Modes.{round_of, round_fits, batch_fits, phase_fits, in_range, mode_of, is_due};

use field::Width;
use rules::state;
use rules::state::{Batch, Phase, State, Task, Turn};

fn round_of(turn: Turn) -> u32
    ensures { result ≡ round_of turn }
{
    match turn {
        Turn::Speak(round) | Turn::Hear(round) => round,
    }
}

fn round_fits(round: u32) -> bool
    ensures { result ≡ round_fits round }
{
    (1..=compare::words::LAST_ROUND).contains(&round)
}

// A band's bounds: c1 < c2 < p.
pub fn bounds_fit(n: Width, low: u32, high: u32) -> bool
    ensures { result ≡ bounds_fit n.bits low high }
{
    low < high && n.contains(high)
}

// What was asked: so many comparisons, or a band with its bounds.
fn task_fits(n: Width, task: Task) -> bool
    ensures { result ≡ task_fits n.bits task }
{
    match task {
        Task::Compare(count) => state::count_fits(count),
        Task::Band(low, high) => bounds_fit(n, low, high),
    }
}

// Job i's tape number and its shares.
fn job_fits(n: Width, tally: u32, batch: &Batch, i: usize) -> bool
    requires { i < most_jobs }
    ensures { result ≡ (ltb (batch.now.first + i) (tapes_of tally)
        && ltb (get_or batch.now.x i 0) (modulus n.bits) && ltb (get_or batch.now.y i 0) (modulus n.bits)) }
{
    batch.first as usize + i < tally::tapes_of(tally as usize)
        && n.contains(batch.x[i])
        && n.contains(batch.y[i])
}

#[tactic(auto, using(rules::proofs::Tasks::counted, rules::proofs::Batches::count_most, lists::proofs::Every::every_fails))]
fn batch_fits(n: Width, tally: u32, batch: &Batch) -> bool
    ensures { result ≡ batch_fits n.bits tally batch.now }
{
    if !task_fits(n, batch.task) {
        return false;
    }
    for i in 0..batch.task.count() as usize {
        if !job_fits(n, tally, batch, i) {
            return false;
        }
    }
    true
}

fn phase_fits(n: Width, tally: u32, batch: &Batch, phase: Phase) -> bool
    ensures { result ≡ phase_fits n.bits tally batch.now phase }
{
    match phase {
        Phase::Asleep | Phase::Idle => true,
        Phase::Job(turn) => round_fits(round_of(turn)) && batch_fits(n, tally, batch),
    }
}

#[tactic(auto, unfolding(rules::specs::Modes::in_range))]
fn in_range(state: &State) -> bool
    ensures { result ≡ in_range state.now }
{
    let Some(n) = Width::new(state.n) else {
        return false;
    };
    shares::is_side(state.side)
        && tally::tally_fits(state.tally as usize)
        && phase_fits(n, state.tally, &state.batch, state.phase)
}

// The phase, or asleep for a state outside the ranges.
#[tactic(auto, unfolding(rules::specs::Modes::mode_of))]
pub fn mode_of(state: &State) -> Phase
    ensures { result ≡ mode_of state.now }
{
    if in_range(state) {
        return state.phase;
    }
    Phase::Asleep
}

// Whether a call with that first number and turn is the one due, where the open job has its own.
pub fn is_due(phase: Phase, own: u32, first: u32, turn: Turn) -> bool
    ensures { result ≡ is_due phase own first turn }
{
    match phase {
        Phase::Asleep | Phase::Idle => false,
        Phase::Job(due) => first == own && turn == due,
    }
}
