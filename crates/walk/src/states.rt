// Box 1's states on the way to its first hear, and such a one of a box 2.
ghost use Rattle.std.specs.Prelude.{◌≡◌};
ghost use Rattle.lists.specs.Tabulate.{tabulate};
ghost use Rattle.walk.specs.Walk.{idle_state, job_state, due_state, two_batch, band_batch, with_tally, with_side};
ghost use Rattle.rules.specs.declared.state.Turn.TheVariants.{Speak, Hear};

use crate::memory::BoxMemory;
use crate::tapes;
use rules::state::{Batch, Phase, State, Task, Turn};

// Awake, with a tally of four tapes.
#[tactic(auto, using(crate::proofs::Reached::woken_four))]
pub fn idle() -> State
    ensures { result ≡ idle_state 16 }
{
    BoxMemory::woken(1).state
}

// The same, but that the tally had a mark more at wake.
pub fn longer(state: State) -> State
    ensures { result ≡ with_tally state 20 }
{
    State { tally: 20, ..state }
}

// Box 1 in a job on tape 0: speak 1 is due.
#[tactic(auto, using(crate::proofs::Reached::woken_four, crate::proofs::Reached::woken_tally, crate::proofs::Reached::opened_four))]
fn started() -> BoxMemory
    ensures { (result.state ≡ job_state 16 (Speak 1)) × (result.work ≡ tabulate 300 (λ k. 6)) × (result.out ≡ tabulate 99 (λ k. 6)) }
{
    let mut memory = BoxMemory::woken(1);
    memory.start(0, Task::Compare(1), &[5, 1], &tapes::plain(1, 0));
    memory
}

pub fn opened() -> State
    ensures { result ≡ job_state 16 (Speak 1) }
{
    started().state
}

// The same job, where hear 1 is due.
#[tactic(auto, using(crate::proofs::Reached::spoken_four))]
pub fn hearing() -> BoxMemory
    ensures { (result.state ≡ job_state 16 (Hear 1)) × (result.work ≡ tabulate 300 (λ k. 6)) }
{
    let mut memory = started();
    memory.speak(0, 1, &tapes::plain(1, 0));
    memory
}

// A box 2 in such a job, with the same shares: the side alone is another.
pub fn box2_hearing() -> BoxMemory
    ensures { (result.state ≡ with_side (job_state 16 (Hear 1)) 2) × (result.work ≡ tabulate 300 (λ k. 6)) }
{
    let mut memory = hearing();
    memory.state.side = 2;
    memory
}

pub fn spoken() -> State
    ensures { result ≡ job_state 16 (Hear 1) }
{
    hearing().state
}

// Box 1 awake, and in that job.
pub fn in_job(turn: Turn, batch: Batch) -> State
    ensures { result ≡ due_state turn batch }
{
    State {
        phase: Phase::Job(turn),
        batch,
        ..idle()
    }
}

// What it holds of a job of two on tapes 0 and 1.
pub fn two() -> Batch
    ensures { result ≡ two_batch }
{
    Batch {
        first: 0,
        task: Task::Compare(2),
        x: [5, 6, 0, 0, 0, 0, 0, 0],
        y: [1, 2, 0, 0, 0, 0, 0, 0],
    }
}

// And of a band on those tapes, 2 < a and a < 5, where its share of a is 3. A bound's share is the bound at box 1.
pub fn band() -> Batch
    ensures { result ≡ band_batch }
{
    Batch {
        first: 0,
        task: Task::Band(2, 5),
        x: [2, 3, 0, 0, 0, 0, 0, 0],
        y: [3, 5, 0, 0, 0, 0, 0, 0],
    }
}

// Awake, with a tally of ten tapes.
pub fn ten() -> State
    ensures { result ≡ idle_state 40 }
{
    State {
        tally: 40,
        ..idle()
    }
}
