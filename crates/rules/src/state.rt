// What a box keeps between calls, beside the buffers that it is lent.
ghost use Rattle.std.specs.Prelude.{◌≡◌};
ghost use Rattle.protocol.specs.Sizes.{count_fits};
ghost use Rattle.rules.specs.Tasks.{count_of};

// A start takes at most so many jobs (document 02, P9).
pub const MOST_JOBS: usize = 8;

// Whether a start can take so many: 1 to 8.
#[tactic(auto, unfolding(protocol::specs::Sizes::count_fits))]
pub fn count_fits(count: u32) -> bool
    ensures { result ≡ count_fits count }
{
    (1..=MOST_JOBS as u32).contains(&count)
}

// The call that is due in a job, with its round.
#[derive(Clone, Copy, Debug, PartialEq, Eq)]
pub enum Turn {
    Speak(u32),
    Hear(u32),
}

// Asleep until wake has read the tally; then idle, or in a job with the call that is due.
#[derive(Clone, Copy, Debug, PartialEq, Eq)]
pub enum Phase {
    Asleep,
    Idle,
    Job(Turn),
}

// What a start asks of its jobs (document 02, P9 and P10): so many comparisons, or whether a lies between two public bounds c1 and c2. A band is two
// comparisons, so it holds no count.
#[derive(Clone, Copy, Debug, PartialEq, Eq)]
pub enum Task {
    Compare(u32),
    Band(u32, u32),
}

impl Task {
    // How many comparisons it is.
    pub fn count(self) -> u32
        ensures { result ≡ count_of self }
    {
        match self {
            Task::Compare(count) => count,
            Task::Band(_, _) => 2,
        }
    }
}

// The jobs that one start took, on consecutive tapes: the first number, what is asked of them, and the shares of x and y of each. The count, which document
// 02 has beside the phase (P9), stands in the task, beside the arrays, which an enum cannot hold. Where no job is open all of it is 0, so that no share
// stays behind.
#[derive(Clone, Copy, Debug, PartialEq, Eq)]
pub struct Batch {
    pub first: u32,
    pub task: Task,
    pub x: [u32; MOST_JOBS],
    pub y: [u32; MOST_JOBS],
}

#[derive(Clone, Copy, Debug, PartialEq, Eq)]
pub struct State {
    pub n: u32,
    pub side: u32,
    pub pair: u32,
    pub tally: u32,
    pub phase: Phase,
    pub batch: Batch,
}

// No job's.
pub const NO_BATCH: Batch = Batch {
    first: 0,
    task: Task::Compare(0),
    x: [0; MOST_JOBS],
    y: [0; MOST_JOBS],
};

// A box at first.
pub const FIRST: State = State {
    n: 0,
    side: 0,
    pair: 0,
    tally: 0,
    phase: Phase::Asleep,
    batch: NO_BATCH,
};
