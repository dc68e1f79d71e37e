// What a text names of its job, before the tapes.
ghost use Rattle.std.specs.Prelude.{◌≡◌, ◌≤◌, IfSome};
ghost use Rattle.std.specs.Option.{option_map};
ghost use Rattle.protocol.specs.Sizes.{most_jobs};
ghost use Rattle.rules.specs.Tasks.{count_of};
ghost use Rattle.vectors.specs.Head.{head_words, task_in, list_words, job_in, past_job};

use crate::numbers::Reader;
use rules::state;
use rules::state::{MOST_JOBS, Task};

// How a text names its job: one of a single comparison does not say how many they are, and one of a band says its bounds in the place of that.
#[derive(Clone, Copy, Debug, PartialEq, Eq)]
pub enum Form {
    Single,
    Joined,
    Band,
}

// The most numbers before the shares: those of a band.
const MOST_WORDS: usize = 5;

impl Form {
    // How many numbers stand before the shares.
    fn head_words(self) -> usize
        ensures { result ≡ head_words self }
    {
        match self {
            Form::Single => 3,
            Form::Joined => 4,
            Form::Band => 5,
        }
    }

    // What those after n, pair and first tape number ask.
    fn task(self, fourth: u32, fifth: u32) -> Task
        ensures { result ≡ task_in self fourth fifth }
    {
        match self {
            Form::Single => Task::Compare(1),
            Form::Joined => Task::Compare(fourth),
            Form::Band => Task::Band(fourth, fifth),
        }
    }
}

// How many words a box's list has: two shares for each comparison, or a band's one of a.
pub fn list_words(task: Task) -> usize
    requires { count_of task ≤ most_jobs }
    ensures { result ≡ list_words task }
{
    match task {
        Task::Compare(count) => 2 * count as usize,
        Task::Band(_, _) => 1,
    }
}

// The most of them.
pub const MOST_SHARES: usize = 2 * MOST_JOBS;

// What a text names before the tapes: a box's list has its shares x and y of the first comparison, then of the next, or of a band its share of a, and 0
// past them.
#[derive(Clone, Copy, Debug, PartialEq, Eq)]
pub struct Job {
    pub n: u32,
    pub pair: u32,
    pub first: u32,
    pub task: Task,
    pub box1: [u32; MOST_SHARES],
    pub box2: [u32; MOST_SHARES],
}

// A job has n, pair, first tape number and, of several comparisons, the count, or a band's bounds, then box 1's shares and box 2's.
#[tactic(auto, using(rules::proofs::Batches::count_most), unfolding(crate::specs::Head::past_job))]
pub fn job_at(text: &mut Reader, form: Form) -> Option<Job>
    ensures past { option_map (λ _. text.new.text.now) result ≡ past_job form text.old.text.now }
    ensures job { IfSome result (λ job. (job ≡ job_in form text.old.text.now) × (count_of job.task ≤ most_jobs)) }
{
    let [n, pair, first, fourth, fifth] = text.filled([0; MOST_WORDS], form.head_words())?;
    let task = form.task(fourth, fifth);
    if !state::count_fits(task.count()) {
        return None;
    }
    let shares = list_words(task);
    Some(Job {
        n,
        pair,
        first,
        task,
        box1: text.filled([0; MOST_SHARES], shares)?,
        box2: text.filled([0; MOST_SHARES], shares)?,
    })
}
