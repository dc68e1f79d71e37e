// Both boxes step by step through a job.
ghost use Rattle.std.specs.Prelude.{◌≡◌, ◌≤◌};
ghost use Rattle.protocol.specs.Sizes.{round_for};
ghost use Rattle.rules.specs.Tasks.{count_of};
ghost use Rattle.walk.specs.Walk.{tally_after};
ghost use Rattle.walk.specs.Courses.{asked_of, plain_job, Woken, Stepped, Course, CourseFrom};
ghost use Rattle.walk.specs.declared.job_steps.Step.TheVariants.{Start, Speak, Hear};

use crate::five::Box1;
use crate::job_steps::Step;
use crate::memory::BoxMemory;
use crate::tapes;
use rules::state::Task;

// A job of both boxes: its first number, and what each box is asked, with the shares and the tapes that it is lent. Both are asked the same, but where a
// box is to hear the words of another kind of job.
#[derive(Clone, Copy)]
pub struct Job<'a> {
    pub first: u32,
    pub task1: Task,
    pub task2: Task,
    pub shares1: &'a [u32],
    pub shares2: &'a [u32],
    pub tapes1: &'a [u32],
    pub tapes2: &'a [u32],
}

// The words of a message of so many comparisons, or of a band.
fn words(task: Task, round: u32) -> usize
    requires { count_of task ≤ 3 }
    ensures { (result ≤ 99) × (result ≡ round_for 3 (count_of task) round) }
{
    task.count() as usize * crate::five::words(round)
}

#[derive(Clone, Copy)]
pub struct Pair {
    pub box1: BoxMemory,
    pub box2: BoxMemory,
}

impl Pair {
    // Both boxes have woken.
    pub fn woken() -> Pair
        ensures { Woken result }
    {
        Pair {
            box1: BoxMemory::woken(1),
            box2: BoxMemory::woken(2),
        }
    }

    fn start(&mut self, job: Job<'_>)
        ensures { Stepped (asked_of job.entry) Start self.old self.new }
    {
        self.box1
            .start(job.first, job.task1, job.shares1, job.tapes1);
        self.box2
            .start(job.first, job.task2, job.shares2, job.tapes2);
    }

    fn speak(&mut self, job: Job<'_>, round: u32)
        ensures { Stepped (asked_of job.entry) (Speak round) self.old self.new }
    {
        self.box1.speak(job.first, round, job.tapes1);
        self.box2.speak(job.first, round, job.tapes2);
    }

    // The messages are the first words of the boxes' outs: without a heap the room is of one size. A hear leaves out as it was, so box 2 hears
    // what box 1 spoke.
    fn hear(&mut self, job: Job<'_>, round: u32)
        requires { (count_of job.task1 ≤ 3) × (count_of job.task2 ≤ 3) }
        ensures { Stepped (asked_of job.entry) (Hear round) self.old self.new }
    {
        let to1 = &self.box2.out[..words(job.task2, round)];
        self.box1.hear(job.first, round, job.tapes1, to1);
        let to2 = &self.box1.out[..words(job.task1, round)];
        self.box2.hear(job.first, round, job.tapes2, to2);
    }

    fn step(&mut self, job: Job<'_>, step: Step)
        requires { (count_of job.task1 ≤ 3) × (count_of job.task2 ≤ 3) }
        ensures { Stepped (asked_of job.entry) step self.old self.new }
    {
        match step {
            // a box is awake from the first on
            Step::Wake => {}
            Step::Start => self.start(job),
            Step::Speak(round) => self.speak(job, round),
            Step::Hear(round) => self.hear(job, round),
        }
    }

    // So many steps of a job, of which the wake is done.
    #[tactic(auto, using(crate::specs::Courses::none, crate::specs::Courses::next))]
    pub fn walk(&mut self, job: Job<'_>, steps: u32)
        requires { (count_of job.task1 ≤ 3) × (count_of job.task2 ≤ 3) }
        ensures { Course (asked_of job.entry) self.old steps self.new }
    {
        for earlier in 0..steps {
            self.step(job, Step::at(earlier + 1));
        }
    }
}

// Both boxes after so many steps of a job on tape 0; after wake at 0.
#[tactic(auto, using(crate::proofs::Reached::tally_is))]
pub fn reached(steps: u32) -> Pair
    ensures tally { result.box1.tally ≡ tally_after steps }
    ensures course { CourseFrom Woken plain_job steps result }
{
    let job = Job {
        first: 0,
        task1: Task::Compare(1),
        task2: Task::Compare(1),
        shares1: &[5, 1],
        shares2: &[5, 3],
        tapes1: &tapes::plain(1, 0),
        tapes2: &tapes::plain(2, 0),
    };
    let mut pair = Pair::woken();
    pair.walk(job, steps);
    pair
}

// What is left of box 1 after so many of them.
pub fn box1_after(steps: u32) -> Box1<16>
    ensures { result.tally ≡ tally_after steps }
{
    let BoxMemory { state, tally, .. } = reached(steps).box1;
    Box1 { state, tally }
}
