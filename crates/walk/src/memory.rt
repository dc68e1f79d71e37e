// What a box keeps along its jobs, and the buffers that it is lent. The room is three comparisons': a smaller job uses the first words of it.
ghost use Rattle.walk.specs.Courses.{Woke, Started, Spoke, Heard};

use crate::answers::Answer;
use crate::{answers, calls, tallies, tapes};
use rules::state;
use rules::state::{State, Task};

// What the box answered last, its state, and its buffers.
#[derive(Clone, Copy)]
pub struct BoxMemory {
    pub answer: Answer,
    pub state: State,
    pub work: [u32; 300],
    pub out: [u32; 99],
    pub tally: [u8; 16],
}

impl BoxMemory {
    // A box that has woken. The words in its buffers are of no account.
    pub fn woken(side: u32) -> BoxMemory
        ensures { Woke side result }
    {
        let tally = tallies::FRESH;
        let mut state = state::FIRST;
        let answer = limit_box::wake(&mut state, 3, side, tapes::PAIR, &tally);
        BoxMemory {
            answer: answers::of_wake(answer),
            state,
            work: [6; 300],
            out: [6; 99],
            tally,
        }
    }

    pub fn start(&mut self, first: u32, task: Task, shares: &[u32], tapes: &[u32])
        ensures { Started first task shares.now tapes.now self.old self.new }
    {
        let answer = calls::open(
            &mut self.state,
            first,
            task,
            shares,
            tapes,
            &self.work,
            &mut self.tally,
        );
        self.answer = answers::of_start(answer);
    }

    pub fn speak(&mut self, first: u32, round: u32, tapes: &[u32])
        ensures { Spoke first round tapes.now self.old self.new }
    {
        let answer = limit_box::speak(
            &mut self.state,
            first,
            round,
            tapes,
            &self.work,
            &mut self.out,
        );
        self.answer = answers::of_speak(answer);
    }

    pub fn hear(&mut self, first: u32, round: u32, tapes: &[u32], incoming: &[u32])
        ensures { Heard first round tapes.now incoming.now self.old self.new }
    {
        let answer = limit_box::hear(
            &mut self.state,
            first,
            round,
            tapes,
            &mut self.work,
            incoming,
        );
        self.answer = answers::of_hear(answer);
    }
}
