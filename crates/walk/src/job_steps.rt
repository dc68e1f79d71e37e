// The steps of a job, which both boxes take: 0 is the wake, 1 the start, 2 speak 1, 3 hear 1, and so on.
ghost use Rattle.std.specs.Prelude.{◌≡◌};
ghost use Rattle.walk.specs.JobSteps.{step_at, round_in};

use std::fmt;

#[derive(Clone, Copy)]
pub enum Step {
    Wake,
    Start,
    Speak(u32),
    Hear(u32),
}

// The last step of a job: the hear of the last round.
pub const LAST: u32 = 2 * compare::words::LAST_ROUND + 1;

impl Step {
    // The step of that number. Steps are counted, since cuts and drops go through all of them, `0..=LAST`.
    pub fn at(number: u32) -> Step
        ensures { result ≡ step_at number }
    {
        match number {
            0 => Step::Wake,
            1 => Step::Start,
            _ if number % 2 == 0 => Step::Speak(number / 2),
            _ => Step::Hear(number / 2),
        }
    }

    // Its round, or the first that follows it.
    pub fn round(self) -> u32
        ensures { result ≡ round_in self }
    {
        match self {
            Step::Wake | Step::Start => 1,
            Step::Speak(round) | Step::Hear(round) => round,
        }
    }
}

impl fmt::Display for Step {
    fn fmt<W: fmt::Write>(&self, f: &mut fmt::Formatter<W>) -> fmt::Result {
        match *self {
            Step::Wake => f.write_str("wake"),
            Step::Start => f.write_str("start"),
            Step::Speak(round) => write!(f, "speak {round}"),
            Step::Hear(round) => write!(f, "hear {round}"),
        }
    }
}
