// What a call answers: one type for all five. Each call has its own function to it, as each clause names its own reply.
ghost use Rattle.std.specs.Prelude.{◌≡◌};
ghost use Rattle.rules.specs.Answers.{fresh, started, spoke, heard_or_finished, dropped, reply_of};
ghost use Rattle.walk.specs.Said.{as_reply};

use refusals::Refusal;
use rules::state::MOST_JOBS;
use std::fmt;

// What a call that is taken says.
#[derive(Clone, Copy, Debug, PartialEq, Eq)]
pub enum Said {
    // wake: how many tapes are fresh
    Fresh(u32),
    Started,
    // speak: how many words it wrote
    Spoke(usize),
    Heard,
    // hear of the last round: the answer shares, in job order
    Finished([u32; MOST_JOBS]),
    Dropped,
}

impl fmt::Display for Said {
    fn fmt<W: fmt::Write>(&self, f: &mut fmt::Formatter<W>) -> fmt::Result {
        match *self {
            Said::Fresh(count) => write!(f, "fresh {count}"),
            Said::Started => f.write_str("started"),
            Said::Spoke(count) => write!(f, "spoke {count}"),
            Said::Heard => f.write_str("heard"),
            Said::Finished(_) => f.write_str("share"),
            Said::Dropped => f.write_str("dropped"),
        }
    }
}

pub type Answer = Result<Said, Refusal>;

pub fn of_wake(answer: Result<u32, Refusal>) -> Answer
    ensures { reply_of as_reply result ≡ reply_of fresh answer }
{
    answer.map(Said::Fresh)
}

pub fn of_start(answer: Result<(), Refusal>) -> Answer
    ensures { reply_of as_reply result ≡ reply_of (λ _. started) answer }
{
    answer.map(|()| Said::Started)
}

pub fn of_speak(answer: Result<usize, Refusal>) -> Answer
    ensures { reply_of as_reply result ≡ reply_of spoke answer }
{
    answer.map(Said::Spoke)
}

pub fn of_hear(answer: Result<Option<[u32; MOST_JOBS]>, Refusal>) -> Answer
    ensures { reply_of as_reply result ≡ reply_of heard_or_finished answer }
{
    match answer? {
        None => Ok(Said::Heard),
        Some(shares) => Ok(Said::Finished(shares)),
    }
}

pub fn of_drop(answer: Result<(), Refusal>) -> Answer
    ensures { reply_of as_reply result ≡ reply_of (λ _. dropped) answer }
{
    answer.map(|()| Said::Dropped)
}
