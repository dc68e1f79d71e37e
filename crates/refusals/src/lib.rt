// Why a call is refused: document 01's table of refusals, with its numbers and trade words, and the refusals that joined it.
#![tactic(auto)]

ghost use Rattle.refusals.specs.Numbers.{number_of};
ghost use Rattle.std.specs.Prelude.{◌≡◌};

// What a call's checks come to is a Result<(), Refusal>: it goes on, or is refused.
#[derive(Clone, Copy, Debug, PartialEq, Eq)]
pub enum Refusal {
    Asleep = 1,
    Width = 2,
    Side = 3,
    Tally = 4,
    Busy = 5,
    // no job
    NoJob = 6,
    Number = 7,
    Spent = 8,
    Share = 9,
    Tape = 10,
    Turn = 11,
    Room = 12,
    Word = 13,
    // the test dealer's alone
    Seed = 14,
    Late = 15,
    // of jobs
    Count = 16,
    // a band's
    Bounds = 17,
}

impl From<Refusal> for u32 {
    ghost from_gives = { λ refusal number. number ≡ number_of refusal };

    fn from(refusal: Refusal) -> u32 {
        refusal as u32
    }
}
