// How many words each round opens, of one job and of several, and how many a job works in.
ghost use Rattle.std.specs.Prelude.{◌≡◌};
ghost use Rattle.protocol.specs.Rounds.{round_words};
ghost use Rattle.protocol.specs.Work.{work_length};
ghost use Rattle.protocol.specs.Sizes.{round_for};

use field::Width;

pub const LAST_ROUND: u32 = 5;

// How many words a round opens. Here and in speak and hear a match on the round's number, the form that document 01's list of forms asks for.
#[tactic(auto, using(tape::proofs::Sizes::small), unfolding(protocol::specs::Rounds::round_words))]
pub fn words_of(n: Width, round: u32) -> usize
    ensures { result ≡ round_words n.bits round }
{
    let m = n.bits as usize;
    match round {
        1 => 3 * (m * m) + 6,
        2 => 6 * m,
        3 => 3 * m,
        4 => 6,
        5 => 3,
        _ => 0,
    }
}

// How many words so many jobs open in a round, where they are taken together.
#[tactic(auto, using(protocol::proofs::Lengths::words_most))]
pub fn words_for(n: Width, count: u32, round: u32) -> usize
    ensures { result ≡ round_for n.bits count round }
{
    count as usize * words_of(n, round)
}

// How many words of work a job may use, for any number n: a Width would ask more of callers.
pub fn work_words(n: u32) -> usize
    ensures { result ≡ work_length n }
{
    12 * (n as usize) + 64
}
