// Box 1's five calls, each lent all that it needs.
ghost use Rattle.std.specs.Prelude.{◌≡◌, ◌<◌, ◌≤◌, [], ◌∷◌, take};
ghost use Rattle.lists.specs.Tabulate.{tabulate};
ghost use Rattle.protocol.specs.Rounds.{round_words};
ghost use Rattle.rules.specs.Modes.{asleep_state};
ghost use Rattle.rules.specs.Calls.{start_rule, speak_rule, hear_rule};
ghost use Rattle.rules.specs.declared.state.Task.TheVariants.{Band};
ghost use Rattle.walk.specs.Walk.{box_tape, joined_tapes, filler, one_start, Answered};

use crate::calls;
use crate::calls::{FILLER, Tried, hear, speak, start, start_one};
use crate::say::short;
use crate::tapes::{joined, plain};
use field::Width;
use rules::state::{NO_BATCH, Phase, State, Task};
use std::io;

// The words of a round at width 3: no more than the first has.
#[tactic(auto, using(protocol::proofs::Lengths::most_words), unfolding(field::specs::Width::listed, protocol::specs::Rounds::round_words))]
pub fn words(round: u32) -> usize
    ensures { (result ≤ 33) × (result ≡ round_words 3 round) }
{
    compare::words::words_of(Width { bits: 3 }, round)
}

pub fn speak_on(state: State, number: u32, round: u32) -> Tried
    ensures { Answered result state (filler 33) (speak_rule state number round (box_tape 1 number) (tabulate 100 (λ k. 0)) (filler 33)) }
{
    let mut out = [FILLER; 33];
    let tape = plain(1, number);
    speak(state, number, round, &tape, &[0; 100], &mut out)
}

// A hear of as many words as the round has.
pub fn hear_on(state: State, number: u32, round: u32) -> Tried
    ensures { Answered result state (filler 100) (hear_rule state number round (box_tape 1 number) (filler 100) (take (round_words 3 round) (tabulate 33 (λ k. 0)))) }
{
    let mut work = [FILLER; 100];
    let tape = plain(1, number);
    let incoming = &[0; 33][..words(round)];
    hear(state, number, round, &tape, &mut work, incoming)
}

// What is left of box 1 between its calls.
#[derive(Clone, Copy)]
pub struct Box1<const N: usize> {
    pub state: State,
    pub tally: [u8; N],
}

impl<const N: usize> Box1<N> {
    // The power is cut: the box is asleep.
    pub fn cut(&self) -> Box1<N>
        ensures { (result.state ≡ asleep_state self.now.state) × (result.tally ≡ self.now.tally) }
    {
        let state = State {
            phase: Phase::Asleep,
            batch: NO_BATCH,
            ..self.state
        };
        Box1 { state, ..*self }
    }

    // A start on a tape that is lent with it.
    pub fn start_on(&self, number: u32) -> Tried
        ensures { Answered result self.now.state self.now.tally (one_start self.now.state number 5 1 (box_tape 1 number) (tabulate 100 (λ k. 0)) self.now.tally) }
    {
        let Box1 { state, tally } = *self;
        let tape = plain(1, number);
        start_one(state, number, 5, 1, &tape, &[0; 100], tally)
    }

    // A start of a band on such a tape and the next, 2 < a and a < 5.
    pub fn band_on(&self, number: u32) -> Tried
        requires { number < 10 }
        ensures { Answered result self.now.state self.now.tally
            (start_rule self.now.state number (Band 2 5) (3 ∷ []) (joined_tapes (1 ∷ 1 ∷ []) number) (tabulate 200 (λ k. 0)) self.now.tally) }
    {
        let Box1 { state, tally } = *self;
        let tapes: [u32; 298] = joined(&[1, 1], number);
        start(
            state,
            number,
            Task::Band(2, 5),
            &[3],
            &tapes,
            &[0; 200],
            tally,
        )
    }

    // What each of the five answers: a start on tape 1, this speak and this hear.
    pub fn with(&self, rt: &impl Print, speak: Tried, hear: Tried) -> io::Result<()> {
        short(rt, calls::wake(self.state, 3, 1, &self.tally))?;
        short(rt, self.start_on(1))?;
        short(rt, speak)?;
        short(rt, hear)?;
        short(rt, calls::drop(self.state))
    }

    // The speak and the hear are on tape 0.
    pub fn all(&self, rt: &impl Print, round: u32) -> io::Result<()> {
        let speak = speak_on(self.state, 0, round);
        let hear = hear_on(self.state, 0, round);
        self.with(rt, speak, hear)
    }
}
