// Which tapes the inputs are run on.
ghost use Rattle.std.specs.Prelude.{◌≡◌, ◌<◌, ◌≤◌, length};
ghost use Rattle.tape.specs.Layout.{tape_length};
ghost use Rattle.tape.specs.Dealt.{Dealt};
ghost use Rattle.protocol.specs.Sizes.{tape_for};
ghost use Rattle.exhaustive.specs.Inputs.{tape_of, seed_of};
ghost use Rattle.exhaustive.specs.Bands.{two_tapes, TwoDealt};

use field::Width;
use tape::Label;

pub const PAIR: u32 = 7;

// The number of a job's tape, or of a band's first.
pub const NUMBER: u32 = 0;

// The seeds for two shares are 1 to 961. A band's second tapes have those after them.
const SEEDS: u32 = 31 * 31;

const BOX1: Label = Label {
    pair: PAIR,
    side: 1,
    number: NUMBER,
};

const BOX2: Label = Label { side: 2, ..BOX1 };

// Where the tapes come from: the plain ones, or those dealt from a seed.
#[derive(Clone, Copy, Debug, PartialEq, Eq)]
pub enum Source {
    Plain,
    Dealt,
}

// The seed for x1 and x2: each input of x has tapes of its own.
pub fn seed_of(x1: u32, x2: u32) -> u32
    requires { (x1 < 31) × (x2 < 31) }
    ensures { result ≡ seed_of x1 x2 }
{
    1 + 31 * x1 + x2
}

// Both boxes' tapes.
#[tactic(auto, unfolding(crate::specs::Inputs::tape_of))]
pub fn pair(n: Width, source: Source, seed: u32, t1: &mut [u32], t2: &mut [u32])
    requires { (length t1.old ≡ tape_length n.bits) × (length t2.old ≡ tape_length n.bits) }
    ensures t1_after { (t1.new ≡ tape_of source n.bits seed 1) × (t2.new ≡ tape_of source n.bits seed 2) }
    ensures dealt { Dealt n.bits 7 0 t1.new t2.new }
{
    match source {
        Source::Plain => {
            dealer::plain(n, BOX1, t1);
            dealer::plain(n, BOX2, t2);
        }
        Source::Dealt => deals::write(seed, n, PAIR, NUMBER, t1, t2),
    }
}

// Both boxes' two tapes for a band, each pair of tapes from a seed of its own.
#[tactic(auto, unfolding(crate::specs::Bands::two_tapes))]
pub fn two_pairs(n: Width, seed: u32, t1: &mut [u32], t2: &mut [u32])
    requires { (seed ≤ 961) × (length t1.old ≡ tape_for n.bits 2) × (length t2.old ≡ tape_for n.bits 2) }
    ensures t1_after { (t1.new ≡ two_tapes n.bits seed 1) × (t2.new ≡ two_tapes n.bits seed 2) }
    ensures dealt { TwoDealt n.bits t1.new t2.new }
{
    let words = tape::tape_words(n);
    let (first1, second1) = t1.split_at_mut(words);
    let (first2, second2) = t2.split_at_mut(words);
    deals::write(seed, n, PAIR, NUMBER, first1, first2);
    deals::write(seed + SEEDS, n, PAIR, NUMBER + 1, second1, second2);
}
