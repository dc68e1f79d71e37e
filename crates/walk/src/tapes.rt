// The plain tapes of width 3, the tapes of threes, and such as are no tapes.
ghost use Rattle.std.specs.Prelude.{◌≡◌, ◌<◌, ◌≤◌, ◌-◌, ◌+◌, ◌*◌, length, replicate, set, ◌++◌};
ghost use Rattle.lists.specs.Tabulate.{tabulate};
ghost use Rattle.tape.specs.Layout.{trailer};
ghost use Rattle.walk.specs.Walk.{box_tape, joined_tapes, threes_tape};

use field::Width;
use tape::Label;

pub const PAIR: u32 = 5;

// The body's words: 54 of squares, 36 of powers, 45 of triples, 7 of the last group. The trailer follows.
pub const BODY: usize = 142;

// A box's tape of a tape number.
#[tactic(auto, unfolding(field::specs::Width::listed))]
pub fn plain(side: u32, number: u32) -> [u32; 149]
    ensures { (length result ≡ 149) × (result ≡ box_tape side number) }
{
    let mut tape = [0u32; 149];
    let label = Label {
        pair: PAIR,
        side,
        number,
    };
    dealer::plain(Width { bits: 3 }, label, &mut tape);
    tape
}

// Box 1's tape 0 with another word in one place.
pub fn changed(place: usize, word: u32) -> [u32; 149]
    requires { place < 149 }
    ensures { (length result ≡ 149) × (result ≡ set (box_tape 1 0) place word) }
{
    let mut tape = plain(1, 0);
    tape[place] = word;
    tape
}

// The same word all through, but for the last seven: a trailer of that box's tape 0, which is right.
#[tactic(auto, unfolding(field::specs::Width::listed))]
fn of_word<const N: usize>(word: u32, side: u32) -> [u32; N]
    requires { 7 ≤ N }
    ensures { result ≡ replicate (N - 7) word ++ trailer 3 5 side 0 }
{
    let mut tape = [word; N];
    let words = &mut tape[..];
    let label = Label {
        pair: PAIR,
        side,
        number: 0,
    };
    words[N - tape::TRAILER..].copy_from_slice(&tape::trailer_of(Width { bits: 3 }, label));
    tape
}

// A box's tape 0 with a body of threes. On the plain tapes, whose masks are 0, box 2 would hold the same whatever it heard.
pub fn threes(side: u32) -> [u32; 149]
    ensures { (length result ≡ 149) × (result ≡ threes_tape side) }
{
    of_word(3, side)
}

// A tape with a word too few before its trailer, which is right.
pub fn short() -> [u32; 148]
    ensures { (length result ≡ 148) × (result ≡ tabulate 141 (λ k. 0) ++ trailer 3 5 1 0) }
{
    of_word(0, 1)
}

// A tape with a word too many before its trailer, which is right.
pub fn long() -> [u32; 150]
    ensures { (length result ≡ 150) × (result ≡ tabulate 143 (λ k. 0) ++ trailer 3 5 1 0) }
{
    of_word(0, 1)
}

// Writes plain tapes one after the other, one for each of these sides, on consecutive tape numbers.
fn join(tapes: &mut [u32], sides: &[u32], first: u32)
    requires { (length tapes.old ≡ 149 * length sides.now) × (first + length sides.now ≤ 4294967296) }
    ensures { tapes.new ≡ joined_tapes sides.now first }
{
    for i in 0..sides.len() {
        let from = 149 * i;
        tapes[from..from + 149].copy_from_slice(&plain(sides[i], first + i as u32));
    }
}

// Such tapes joined.
pub fn joined<const N: usize>(sides: &[u32], first: u32) -> [u32; N]
    requires { (149 * length sides.now ≡ N) × (first + length sides.now ≤ 4294967296) }
    ensures { (length result ≡ N) × (result ≡ joined_tapes sides.now first) }
{
    let mut tapes = [0u32; N];
    join(&mut tapes, sides, first);
    tapes
}
