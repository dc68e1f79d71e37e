// Round 1's words, worked out from the last one down (document 02, P5): alpha * beta of each test, then the squares.
ghost use Rattle.std.specs.Prelude.{◌≡◌, true, ℕ, ◌+◌, ◌*◌, ◌<◌, ◌≤◌, List, length};
ghost use Rattle.std.proofs.lemmas.List.Edits.{sets};
ghost use Rattle.lists.specs.Span.{span};
ghost use Rattle.field.specs.Width.{modulus};
ghost use Rattle.shares.specs.Side.{is_side};
ghost use Rattle.tape.specs.Layout.{square_count};
ghost use Rattle.protocol.specs.Words.{Below};
ghost use Rattle.protocol.specs.Products.{low_triple};
ghost use Rattle.protocol.specs.Rounds.{round_words, message};
ghost use Rattle.protocol.specs.Filling.{filled, low_word};

use crate::Party;
use steps::products::Triples;

// Word j of the six that open alpha * beta, from the tests' low bits: e of test j / 2 for even j, f for odd j. Box 1 alone has alpha, box 2 alone
// beta.
fn low_word(side: u32, low: [u32; 3], triples: Triples, j: usize) -> u32
    requires operands { (is_side side ≡ true) × Below (modulus triples.n.bits) low × (j < 6) }
    requires long { (low_triple triples.n.bits + 3) * 3 ≤ length triples.words.now }
    ensures { result ≡ low_word triples.entry.n.bits side low triples.entry.words.now j }
{
    let t = j / 2;
    let second = j % 2;
    let owner = if second == 0 { side } else { 3 - side };
    let i = steps::places::low_triple(triples.n.bits) + t;
    let share = shares::constant(owner, low[t]);
    shares::mask(triples.n, share, triples.words[i * 3 + second])
}

// These words from word `from` on, in their places behind the squares', from the last one down.
fn open_lows(side: u32, low: [u32; 3], triples: Triples, from: usize, out: &mut [u32])
    requires operands { (is_side side ≡ true) × Below (modulus triples.n.bits) low × (from ≤ 6) }
    requires long { (low_triple triples.n.bits + 3) * 3 ≤ length triples.words.now }
    requires room { square_count triples.n.bits + 6 ≤ length out.old }
    ensures { let n = triples.entry.n.bits in out.new
        ≡ sets out.old (square_count n + from) (span from 6 (low_word n side low triples.entry.words.now)) }
{
    let at = steps::places::square_count(triples.n);
    for j in (from..6).rev() {
        out[at + j] = low_word(side, low, triples, j);
    }
}

impl Party<'_> {
    ghost use Rattle.compare.specs.Parties.{party_of};

    // The last `count` words of the message, in their places; the rest of out stays as it was.
    pub fn fill(self, count: usize, out: &mut [u32])
        requires { (count ≤ round_words self.n.bits 1) × (round_words self.n.bits 1 ≤ length out.old) }
        ensures { (work : List ℕ) → out.new ≡ filled out.old (message (party_of self.entry) work 1) count }
    {
        let tests = steps::tests::tests_of(self.n, self.x, self.y);
        let from = crate::words::words_of(self.n, 1) - count;
        let squares = steps::places::square_count(self.n);
        let lows_from = steps::places::beyond(from, squares);
        open_lows(self.side, tests.low, self.triples(), lows_from, &mut *out);
        self.squares().open(self.side, tests, from, out);
    }
}
