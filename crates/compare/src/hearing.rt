// What a box works out when it has heard a round's words. That these can be read and how many they are, and the room of work, stand in each clause: each
// function asks for as many words as it reads, so with a type for heard words a clause would still stand beside it.
ghost use Rattle.std.specs.Prelude.{◌≡◌, ◌+◌, ◌*◌, ◌%◌, ◌<◌, ◌≤◌, length, get_or, IfSome};
ghost use Rattle.std.proofs.lemmas.List.Edits.{sets};
ghost use Rattle.lists.specs.Tabulate.{tabulate};
ghost use Rattle.field.specs.Width.{modulus};
ghost use Rattle.tape.specs.Layout.{triple_count, section};
ghost use Rattle.protocol.specs.Words.{Below, FromLine};
ghost use Rattle.protocol.specs.Tests.{complement, exclusive};
ghost use Rattle.protocol.specs.Work.{work_length};
ghost use Rattle.protocol.specs.Products.{closed};
ghost use Rattle.protocol.specs.Rounds.{round_words, answer_share, after_hearing, share_after};

use crate::Party;
use field::Width;

// One word for each test, from a place of work on.
fn keep(work: &mut [u32], at: usize, words: [u32; 3])
    requires { at + 3 ≤ length work.old }
    ensures { work.new ≡ sets work.old at words }
{
    work[at..at + 3].copy_from_slice(&words);
}

// Shares of 1 - v, for each test.
fn complements(n: Width, side: u32, v: [u32; 3]) -> [u32; 3]
    requires { Below (modulus n.bits) v }
    ensures { result ≡ tabulate 3 (λ t. complement n.bits side (get_or v t 0)) }
{
    std::array::from_fn(|t| steps::tests::complement_of(n, side, v[t]))
}

impl Party<'_> {
    ghost use Rattle.compare.specs.Parties.{party_of};

    // u * v for each test, closed by the triples from first on. The other box's words stand from a place of incoming on.
    fn close_three(
        self,
        u: [u32; 3],
        v: [u32; 3],
        first: usize,
        incoming: &[u32],
        from: usize,
    ) -> [u32; 3]
        requires operands { Below (modulus self.n.bits) u × Below (modulus self.n.bits) v × (first + 3 ≤ triple_count self.n.bits) }
        requires from_line { FromLine self.n.bits (from + 6) incoming.now }
        ensures value { let b = self.entry in result
            ≡ tabulate 3 (λ t. closed b.n.bits b.side (get_or u t 0) (get_or v t 0) (section b.n.bits 2 b.tape.now) (first + t) incoming.now (from + t * 2)) }
        ensures below { Below (modulus self.entry.n.bits) result }
    {
        let mut products = u;
        self.triples()
            .close_products(self.side, &mut products, &v, 1, first, incoming, from);
        products
    }

    // u + v - 2uv for each test, by the same triples and words. Both in one function were tried: what the closure asks of the products did not close.
    fn exclusive_three(
        self,
        u: [u32; 3],
        v: [u32; 3],
        first: usize,
        incoming: &[u32],
        from: usize,
    ) -> [u32; 3]
        requires operands { Below (modulus self.n.bits) u × Below (modulus self.n.bits) v × (first + 3 ≤ triple_count self.n.bits) }
        requires from_line { FromLine self.n.bits (from + 6) incoming.now }
        ensures value { let b = self.entry in result
            ≡ tabulate 3
            (λ t.
            exclusive b.n.bits ((get_or u t 0 + get_or v t 0) % modulus b.n.bits)
            (closed b.n.bits b.side (get_or u t 0) (get_or v t 0) (section b.n.bits 2 b.tape.now) (first + t) incoming.now (from + t * 2))) }
        ensures below { Below (modulus self.entry.n.bits) result }
    {
        let n = self.n;
        let products = self.close_three(u, v, first, incoming, from);
        std::array::from_fn(|t| steps::tests::exclusive_of(n, n.add(u[t], v[t]), products[t]))
    }

    // Round 1 is heard: the counts of all levels and the shares of S.
    fn hear_first(self, work: &mut [u32], incoming: &[u32])
        requires { (work_length self.n.bits ≤ length work.old) × FromLine self.n.bits (round_words self.n.bits 1) incoming.now }
        ensures { work.new ≡ after_hearing (party_of self.entry) work.old 1 incoming.now }
    {
        let tests = steps::tests::tests_of(self.n, self.x, self.y);
        self.squares().close(self.side, tests, incoming, &mut *work);
        let own = crate::factors::lows(self.side, tests.low);
        let others = crate::factors::lows(3 - self.side, tests.low);
        let first = steps::places::low_triple(self.n.bits);
        let from = steps::places::square_count(self.n);
        let sums = self.exclusive_three(own, others, first, incoming, from);
        keep(work, steps::places::sum_slot(self.n.bits, 0), sums);
    }

    // Round 2 is heard: the shares of A * w, in the place of those of A.
    fn hear_masked(self, work: &mut [u32], incoming: &[u32])
        requires { (work_length self.n.bits ≤ length work.old) × FromLine self.n.bits (round_words self.n.bits 2) incoming.now }
        ensures { work.new ≡ after_hearing (party_of self.entry) work.old 2 incoming.now }
    {
        let powers = self.powers().words;
        let stride = self.n.bits as usize + 1;
        let count = steps::places::group_count(self.n.bits);
        self.triples().close_products(
            self.side,
            &mut work[..count],
            powers,
            stride,
            0,
            incoming,
            0,
        );
    }

    // Round 3 is heard: the shares of the three wraps.
    fn hear_levels(self, work: &mut [u32], incoming: &[u32])
        requires { (work_length self.n.bits ≤ length work.old) × FromLine self.n.bits (round_words self.n.bits 3) incoming.now }
        ensures { work.new ≡ after_hearing (party_of self.entry) work.old 3 incoming.now }
    {
        let wraps = self.powers().wraps(self.side, &*work, incoming);
        keep(work, steps::places::wrap_slot(self.n.bits, 0), wraps);
    }

    // Round 4 is heard: the shares of the half tests.
    fn hear_wraps(self, work: &mut [u32], incoming: &[u32])
        requires { (work_length self.n.bits ≤ length work.old) × FromLine self.n.bits (round_words self.n.bits 4) incoming.now }
        ensures { work.new ≡ after_hearing (party_of self.entry) work.old 4 incoming.now }
    {
        let n = self.n;
        let sums = crate::factors::sums(n, &*work);
        let tests = crate::factors::known_tests(n, self.x, self.y, &*work);
        let first = steps::places::wrap_triple(n.bits);
        let low = self.exclusive_three(sums, tests.wraps, first, incoming, 0);
        let halves = complements(n, self.side, low);
        keep(work, steps::places::half_slot(n.bits, 0), halves);
    }

    // The answer share, from round 5.
    fn answer(self, work: &[u32], incoming: &[u32]) -> u32
        requires { (work_length self.n.bits ≤ length work.now) × FromLine self.n.bits (round_words self.n.bits 5) incoming.now }
        ensures value { result ≡ answer_share (party_of self.entry) work.now incoming.now }
        ensures below { result < modulus self.entry.n.bits }
    {
        let halves = crate::factors::halves(self.n, work);
        self.triples().answer(self.side, halves, incoming)
    }

    // Takes in the other box's words. The answer share comes back after the last round.
    #[tactic(auto, unfolding(protocol::specs::Rounds::share_after))]
    pub fn hear(self, round: u32, work: &mut [u32], incoming: &[u32]) -> Option<u32>
        requires { (work_length self.n.bits ≤ length work.old) × FromLine self.n.bits (round_words self.n.bits round) incoming.now }
        ensures value { (result ≡ share_after (party_of self.entry) work.old round incoming.now)
            × (work.new ≡ after_hearing (party_of self.entry) work.old round incoming.now) }
        ensures below { IfSome result (λ share. share < modulus self.entry.n.bits) }
    {
        match round {
            1 => {
                self.hear_first(work, incoming);
                None
            }
            2 => {
                self.hear_masked(work, incoming);
                None
            }
            3 => {
                self.hear_levels(work, incoming);
                None
            }
            4 => {
                self.hear_wraps(work, incoming);
                None
            }
            5 => Some(self.answer(&*work, incoming)),
            _ => None,
        }
    }
}
