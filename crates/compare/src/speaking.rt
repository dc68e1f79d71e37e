// What a box sends in each round.
ghost use Rattle.std.specs.Prelude.{◌≡◌, ◌≤◌, length};
ghost use Rattle.std.proofs.lemmas.List.Edits.{sets};
ghost use Rattle.protocol.specs.Work.{work_length};
ghost use Rattle.protocol.specs.Rounds.{round_words, message};

use crate::Party;

impl Party<'_> {
    ghost use Rattle.compare.specs.Parties.{party_of};

    // Writes the round's words at the front of out.
    pub fn speak(self, round: u32, work: &[u32], out: &mut [u32])
        requires { (work_length self.n.bits ≤ length work.now) × (round_words self.n.bits round ≤ length out.old) }
        ensures { out.new ≡ sets out.old 0 (message (party_of self.entry) work.now round) }
    {
        match round {
            1 => self.fill(crate::words::words_of(self.n, 1), out),
            2 => {
                let triples = self.triples();
                let powers = self.powers().words;
                let stride = self.n.bits as usize + 1;
                let count = steps::places::group_count(self.n.bits);
                triples.open_products(&work[..count], powers, stride, 0, out, 0);
            }
            3 => steps::levels::send_levels(self.n, work, out),
            4 => {
                let triples = self.triples();
                let sums = crate::factors::sums(self.n, work);
                let tests = crate::factors::known_tests(self.n, self.x, self.y, work);
                let first = steps::places::wrap_triple(self.n.bits);
                triples.open_products(&sums, &tests.wraps, 1, first, out, 0);
            }
            5 => {
                let halves = crate::factors::halves(self.n, work);
                self.triples().open_halves(halves, out);
            }
            _ => {}
        }
    }
}
