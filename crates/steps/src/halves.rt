// Round 5: the three half tests opened together under the masks of the tape's last group, and the answer share.
ghost use Rattle.std.specs.Prelude.{◌≡◌, ◌+◌, ◌*◌, ◌<◌, ◌≤◌, length, get_or};
ghost use Rattle.std.proofs.lemmas.List.Edits.{sets};
ghost use Rattle.lists.specs.Tabulate.{tabulate};
ghost use Rattle.field.specs.Width.{modulus};
ghost use Rattle.tape.specs.Layout.{triple_count};
ghost use Rattle.tape.specs.Letters.{last_letter};
ghost use Rattle.protocol.specs.Words.{Below, FromLine};
ghost use Rattle.protocol.specs.Answer.{half_opening, answer_from};

use crate::products::Triples;
use shares::Masks;

impl Triples<'_> {
    // The words that open the half tests, at the front of out. v are the box's shares of H, U and Z.
    // By places: a zip was tried, and its proof did not close, as in `send_levels`.
    pub fn open_halves(self, v: [u32; 3], out: &mut [u32])
        requires below { Below (modulus self.n.bits) v }
        requires places { (triple_count self.n.bits * 3 + 7 ≤ length self.words.now) × (3 ≤ length out.old) }
        ensures { out.new ≡ sets out.old 0 (tabulate 3 (half_opening self.entry.n.bits (λ k. get_or v k 0) self.entry.words.now)) }
    {
        let at = crate::places::last_group(self.n.bits);
        for k in 0..3 {
            out[k] = shares::mask(self.n, v[k], self.words[at + k]);
        }
    }

    // The box's words of the last group.
    fn masks(self) -> Masks
        requires { triple_count self.n.bits * 3 + 7 ≤ length self.words.now }
        ensures { let word = last_letter self.entry.n.bits self.entry.words.now in result
            ≡ record { a = word 0; b = word 1; c = word 2; ab = word 3; ac = word 4; bc = word 5; abc = word 6 } }
    {
        let at = crate::places::last_group(self.n.bits);
        Masks {
            a: self.words[at],
            b: self.words[at + 1],
            c: self.words[at + 2],
            ab: self.words[at + 3],
            ac: self.words[at + 4],
            bc: self.words[at + 5],
            abc: self.words[at + 6],
        }
    }

    // The answer share, 1 - U - Z + HU + HZ + UZ - 2HUZ. e, f and g are what the boxes opened of H, U and Z.
    pub fn answer(self, side: u32, v: [u32; 3], incoming: &[u32]) -> u32
        requires operands { Below (modulus self.n.bits) v × FromLine self.n.bits 3 incoming.now }
        requires long { triple_count self.n.bits * 3 + 7 ≤ length self.words.now }
        ensures value { result ≡ answer_from self.entry.n.bits side (λ k. get_or v k 0) self.entry.words.now incoming.now }
        ensures below { result < modulus self.entry.n.bits }
    {
        let n = self.n;
        let m = self.masks();
        let e = shares::open(n, shares::mask(n, v[0], m.a), incoming[0]);
        let f = shares::open(n, shares::mask(n, v[1], m.b), incoming[1]);
        let g = shares::open(n, shares::mask(n, v[2], m.c), incoming[2]);
        let hu = shares::product(n, side, e, f, m.a, m.b, m.ab);
        let hz = shares::product(n, side, e, g, m.a, m.c, m.ac);
        let uz = shares::product(n, side, f, g, m.b, m.c, m.bc);
        let huz = shares::threefold(n, side, e, f, g, m);
        let added = shares::constant(side, 1) as u64 + hu as u64 + hz as u64 + uz as u64;
        let taken = v[1] as u64 + v[2] as u64 + 2 * (huz as u64);
        n.sub(n.reduce_wide(added), n.reduce_wide(taken))
    }
}
