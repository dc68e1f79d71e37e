// Opening products by Beaver triples, and closing them when the other box's words are there.
ghost use Rattle.std.specs.Prelude.{◌≡◌, ◌+◌, ◌*◌, ◌%◌, ◌<◌, ◌≤◌, length, get_or, set};
ghost use Rattle.std.proofs.lemmas.List.Edits.{sets};
ghost use Rattle.lists.specs.Tabulate.{tabulate};
ghost use Rattle.field.specs.Width.{modulus};
ghost use Rattle.shares.specs.Share.{masked};
ghost use Rattle.tape.specs.Letters.{triple_left, triple_right};
ghost use Rattle.protocol.specs.Words.{Below, FromLine};
ghost use Rattle.protocol.specs.Products.{closed, alternating};

use field::Width;

// The dealt triples of a width. Their length stands in the clauses, not in the type as for Squares and Powers: open_products and
// close_products serve shorter words too, and the type would ask more of their callers.
#[derive(Clone, Copy)]
pub struct Triples<'a> {
    pub n: Width,
    pub words: &'a [u32],
    pub ghost below: { Below (modulus n.bits) words.now },
}

impl Triples<'_> {
    // The two words that open the product of v and u by triple i, put at a place of out.
    fn open_product(self, v: u32, u: u32, i: usize, out: &mut [u32], at: usize)
        requires operands { (v < modulus self.n.bits) × (u < modulus self.n.bits) }
        requires places { (i * 3 + 2 < length self.words.now) × (at + 1 < length out.old) }
        ensures { let n = self.entry.n.bits in let triples = self.entry.words.now in out.new
            ≡ set (set out.old at (masked n v (triple_left triples i))) (at + 1) (masked n u (triple_right triples i)) }
    {
        out[at] = shares::mask(self.n, v, self.words[i * 3]);
        out[at + 1] = shares::mask(self.n, u, self.words[i * 3 + 1]);
    }

    // The share of the product of v and u by triple i, the other box's two words standing at a place of incoming.
    #[tactic(auto, unfolding(protocol::specs::Products::closed))]
    fn close_product(self, side: u32, v: u32, u: u32, i: usize, incoming: &[u32], at: usize) -> u32
        requires operands { (v < modulus self.n.bits) × (u < modulus self.n.bits) }
        requires place { i * 3 + 2 < length self.words.now }
        requires from_line { FromLine self.n.bits (at + 2) incoming.now }
        ensures value { result ≡ closed self.entry.n.bits side v u self.entry.words.now i incoming.now at }
        ensures below { result < modulus self.entry.n.bits }
    {
        let a = self.words[i * 3];
        let b = self.words[i * 3 + 1];
        let e = shares::open(self.n, shares::mask(self.n, v, a), incoming[at]);
        let f = shares::open(self.n, shares::mask(self.n, u, b), incoming[at + 1]);
        shares::product(self.n, side, e, f, a, b, self.words[i * 3 + 2])
    }

    // Products side by side: factors lefts[i] and rights[i * stride], by the triples from first on.
    pub fn open_products(
        self,
        lefts: &[u32],
        rights: &[u32],
        stride: usize,
        first: usize,
        out: &mut [u32],
        at: usize,
    )
        requires factors { (0 < stride) × (length lefts.now * stride ≤ length rights.now) }
        requires places { ((first + length lefts.now) * 3 ≤ length self.words.now) × (at + length lefts.now * 2 ≤ length out.old) }
        ensures { let n = self.entry.n.bits in let triples = self.entry.words.now in out.new
            ≡ sets out.old at
            (tabulate (length lefts.now * 2)
            (alternating
            (λ i. masked n (get_or lefts.now i 0 % modulus n) (triple_left triples (first + i)))
            (λ i. masked n (get_or rights.now (i * stride) 0 % modulus n) (triple_right triples (first + i))))) }
    {
        for (i, &left) in lefts.iter().enumerate() {
            let v = self.n.reduce(left);
            let u = self.n.reduce(rights[i * stride]);
            self.open_product(v, u, first + i, &mut *out, at + i * 2);
        }
    }

    // The same products closed: each one's share takes the place of its left factor. The other box's words stand from a place of incoming on.
    pub fn close_products(
        self,
        side: u32,
        lefts: &mut [u32],
        rights: &[u32],
        stride: usize,
        first: usize,
        incoming: &[u32],
        from: usize,
    )
        requires factors { (0 < stride) × (length lefts.old * stride ≤ length rights.now) }
        requires places { (first + length lefts.old) * 3 ≤ length self.words.now }
        requires from_line { FromLine self.n.bits (from + length lefts.old * 2) incoming.now }
        ensures { let n = self.entry.n.bits in lefts.new
            ≡ sets lefts.old 0
            (tabulate (length lefts.old)
            (λ i.
            closed n side (get_or lefts.old i 0 % modulus n) (get_or rights.now (i * stride) 0 % modulus n)
            self.entry.words.now (first + i) incoming.now (from + i * 2))) }
    {
        for (i, left) in lefts.iter_mut().enumerate() {
            let v = self.n.reduce(*left);
            let u = self.n.reduce(rights[i * stride]);
            *left = self.close_product(side, v, u, first + i, incoming, from + i * 2);
        }
    }
}
