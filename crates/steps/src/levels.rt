// Round 3: the masked count of every level, and from it the share of each test's wrap.
ghost use Rattle.std.specs.Prelude.{◌≡◌, ℕ, ◌+◌, ◌*◌, ◌%◌, ◌<◌, ◌≤◌, length, get_or};
ghost use Rattle.std.proofs.lemmas.List.Edits.{sets};
ghost use Rattle.lists.specs.Tabulate.{tabulate};
ghost use Rattle.field.specs.Width.{modulus};
ghost use Rattle.tape.specs.Layout.{group_count};
ghost use Rattle.encoding.specs.Polynomial.{coefficient};
ghost use Rattle.protocol.specs.Words.{Below, FromLine};
ghost use Rattle.protocol.specs.Work.{held};
ghost use Rattle.protocol.specs.Levels.{level_match, wrap_share};

use field::Width;

// The shares of d, as they are sent.
// By places: a zip of out's iter_mut and work was tried, and its proof did not close: the invariant has no name for what such a loop has written.
pub fn send_levels(n: Width, work: &[u32], out: &mut [u32])
    requires { (group_count n.bits ≤ length work.now) × (group_count n.bits ≤ length out.old) }
    ensures { out.new ≡ sets out.old 0 (tabulate (group_count n.bits) (held n.bits work.now)) }
{
    for g in 0..crate::places::group_count(n.bits) {
        out[g] = n.reduce(work[g]);
    }
}

// One step of Horner's rule: total * d + g * power, brought below 2p.
fn horner(n: Width, total: u64, d: u32, g: u32, power: u32) -> u64
    requires { (total < 2 * modulus n.bits) × (d < modulus n.bits) × (g < modulus n.bits) × (power < modulus n.bits) }
    ensures same_value { result % modulus n.bits ≡ (total * d + g * power) % modulus n.bits }
    ensures below { result < 2 * modulus n.bits }
{
    n.fold_wide(total * d as u64 + field::wide_mul(g, power))
}

// The dealt powers of a width, a group for each test and level.
#[derive(Clone, Copy)]
pub struct Powers<'a> {
    pub n: Width,
    pub words: &'a [u32],
    pub ghost below: { Below (modulus n.bits) words.now },
    pub ghost long: { group_count n.bits * (n.bits + 1) ≤ length words.now },
}

impl Powers<'_> {
    // The share of P(A) of group g, from the opened d = A * w, by Horner's rule in d. `row` has the coefficients of the width.
    fn level_match(self, side: u32, d: u32, row: &[u32], g: usize) -> u32
        requires operands { (d < modulus self.n.bits) × (g < group_count self.n.bits) }
        requires coefficients { (length row.now ≡ 32) × ((k : ℕ) → k ≤ self.n.bits → get_or row.now k 0 ≡ coefficient self.n.bits k) }
        ensures value { result ≡ level_match self.entry.n.bits side d self.entry.words.now g }
        ensures below { result < modulus self.entry.n.bits }
    {
        let m = self.n.bits as usize;
        let base = g * (m + 1);
        let mut total: u64 = 0;
        for k in (0..m).rev() {
            total = horner(self.n, total, d, row[k + 1], self.words[base + k + 1]);
        }
        let constant = shares::constant(side, row[0]);
        self.n.reduce_once(horner(self.n, total, d, constant, 1))
    }

    // The share of one test's wrap: the sum over its levels.
    fn wrap_of(self, side: u32, row: &[u32], work: &[u32], incoming: &[u32], test: usize) -> u32
        requires operands { (test < 3) × (group_count self.n.bits ≤ length work.now) }
        requires coefficients { (length row.now ≡ 32) × ((k : ℕ) → k ≤ self.n.bits → get_or row.now k 0 ≡ coefficient self.n.bits k) }
        requires from_line { FromLine self.n.bits (group_count self.n.bits) incoming.now }
        ensures value { result ≡ wrap_share self.entry.n.bits side self.entry.words.now work.now incoming.now test }
        ensures below { result < modulus self.entry.n.bits }
    {
        let m = self.n.bits as usize;
        let mut total: u32 = 0;
        for i in 0..m {
            let g = test * m + i;
            let d = shares::open(self.n, self.n.reduce(work[g]), incoming[g]);
            total = self.n.add(total, self.level_match(side, d, row, g));
        }
        total
    }

    // The shares of the three wraps. The row of coefficients is fetched once for them all.
    pub fn wraps(self, side: u32, work: &[u32], incoming: &[u32]) -> [u32; 3]
        requires kept { group_count self.n.bits ≤ length work.now }
        requires from_line { FromLine self.n.bits (group_count self.n.bits) incoming.now }
        ensures { result ≡ tabulate 3 (wrap_share self.entry.n.bits side self.entry.words.now work.now incoming.now) }
    {
        let row = encoding::table::coefficients_of(self.n);
        std::array::from_fn(|test| self.wrap_of(side, &row, work, incoming, test))
    }
}
