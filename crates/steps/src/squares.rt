// Round 1's squares: the bit differences of every test, level and bit.
ghost use Rattle.std.specs.Prelude.{◌≡◌, ◌+◌, ◌*◌, ◌/◌, ◌%◌, ◌<◌, ◌≤◌, length, get_or};
ghost use Rattle.std.proofs.lemmas.List.Edits.{sets};
ghost use Rattle.lists.specs.Tabulate.{tabulate, sum};
ghost use Rattle.lists.specs.Span.{span, later};
ghost use Rattle.field.specs.Width.{modulus};
ghost use Rattle.shares.specs.Share.{constant_share, masked, opened, square_share};
ghost use Rattle.tape.specs.Layout.{square_count, group_count};
ghost use Rattle.tape.specs.Letters.{square_mask, square_value};
ghost use Rattle.encoding.specs.Codes.{level_code};
ghost use Rattle.protocol.specs.Words.{Below, FromLine};
ghost use Rattle.protocol.specs.Squares.{code_difference, bit_difference, square_opening, square_closing, match_count};

use crate::tests::Tests;
use field::Width;

// The word that opens bit k of a code under a square's mask: 1 - bit - mask at box 1, - bit - mask at box 2, in one subtraction.
fn opening(n: Width, side: u32, code: u32, k: u32, mask: u32) -> u32
    requires { (k < n.bits) × (mask < modulus n.bits) }
    ensures value { result ≡ masked n.bits (code_difference n.bits side code k) mask }
    ensures below { result < modulus n.bits }
{
    let taken = encoding::codes::bit(code, k) + mask;
    n.sub(shares::constant(side, 1), taken)
}

// Opens the bits of a code from bit `low` up, from the last one down. The squares and out are lent from the code's first one on: tried with the
// place of the code's group added to each index, this takes a fifth longer at width 31.
fn open_bits(n: Width, side: u32, code: u32, squares: &[u32], low: usize, out: &mut [u32])
    requires operands { low ≤ n.bits }
    requires below { Below (modulus n.bits) squares.now × (n.bits * 2 ≤ length squares.now) × (n.bits ≤ length out.old) }
    ensures { out.new
        ≡ sets out.old low (span low n.bits (λ k. square_opening n.bits (code_difference n.bits side code k) squares.now k)) }
{
    for k in (low..n.bits as usize).rev() {
        out[k] = opening(n, side, code, k as u32, squares[k * 2]);
    }
}

// The dealt squares of a width, one for each test, level and bit.
#[derive(Clone, Copy)]
pub struct Squares<'a> {
    pub n: Width,
    pub words: &'a [u32],
    pub ghost below: { Below (modulus n.bits) words.now },
    pub ghost long: { square_count n.bits * 2 ≤ length words.now },
}

impl Squares<'_> {
    // The words of group g from place `from` on. The code of its level is worked out once.
    fn open_group(
        self,
        side: u32,
        doubled: u32,
        g: usize,
        level: usize,
        from: usize,
        out: &mut [u32],
    )
        requires operands { (doubled < modulus self.n.bits) × (g < group_count self.n.bits) × (level ≡ g % self.n.bits) × (from ≤ (g + 1) * self.n.bits) }
        requires room { square_count self.n.bits ≤ length out.old }
        ensures { let n = self.entry.n.bits in out.new
            ≡ sets out.old (later (g * n) from)
            (span (later (g * n) from) ((g + 1) * n)
            (λ j. square_opening n (bit_difference n side (λ t. doubled) j) self.entry.words.now j)) }
    {
        let m = self.n.bits as usize;
        let at = g * m;
        let code = encoding::codes::level_code(self.n, side, doubled, level as u32);
        let low = crate::places::beyond(from, at);
        open_bits(
            self.n,
            side,
            code,
            &self.words[at * 2..],
            low,
            &mut out[at..],
        );
    }

    // The words of a test from place `from` on, from the last level down.
    fn open_test(self, side: u32, doubled: u32, test: usize, from: usize, out: &mut [u32])
        requires operands { (doubled < modulus self.n.bits) × (test < 3) }
        requires room { square_count self.n.bits ≤ length out.old }
        ensures { let n = self.entry.n.bits in out.new
            ≡ sets out.old (later (test * (n * n)) from)
            (span (later (test * (n * n)) from) ((test + 1) * (n * n))
            (λ j. square_opening n (bit_difference n side (λ t. doubled) j) self.entry.words.now j)) }
    {
        let m = self.n.bits as usize;
        let first = test * m;
        for level in (0..m).rev() {
            let g = first + level;
            if (g + 1) * m <= from {
                break;
            }
            self.open_group(side, doubled, g, level, from, &mut *out);
        }
    }

    // The words of all squares from place `from` on, from the last test down.
    pub fn open(self, side: u32, tests: Tests, from: usize, out: &mut [u32])
        requires below { Below (modulus self.n.bits) tests.doubled }
        requires room { square_count self.n.bits ≤ length out.old }
        ensures { let n = self.entry.n.bits in out.new
            ≡ sets out.old from
            (span from (square_count n)
            (λ j. square_opening n (bit_difference n side (λ t. get_or tests.doubled t 0) j) self.entry.words.now j)) }
    {
        for test in (0..3).rev() {
            self.open_test(side, tests.doubled[test], test, from, &mut *out);
        }
    }

    // The share of a square by square j, below 5p, from the word that this box sent and the other box's at j of incoming.
    fn close_square(self, side: u32, sent: u32, incoming: &[u32], j: usize) -> u64
        requires operands { (sent < modulus self.n.bits) × (j < square_count self.n.bits) }
        requires from_line { FromLine self.n.bits (j + 1) incoming.now }
        ensures same_value { let n = self.entry.n.bits in result % modulus n
            ≡ square_share n side (opened n sent (get_or incoming.now j 0)) (square_mask self.entry.words.now j) (square_value self.entry.words.now j) }
        ensures below { result < 5 * modulus self.entry.n.bits }
    {
        let e = shares::open(self.n, sent, incoming[j]);
        let share = shares::square(self.n, side, e, self.words[j * 2], self.words[j * 2 + 1]);
        self.n.fold_once(share)
    }

    // The share of 1 + the n squares of group g, whose code is given: summed, and reduced once.
    fn close_group(self, side: u32, code: u32, g: usize, incoming: &[u32]) -> u32
        requires operands { g < group_count self.n.bits }
        requires from_line { FromLine self.n.bits (square_count self.n.bits) incoming.now }
        ensures value { let n = self.entry.n.bits in result
            ≡ (constant_share side 1
            + sum n (λ k. square_closing n side (code_difference n side code k) self.entry.words.now incoming.now (g * n + k)))
            % modulus n }
        ensures below { result < modulus self.entry.n.bits }
    {
        let base = g * (self.n.bits as usize);
        let mut total = shares::constant(side, 1) as u64;
        for k in 0..self.n.bits {
            let j = base + k as usize;
            let sent = opening(self.n, side, code, k, self.words[j * 2]);
            total += self.close_square(side, sent, incoming, j);
        }
        self.n.reduce_wide(total)
    }

    // The counts of all groups, at the front of work.
    pub fn close(self, side: u32, tests: Tests, incoming: &[u32], work: &mut [u32])
        requires operands { Below (modulus self.n.bits) tests.doubled × (group_count self.n.bits ≤ length work.old) }
        requires from_line { FromLine self.n.bits (square_count self.n.bits) incoming.now }
        ensures { let n = self.entry.n.bits in work.new
            ≡ sets work.old 0
            (tabulate (group_count n)
            (match_count n side (λ t. get_or tests.doubled t 0) self.entry.words.now incoming.now)) }
    {
        for g in 0..crate::places::group_count(self.n.bits) {
            let code = code_of(self.n, side, tests, g);
            work[g] = self.close_group(side, code, g, incoming);
        }
    }
}

// The test of group g. Groups stand in the order test, level. Two comparisons: tried with a division, a whole job
// takes 1 to 3 hundredths longer at widths 3 and 7, and as long at width 31.
fn test_of(n: Width, g: usize) -> usize
    requires { g < group_count n.bits }
    ensures { result ≡ g / n.bits }
{
    let m = n.bits as usize;
    if g < m {
        return 0;
    }
    if g < 2 * m {
        return 1;
    }
    2
}

// The code of group g: level g % n of test g / n.
fn code_of(n: Width, side: u32, tests: Tests, g: usize) -> u32
    requires { Below (modulus n.bits) tests.doubled × (g < group_count n.bits) }
    ensures { result ≡ level_code n.bits side (get_or tests.doubled (g / n.bits) 0) (g % n.bits) }
{
    let t = test_of(n, g);
    let level = g - t * (n.bits as usize);
    encoding::codes::level_code(n, side, tests.doubled[t], level as u32)
}
