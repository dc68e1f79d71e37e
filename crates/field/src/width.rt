// A width, and the arithmetic modulo its p. A width is tested once, where it comes in as a number: from then on its type says that it is listed.
// Words are u32: they are lent in slices of u32, and a type for a word below p would copy them.
ghost use Rattle.std.specs.Prelude.{◌≡◌, true, ◌+◌, ◌-◌, ◌*◌, ◌/◌, ◌%◌, ◌^◌, ◌<◌, ◌≤◌, ltb, length, map, nat_lt, slice_index, IfSome};
ghost use Rattle.std.specs.Option.{is_some};
ghost use Rattle.lists.specs.Every.{every};
ghost use Rattle.field.specs.Width.{listed, modulus, widths};
ghost use Rattle.field.specs.Subtraction.{minus};

#[derive(Clone, Copy, Debug, PartialEq, Eq)]
pub struct Width {
    // n: a word of this width has so many bits
    pub bits: u32,
    ghost listed: { listed bits ≡ true },
}

impl Width {
    // The width of that number, if it is a listed one.
    #[tactic(auto, unfolding(crate::specs::Width::listed))]
    pub fn new(n: u32) -> Option<Width>
        ensures listed { is_some result ≡ listed n }
        ensures bits { IfSome result (λ width. width.bits ≡ n) }
    {
        match n {
            3 | 5 | 7 | 13 | 17 | 19 | 31 => Some(Width { bits: n }),
            _ => None,
        }
    }

    // All of them, from the narrowest on. A function and no constant: what a constant's invariants ask is proved where it is used, and here once.
    #[tactic(auto, unfolding(crate::specs::Width::listed))]
    pub fn all() -> [Width; 7]
        ensures { map (λ width. width.bits) result ≡ widths }
    {
        [
            Width { bits: 3 },
            Width { bits: 5 },
            Width { bits: 7 },
            Width { bits: 13 },
            Width { bits: 17 },
            Width { bits: 19 },
            Width { bits: 31 },
        ]
    }

    // p.
    pub fn modulus(self) -> u32
        ensures { result ≡ modulus self.bits }
    {
        (1u32 << self.bits) - 1
    }

    // Whether a word is below p.
    pub fn contains(self, word: u32) -> bool
        ensures { result ≡ nat_lt word (modulus self.bits) }
    {
        word < self.modulus()
    }

    // Whether all of the words are below p.
    pub fn contains_all(self, words: &[u32]) -> bool
        ensures { result ≡ every (length words.now) (λ i. ltb (slice_index words.now i) (modulus self.bits)) }
    {
        all_below(self.modulus(), words)
    }

    // One step of the reduction: 2^n is 1 modulo p, so the words above and below bit n are added.
    fn folded(self, x: u64) -> u64
        ensures { result ≡ x % 2 ^ self.bits + x / 2 ^ self.bits }
    {
        let p = self.modulus() as u64;
        (x & p) + (x >> self.bits)
    }

    // u - v modulo p, where it is from -p to p - 1: the sign brings p back by a product and not by a branch, so that the time does not tell it.
    fn difference(self, u: u32, v: u32) -> u32
        requires { (u < v + modulus self.bits) × (v ≤ u + modulus self.bits) }
        ensures value { result ≡ (u + modulus self.bits - v) % modulus self.bits }
        ensures below { result < modulus self.bits }
    {
        let d = u.wrapping_sub(v);
        d.wrapping_add((d >> 31) * self.modulus())
    }

    // A number below 2p, reduced.
    pub fn reduce_once(self, x: u64) -> u32
        requires { x < 2 * modulus self.bits }
        ensures value { result ≡ x % modulus self.bits }
        ensures below { result < modulus self.bits }
    {
        self.difference(x as u32, self.modulus())
    }

    // A sum of up to four products of words below p, folded once. Below 5p it is small enough where a few are summed before they are reduced.
    pub fn fold_once(self, x: u64) -> u64
        requires { x < 4 * (modulus self.bits * modulus self.bits) }
        ensures same_value { result % modulus self.bits ≡ x % modulus self.bits }
        ensures below { result < 5 * modulus self.bits }
    {
        self.folded(x)
    }

    // The same, folded twice: below 2p. The last subtraction can wait.
    pub fn fold_wide(self, x: u64) -> u64
        requires { x < 4 * (modulus self.bits * modulus self.bits) }
        ensures same_value { result % modulus self.bits ≡ x % modulus self.bits }
        ensures below { result < 2 * modulus self.bits }
    {
        self.folded(self.fold_once(x))
    }

    // The same, reduced without a division.
    pub fn reduce_wide(self, x: u64) -> u32
        requires { x < 4 * (modulus self.bits * modulus self.bits) }
        ensures value { result ≡ x % modulus self.bits }
        ensures below { result < modulus self.bits }
    {
        self.reduce_once(self.fold_wide(x))
    }

    pub fn add(self, a: u32, b: u32) -> u32
        requires { (a < modulus self.bits) × (b ≤ modulus self.bits) }
        ensures value { result ≡ (a + b) % modulus self.bits }
        ensures below { result < modulus self.bits }
    {
        self.reduce_once(a as u64 + b as u64)
    }

    pub fn sub(self, a: u32, b: u32) -> u32
        requires { (a < modulus self.bits) × (b ≤ modulus self.bits) }
        ensures value { result ≡ minus self.bits a b }
        ensures below { result < modulus self.bits }
    {
        self.difference(a, b)
    }

    pub fn mul(self, a: u32, b: u32) -> u32
        requires { (a < modulus self.bits) × (b < modulus self.bits) }
        ensures value { result ≡ (a * b) % modulus self.bits }
        ensures below { result < modulus self.bits }
    {
        self.reduce_wide(wide_mul(a, b))
    }

    // Any word, reduced. A word that is read back may be secret, and a division's time depends on its operands: here both are public, and the
    // quotient is found by a product, at most one too small.
    pub fn reduce(self, word: u32) -> u32
        ensures value { result ≡ word % modulus self.bits }
        ensures below { result < modulus self.bits }
    {
        let p = self.modulus() as u64;
        let turns = (word as u64 * (4294967296 / p)) >> 32;
        self.reduce_once(word as u64 - turns * p)
    }
}

// Whether all of the words are below a bound. Each is read whatever the others are, so that several can be read at a time.
pub fn all_below(bound: u32, words: &[u32]) -> bool
    ensures { result ≡ every (length words.now) (λ i. ltb (slice_index words.now i) bound) }
{
    let mut all = true;
    for &word in words {
        all &= word < bound;
    }
    all
}

// The whole product of two words.
pub fn wide_mul(a: u32, b: u32) -> u64
    ensures { result ≡ a * b }
{
    (a as u64) * (b as u64)
}
