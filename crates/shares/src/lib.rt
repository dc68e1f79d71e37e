// Additive secret shares of two boxes: opening, and the shares of squares and products by dealt squares, Beaver triples and three masks.
#![tactic(auto)]

ghost use Rattle.std.specs.Prelude.{◌≡◌, ◌+◌, ◌*◌, ◌%◌, ◌<◌, ◌≤◌, length, get_or};
ghost use Rattle.lists.specs.Every.{every};
ghost use Rattle.field.specs.Width.{modulus};
ghost use Rattle.shares.specs.Side.{is_side};
ghost use Rattle.shares.specs.Reading.{legible};
ghost use Rattle.shares.specs.Share.{constant_share, masked, opened, square_share, product_share, threefold_share};

use field::Width;

// Whether the number is a box's side. A side is a number and no enum: a state may have any, and a refusal says so.
pub fn is_side(side: u32) -> bool
    ensures { result ≡ is_side side }
{
    side == 1 || side == 2
}

// A box's share of a public constant.
pub fn constant(side: u32, c: u32) -> u32
    ensures value { result ≡ constant_share side c }
    ensures most { result ≤ c }
{
    if side == 1 { c } else { 0 }
}

// The word that opens a share v under the mask's word a.
pub fn mask(n: Width, v: u32, a: u32) -> u32
    requires { (v < modulus n.bits) × (a < modulus n.bits) }
    ensures value { result ≡ masked n.bits v a }
    ensures below { result < modulus n.bits }
{
    n.sub(v, a)
}

// Whether all of the words can be read from the line: none is above p.
pub fn all_legible(n: Width, words: &[u32]) -> bool
    ensures { result ≡ every (length words.now) (λ i. legible n.bits (get_or words.now i 0)) }
{
    field::all_below(n.modulus() + 1, words)
}

// The opened value. Every word from the line is read here: p counts as 0 without a branch, since the sum is reduced.
pub fn open(n: Width, sent: u32, heard: u32) -> u32
    requires { (sent < modulus n.bits) × (heard ≤ modulus n.bits) }
    ensures value { result ≡ opened n.bits sent heard }
    ensures below { result < modulus n.bits }
{
    n.add(sent, heard)
}

// The share of a square, not reduced yet: the squares of a level are summed first.
pub fn square(n: Width, side: u32, e: u32, a: u32, q: u32) -> u64
    requires { (e < modulus n.bits) × (a < modulus n.bits) × (q < modulus n.bits) }
    ensures same_value { result % modulus n.bits ≡ square_share n.bits side e a q }
    ensures below { result < 4 * (modulus n.bits * modulus n.bits) }
{
    let own = (q as u64) + 2 * field::wide_mul(e, a);
    own + field::wide_mul(e, constant(side, e))
}

// A word and three products, with one reduction for the whole sum.
fn summed(n: Width, c: u32, e: u32, b: u32, f: u32, a: u32, g: u32, d: u32) -> u32
    requires operands { (c < modulus n.bits) × (e < modulus n.bits) × (b < modulus n.bits) }
    requires f_bound { (f < modulus n.bits) × (a < modulus n.bits) × (g < modulus n.bits) × (d < modulus n.bits) }
    ensures value { result ≡ (c + e * b + f * a + g * d) % modulus n.bits }
    ensures below { result < modulus n.bits }
{
    let own = (c as u64) + field::wide_mul(e, b) + field::wide_mul(f, a);
    n.reduce_wide(own + field::wide_mul(g, d))
}

// The share of a product.
pub fn product(n: Width, side: u32, e: u32, f: u32, a: u32, b: u32, c: u32) -> u32
    requires { (e < modulus n.bits) × (f < modulus n.bits) × (a < modulus n.bits) × (b < modulus n.bits) × (c < modulus n.bits) }
    ensures value { result ≡ product_share n.bits side e f a b c }
    ensures below { result < modulus n.bits }
{
    summed(n, c, e, b, f, a, e, constant(side, f))
}

// One box's words of three masks and of their products, as the tape's last group deals them.
#[derive(Clone, Copy)]
pub struct Masks {
    pub a: u32,
    pub b: u32,
    pub c: u32,
    pub ab: u32,
    pub ac: u32,
    pub bc: u32,
    pub abc: u32,
}

// The share of a product of three: e, f and g are opened. Each term has one dealt factor but for efg, which box 1 adds.
pub fn threefold(n: Width, side: u32, e: u32, f: u32, g: u32, m: Masks) -> u32
    requires operands { (e < modulus n.bits) × (f < modulus n.bits) × (g < modulus n.bits) }
    requires a_bound { (m.a < modulus n.bits) × (m.b < modulus n.bits) × (m.c < modulus n.bits) × (m.ab < modulus n.bits) × (m.ac < modulus n.bits) × (m.bc < modulus n.bits) × (m.abc < modulus n.bits) }
    ensures value { result ≡ threefold_share n.bits side e f g m.a m.b m.c m.ab m.ac m.bc m.abc }
    ensures below { result < modulus n.bits }
{
    let ef = n.mul(e, f);
    let eg = n.mul(e, g);
    let fg = n.mul(f, g);
    let efg = constant(side, n.mul(ef, g));
    let by_pairs = summed(n, m.abc, e, m.bc, f, m.ac, g, m.ab);
    let by_masks = summed(n, efg, ef, m.c, eg, m.b, fg, m.a);
    n.add(by_pairs, by_masks)
}
