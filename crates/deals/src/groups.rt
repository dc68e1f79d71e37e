// The groups of a body, by their kind: box 1's words and some of box 2's are drawn, and the others are what the equations leave.
// Both boxes' words go side by side as two slices: in a struct of both each step would lend each of them anew, and every clause is of one box.
ghost use Rattle.std.specs.Prelude.{◌≡◌, ℕ, ◌+◌, ◌-◌, ◌*◌, ◌^◌, ◌<◌, ◌≤◌, length, get_or};
ghost use Rattle.std.proofs.lemmas.List.Edits.{sets};
ghost use Rattle.lists.specs.Tabulate.{tabulate};
ghost use Rattle.field.specs.Width.{modulus};
ghost use Rattle.field.specs.Subtraction.{minus};
ghost use Rattle.draws.specs.Draws.{draw};
ghost use Rattle.deals.specs.Groups.{groups_of, group_length, group_draws, group_word};
ghost use Rattle.deals.specs.Steps.{product_left, drawn_words, product_words, power_at, threefold_left, threefold_words};
ghost use Rattle.deals.specs.Deals.{kind_length, kind_word};
ghost use Rattle.deals.specs.Kinds.{number_of};

use crate::kinds::Kind;
use field::Width;

// Box 2's last word of a square (a, q) or a triple (a, b, c): what is left of the product of both boxes' first words and their last but one.
fn product_left(n: Width, w1: &[u32], w2: &[u32]) -> u32
    requires operands { (2 ≤ length w1.now) × (length w2.now ≡ length w1.now) }
    requires below { ((j : ℕ) → j < length w1.now → get_or w1.now j 0 < modulus n.bits)
        × ((j : ℕ) → j < length w1.now - 1 → get_or w2.now j 0 < modulus n.bits) }
    ensures { result ≡ product_left n.bits w1.now w2.now }
{
    let last = w1.len() - 1;
    let a = n.add(w1[0], w2[0]);
    let b = n.add(w1[last - 1], w2[last - 1]);
    n.sub(n.mul(a, b), w1[last])
}

// A square or a triple: box 1's words are drawn, then box 2's but for its last.
fn product(n: Width, v: u32, w1: &mut [u32], w2: &mut [u32]) -> u32
    requires { (2 ≤ length w1.old) × (length w2.old ≡ length w1.old) }
    ensures value { result ≡ draw v (length w1.old + (length w1.old - 1)) }
    ensures box1 { w1.new ≡ drawn_words n.bits v (length w1.old) }
    ensures box2 { w2.new ≡ product_words n.bits v (length w1.old) }
{
    let last = w1.len() - 1;
    let own = draws::fill(n, v, &mut *w1);
    let after = draws::fill(n, own, &mut w2[..last]);
    w2[last] = product_left(n, &*w1, &*w2);
    after
}

// Box 2's words of a power group, given box 1's: what is left of w, r, r^2, .., r^n.
// w1 by places: a zip of w2's iter_mut and w1 was tried, and its proof did not close: the invariant has no name for what such a loop has written.
fn left_powers(n: Width, w: u32, r: u32, w1: &[u32], w2: &mut [u32])
    requires operands { (w < modulus n.bits) × (r < modulus n.bits) × (length w2.old ≡ length w1.now) }
    requires below { (j : ℕ) → j < length w1.now → get_or w1.now j 0 < modulus n.bits }
    ensures { w2.new ≡ tabulate (length w1.now) (λ j. minus n.bits (power_at n.bits w r j) (get_or w1.now j 0)) }
{
    let mut total = w;
    let mut power: u32 = 1;
    for (j, left) in w2.iter_mut().enumerate() {
        *left = n.sub(total, w1[j]);
        power = n.mul(power, r);
        total = power;
    }
}

// 2^k, for k below n.
fn power_of_two(n: Width, k: u32) -> u32
    requires { k < n.bits }
    ensures value { result ≡ 2 ^ k }
    ensures below { result < modulus n.bits }
{
    1u32 << k
}

// A power group: the first draw gives k, and so r = 2^k and w = 2^((n - k) mod n). Then box 1's words are drawn.
fn powers(n: Width, v: u32, w1: &mut [u32], w2: &mut [u32]) -> u32
    requires { (length w1.old ≡ n.bits + 1) × (length w2.old ≡ n.bits + 1) }
    ensures value { result ≡ draw v (n.bits + 2) }
    ensures box1 { w1.new ≡ tabulate (n.bits + 1) (group_word n.bits 1 1 v) }
    ensures box2 { w2.new ≡ tabulate (n.bits + 1) (group_word n.bits 2 1 v) }
{
    let first = draws::next(v);
    let k = first % n.bits;
    let w = power_of_two(n, (n.bits - k) % n.bits);
    let r = power_of_two(n, k);
    let last = draws::fill(n, first, &mut *w1);
    left_powers(n, w, r, &*w1, w2);
    last
}

// Box 2's ab, ac, bc and abc of the last group, given box 1's words and box 2's a, b and c: what is left of the products of the summed masks.
fn threefold_left(n: Width, w1: &[u32], w2: &mut [u32])
    requires operands { (length w1.now ≡ 7) × (length w2.old ≡ 7) }
    requires below { ((j : ℕ) → j < 7 → get_or w1.now j 0 < modulus n.bits) × ((j : ℕ) → j < 3 → get_or w2.old j 0 < modulus n.bits) }
    ensures { w2.new ≡ sets w2.old 3 (threefold_left n.bits w1.now w2.old) }
{
    let a = n.add(w1[0], w2[0]);
    let b = n.add(w1[1], w2[1]);
    let c = n.add(w1[2], w2[2]);
    let ab = n.mul(a, b);
    w2[3] = n.sub(ab, w1[3]);
    w2[4] = n.sub(n.mul(a, c), w1[4]);
    w2[5] = n.sub(n.mul(b, c), w1[5]);
    w2[6] = n.sub(n.mul(ab, c), w1[6]);
}

// The last group, (a, b, c, ab, ac, bc, abc): box 1's words are drawn, then box 2's a, b and c.
fn threefold(n: Width, v: u32, w1: &mut [u32], w2: &mut [u32]) -> u32
    requires { (length w1.old ≡ 7) × (length w2.old ≡ 7) }
    ensures value { result ≡ draw v 10 }
    ensures box1 { w1.new ≡ drawn_words n.bits v 7 }
    ensures box2 { w2.new ≡ threefold_words n.bits v }
{
    let own = draws::fill(n, v, &mut *w1);
    let after = draws::fill(n, own, &mut w2[..3]);
    threefold_left(n, &*w1, w2);
    after
}

// One group. Answers its last draw.
fn group(n: Width, kind: Kind, v: u32, w1: &mut [u32], w2: &mut [u32]) -> u32
    requires { (length w1.old ≡ group_length n.bits (number_of kind)) × (length w2.old ≡ group_length n.bits (number_of kind)) }
    ensures value { result ≡ draw v (group_draws n.bits (number_of kind)) }
    ensures box1 { w1.new ≡ tabulate (group_length n.bits (number_of kind)) (group_word n.bits 1 (number_of kind) v) }
    ensures box2 { w2.new ≡ tabulate (group_length n.bits (number_of kind)) (group_word n.bits 2 (number_of kind) v) }
{
    match kind {
        Kind::Power => powers(n, v, w1, w2),
        Kind::Last => threefold(n, v, w1, w2),
        Kind::Square | Kind::Triple => product(n, v, w1, w2),
    }
}

// All groups of a kind. Answers their last draw. By places: what stands in the parts that chunks_exact_mut lends is not known when their loan ends.
pub fn all_of(n: Width, kind: Kind, v: u32, w1: &mut [u32], w2: &mut [u32]) -> u32
    requires { (length w1.old ≡ kind_length n.bits (number_of kind)) × (length w2.old ≡ kind_length n.bits (number_of kind)) }
    ensures value { result ≡ draw v (groups_of n.bits (number_of kind) * group_draws n.bits (number_of kind)) }
    ensures box1 { w1.new ≡ tabulate (kind_length n.bits (number_of kind)) (kind_word n.bits 1 (number_of kind) v) }
    ensures box2 { w2.new ≡ tabulate (kind_length n.bits (number_of kind)) (kind_word n.bits 2 (number_of kind) v) }
{
    let words = kind.group_words(n);
    let mut last = v;
    for g in 0..kind.group_count(n) {
        let at = g * words;
        let end = at + words;
        last = group(n, kind, last, &mut w1[at..end], &mut w2[at..end]);
    }
    last
}
