// Bands of a width (document 02, P10): for every a each way to share it, with each pair of bounds.
ghost use Rattle.std.specs.Prelude.{◌≡◌, true, ◌+◌, ◌%◌, ◌*◌, ◌<◌, ◌≤◌, length};
ghost use Rattle.field.specs.Width.{modulus};
ghost use Rattle.protocol.specs.Sizes.{tape_for};
ghost use Rattle.exhaustive.specs.Bands.{inside, band_agrees, bands_right_of, pairs_of_bounds, all_bands_right, TwoDealt, case_at};

use crate::tapes::{NUMBER, PAIR};
use field::Width;

// The ordinary comparison of what the shares add up to with both bounds.
#[tactic(auto, using(field::proofs::Widths::bounds))]
fn inside(n: Width, low: u32, high: u32, a1: u32, a2: u32) -> u32
    requires { (a1 < modulus n.bits) × (a2 < modulus n.bits) }
    ensures { result ≡ inside low high ((a1 + a2) % modulus n.bits) }
{
    let a = (a1 + a2) % n.modulus();
    u32::from(low < a && a < high)
}

// Whether the boxes take the band and answer as the ordinary comparison does. Each box has two fresh tapes.
#[tactic(auto, unfolding(crate::specs::Bands::band_agrees))]
fn agrees(n: Width, low: u32, high: u32, a1: u32, a2: u32, t1: &[u32], t2: &[u32]) -> bool
    requires { (low < high) × (high < modulus n.bits) × (a1 < modulus n.bits) × (a2 < modulus n.bits) }
    ensures value { result ≡ band_agrees n.bits low high a1 a2 t1.now t2.now }
    ensures dealt { TwoDealt n.bits t1.now t2.now → result ≡ true }
{
    match exchange::memory::fresh_band(n.bits, PAIR, NUMBER, low, high, a1, a2, t1, t2) {
        Ok(less) => less == inside(n, low, high, a1, a2),
        Err(_) => false,
    }
}

// All bounds, with one lot of tapes.
#[tactic(auto, using(crate::proofs::Small::small), unfolding(crate::specs::Bands::bands_right_of))]
fn right_of(n: Width, a1: u32, a2: u32, t1: &[u32], t2: &[u32]) -> u64
    requires { (n.bits ≤ 5) × (a1 < modulus n.bits) × (a2 < modulus n.bits) }
    ensures value { result ≡ bands_right_of n.bits a1 a2 t1.now t2.now }
    ensures dealt { TwoDealt n.bits t1.now t2.now → result ≡ pairs_of_bounds (modulus n.bits) }
{
    let p = n.modulus();
    let mut right = 0;
    for i in 0..p * p {
        let low = i / p;
        let high = i % p;
        right += u64::from(low < high && agrees(n, low, high, a1, a2, t1, t2));
    }
    right
}

// All shares of a, p^2 of them, with all bounds: all are right.
#[tactic(auto, using(crate::proofs::Small::small), unfolding(crate::specs::Bands::all_bands_right))]
fn right(n: Width, t1: &mut [u32], t2: &mut [u32]) -> u64
    requires { (n.bits ≤ 5) × (length t1.old ≡ tape_for n.bits 2) × (length t2.old ≡ tape_for n.bits 2) }
    ensures value { result ≡ all_bands_right n.bits }
    ensures all { result ≡ modulus n.bits * modulus n.bits * pairs_of_bounds (modulus n.bits) }
{
    let p = n.modulus();
    let mut right = 0;
    for i in 0..p * p {
        let a1 = i / p;
        let a2 = i % p;
        crate::tapes::two_pairs(n, crate::tapes::seed_of(a1, a2), &mut *t1, &mut *t2);
        right += right_of(n, a1, a2, &*t1, &*t2);
    }
    right
}

// The same, in memory that has room for the longest tapes.
pub fn count(n: Width) -> u64
    requires { n.bits ≤ 5 }
    ensures value { result ≡ all_bands_right n.bits }
    ensures all { result ≡ modulus n.bits * modulus n.bits * pairs_of_bounds (modulus n.bits) }
{
    let mut t1 = exchange::rooms::blank_tapes();
    let mut t2 = exchange::rooms::blank_tapes();
    let t1 = exchange::rooms::tapes_room(n, 2, &mut t1);
    let t2 = exchange::rooms::tapes_room(n, 2, &mut t2);
    right(n, t1, t2)
}

// The request's cases: what the boxes answer at width 3 with the bounds 2 and 5. The shares of a are 6 and a + 1.
#[tactic(auto, unfolding(field::specs::Width::listed))]
pub fn case(a: u32) -> u32
    requires { a < 7 }
    ensures value { result ≡ (case_at a).less }
    ensures right { result ≡ inside 2 5 a }
{
    let n = Width { bits: 3 };
    let mut t1 = exchange::rooms::blank_tapes();
    let mut t2 = exchange::rooms::blank_tapes();
    let t1 = exchange::rooms::tapes_room(n, 2, &mut t1);
    let t2 = exchange::rooms::tapes_room(n, 2, &mut t2);
    crate::tapes::two_pairs(n, 1, &mut *t1, &mut *t2);
    exchange::memory::fresh_band(n.bits, PAIR, NUMBER, 2, 5, 6, (a + 1) % 7, &*t1, &*t2).unwrap()
}
