// The inputs x1, x2, y1, y2 of a width, each from 0 to p - 1.
ghost use Rattle.std.specs.Prelude.{◌≡◌, true, ◌*◌, ◌<◌, ◌≤◌, length};
ghost use Rattle.field.specs.Width.{modulus};
ghost use Rattle.tape.specs.Layout.{tape_length};
ghost use Rattle.tape.specs.Dealt.{Dealt};
ghost use Rattle.exhaustive.specs.Inputs.{agrees_at, right_of, all_right};

use crate::tapes::{PAIR, Source};
use exchange::Shares;
use field::Width;

// Whether the boxes take the job and answer as an ordinary comparison does. Each box has one fresh tape.
#[tactic(auto, unfolding(crate::specs::Inputs::agrees_at))]
fn agrees(n: Width, box1: Shares, box2: Shares, t1: &[u32], t2: &[u32]) -> bool
    requires { (box1.x < modulus n.bits) × (box1.y < modulus n.bits) × (box2.x < modulus n.bits) × (box2.y < modulus n.bits) }
    ensures value { result ≡ agrees_at n.bits box1 box2 t1.now t2.now }
    ensures dealt { Dealt n.bits 7 0 t1.now t2.now → result ≡ true }
{
    exchange::memory::is_right(n, PAIR, box1, box2, t1, t2)
}

// All y1 and y2, with one pair of tapes.
#[tactic(auto, using(crate::proofs::Small::small), unfolding(crate::specs::Inputs::right_of))]
fn right_of(n: Width, x1: u32, x2: u32, t1: &[u32], t2: &[u32]) -> u64
    requires { (n.bits ≤ 5) × (x1 < modulus n.bits) × (x2 < modulus n.bits) }
    ensures value { result ≡ right_of n.bits x1 x2 t1.now t2.now }
    ensures dealt { Dealt n.bits 7 0 t1.now t2.now → result ≡ modulus n.bits * modulus n.bits }
{
    let p = n.modulus();
    let mut right = 0;
    for i in 0..p * p {
        let box1 = Shares { x: x1, y: i / p };
        let box2 = Shares { x: x2, y: i % p };
        right += u64::from(agrees(n, box1, box2, t1, t2));
    }
    right
}

// All inputs of a width, p^4 of them, on tapes of that source: all are right.
#[tactic(auto, using(crate::proofs::Small::small), unfolding(crate::specs::Inputs::all_right))]
fn right(n: Width, source: Source, t1: &mut [u32], t2: &mut [u32]) -> u64
    requires { (n.bits ≤ 5) × (length t1.old ≡ tape_length n.bits) × (length t2.old ≡ tape_length n.bits) }
    ensures value { result ≡ all_right source n.bits }
    ensures all { result ≡ modulus n.bits * modulus n.bits * (modulus n.bits * modulus n.bits) }
{
    let p = n.modulus();
    let mut right = 0;
    for i in 0..p * p {
        let x1 = i / p;
        let x2 = i % p;
        let seed = crate::tapes::seed_of(x1, x2);
        crate::tapes::pair(n, source, seed, &mut *t1, &mut *t2);
        right += right_of(n, x1, x2, &*t1, &*t2);
    }
    right
}

// The same, in memory that has room for the longest tape.
pub fn count(n: Width, source: Source) -> u64
    requires { n.bits ≤ 5 }
    ensures value { result ≡ all_right source n.bits }
    ensures all { result ≡ modulus n.bits * modulus n.bits * (modulus n.bits * modulus n.bits) }
{
    let mut t1 = exchange::memory::blank_tape();
    let mut t2 = exchange::memory::blank_tape();
    let t1 = exchange::memory::tape_room(n, &mut t1);
    let t2 = exchange::memory::tape_room(n, &mut t2);
    right(n, source, t1, t2)
}
