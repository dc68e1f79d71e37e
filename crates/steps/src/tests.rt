// The three half tests side by side: of x, of y and of x - y.
ghost use Rattle.std.specs.Prelude.{◌≡◌, ◌<◌};
ghost use Rattle.lists.specs.Tabulate.{tabulate};
ghost use Rattle.field.specs.Width.{modulus};
ghost use Rattle.protocol.specs.Tests.{doubled, low_bit, complement, exclusive};

use field::Width;

// One box's part of the tests: the doubled shares, their low bits, and the shares of the wraps once they are known.
#[derive(Clone, Copy)]
pub struct Tests {
    pub doubled: [u32; 3],
    pub low: [u32; 3],
    pub wraps: [u32; 3],
}

// At first no wrap is known, and their places hold 0.
pub fn tests_of(n: Width, x: u32, y: u32) -> Tests
    requires { (x < modulus n.bits) × (y < modulus n.bits) }
    ensures { (result.doubled ≡ tabulate 3 (doubled n.bits x y)) × (result.low ≡ tabulate 3 (low_bit n.bits x y)) × (result.wraps ≡ tabulate 3 (λ _. 0)) }
{
    let difference = n.sub(x, y);
    let a = n.add(x, x);
    let b = n.add(y, y);
    let c = n.add(difference, difference);
    Tests {
        doubled: [a, b, c],
        low: [a % 2, b % 2, c % 2],
        wraps: [0, 0, 0],
    }
}

// A share of 1 - v.
#[tactic(auto, using(field::proofs::Widths::bounds), unfolding(protocol::specs::Tests::complement))]
pub fn complement_of(n: Width, side: u32, v: u32) -> u32
    requires { v < modulus n.bits }
    ensures value { result ≡ complement n.bits side v }
    ensures below { result < modulus n.bits }
{
    n.sub(shares::constant(side, 1), v)
}

// A share of u + v - 2uv, from the shares of u + v and of uv.
#[tactic(auto, unfolding(protocol::specs::Tests::exclusive))]
pub fn exclusive_of(n: Width, total: u32, product: u32) -> u32
    requires { (total < modulus n.bits) × (product < modulus n.bits) }
    ensures value { result ≡ exclusive n.bits total product }
    ensures below { result < modulus n.bits }
{
    n.sub(total, n.add(product, product))
}
