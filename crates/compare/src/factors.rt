// What rounds 1, 4 and 5 open, from the tests' low bits and from the shares that work holds.
ghost use Rattle.std.specs.Prelude.{◌≡◌, ◌+◌, ◌<◌, ◌≤◌, length, get_or};
ghost use Rattle.lists.specs.Tabulate.{tabulate};
ghost use Rattle.field.specs.Width.{modulus};
ghost use Rattle.shares.specs.Share.{constant_share};
ghost use Rattle.protocol.specs.Tests.{doubled, low_bit};
ghost use Rattle.protocol.specs.Work.{sum_slot, wrap_slot, half_slot, work_length, held};

use field::Width;
use steps::tests::Tests;

// A side's factors of alpha * beta: the low bits at box 1 and 0 at box 2. For the right factors the side is the other one.
pub fn lows(side: u32, low: [u32; 3]) -> [u32; 3]
    ensures { result ≡ tabulate 3 (λ t. constant_share side (get_or low t 0)) }
{
    low.map(|bit| shares::constant(side, bit))
}

// A share that work holds.
#[tactic(auto, unfolding(protocol::specs::Work::held))]
fn held(n: Width, work: &[u32], slot: usize) -> u32
    requires { slot < length work.now }
    ensures value { result ≡ held n.bits work.now slot }
    ensures below { result < modulus n.bits }
{
    n.reduce(work[slot])
}

// Three such shares side by side, one for each test.
fn three_held(n: Width, work: &[u32], at: usize) -> [u32; 3]
    requires { at + 2 < length work.now }
    ensures { result ≡ tabulate 3 (λ t. held n.bits work.now (at + t)) }
{
    std::array::from_fn(|t| held(n, work, at + t))
}

// The shares of S.
pub fn sums(n: Width, work: &[u32]) -> [u32; 3]
    requires { work_length n.bits ≤ length work.now }
    ensures { result ≡ tabulate 3 (λ t. held n.bits work.now (sum_slot n.bits t)) }
{
    three_held(n, work, steps::places::sum_slot(n.bits, 0))
}

// The tests once their wraps are known: the shares that work holds of them.
pub fn known_tests(n: Width, x: u32, y: u32, work: &[u32]) -> Tests
    requires { (x < modulus n.bits) × (y < modulus n.bits) × (work_length n.bits ≤ length work.now) }
    ensures { (result.doubled ≡ tabulate 3 (doubled n.bits x y))
        × (result.low ≡ tabulate 3 (low_bit n.bits x y))
        × (result.wraps ≡ tabulate 3 (λ t. held n.bits work.now (wrap_slot n.bits t))) }
{
    let mut tests = steps::tests::tests_of(n, x, y);
    tests.wraps = three_held(n, work, steps::places::wrap_slot(n.bits, 0));
    tests
}

// The shares of the half tests (document 01's H, U, Z).
pub fn halves(n: Width, work: &[u32]) -> [u32; 3]
    requires { work_length n.bits ≤ length work.now }
    ensures { result ≡ tabulate 3 (λ t. held n.bits work.now (half_slot n.bits t)) }
{
    three_held(n, work, steps::places::half_slot(n.bits, 0))
}
