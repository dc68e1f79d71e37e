// Places in work and on the tape, by the names that the definitions give them.
// One function a name, alike as they are: one for all kinds would need an enum, a match in the code and a definition by its cases. Most are right for
// every number n and take any: a Width would ask more of callers.
ghost use Rattle.std.specs.Prelude.{◌≡◌, ◌-◌, ◌*◌, ◌<◌};
ghost use Rattle.tape.specs.Layout.{square_count, group_count, triple_count};
ghost use Rattle.protocol.specs.Work.{sum_slot, wrap_slot, half_slot};
ghost use Rattle.protocol.specs.Products.{low_triple, wrap_triple};

use field::Width;

pub fn sum_slot(n: u32, test: usize) -> usize
    requires { test < 3 }
    ensures { result ≡ sum_slot n test }
{
    3 * (n as usize) + test
}

pub fn wrap_slot(n: u32, test: usize) -> usize
    requires { test < 3 }
    ensures { result ≡ wrap_slot n test }
{
    3 * (n as usize) + 3 + test
}

pub fn half_slot(n: u32, test: usize) -> usize
    requires { test < 3 }
    ensures { result ≡ half_slot n test }
{
    3 * (n as usize) + 6 + test
}

pub fn low_triple(n: u32) -> usize
    ensures { result ≡ low_triple n }
{
    3 * (n as usize)
}

pub fn wrap_triple(n: u32) -> usize
    ensures { result ≡ wrap_triple n }
{
    3 * (n as usize) + 3
}

// Where the last group begins in its section: behind the triples.
pub fn last_group(n: u32) -> usize
    ensures { result ≡ triple_count n * 3 }
{
    (3 * (n as usize) + 6) * 3
}

// How many levels the three tests have together.
pub fn group_count(n: u32) -> usize
    ensures { result ≡ group_count n }
{
    3 * (n as usize)
}

// How many squares round 1 opens, which is where its products' words begin.
#[tactic(auto, using(tape::proofs::Sizes::small))]
pub fn square_count(n: Width) -> usize
    ensures { result ≡ square_count n.bits }
{
    let m = n.bits as usize;
    3 * (m * m)
}

// How far a place lies beyond a start: 0 for one before it.
pub fn beyond(place: usize, start: usize) -> usize
    ensures { result ≡ place - start }
{
    place.saturating_sub(start)
}
