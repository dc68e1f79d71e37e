// The same work done often. What came of each turn is looked at and counted, so that no turn can be left out and a wrong one shows.
ghost use Rattle.std.specs.Prelude.{◌≡◌, true, ◌*◌, length};
ghost use Rattle.lists.specs.Tabulate.{sum};
ghost use Rattle.tape.specs.Layout.{tape_length};
ghost use Rattle.tape.specs.Dealt.{Dealt};
ghost use Rattle.encoding.specs.Matching.{indicator};
ghost use Rattle.bench.specs.Work.{is_right, right_at, both_in_order};

use exchange::Shares;
use field::Width;
use tape::Label;

// What the tapes are dealt from.
const SEED: u32 = 2463534242;

const PAIR: u32 = 1;

const NUMBER: u32 = 0;

const BOX1: Label = Label {
    pair: PAIR,
    side: 1,
    number: NUMBER,
};

const BOX2: Label = Label { side: 2, ..BOX1 };

// What is done often: whole jobs, or checks of a job's tapes.
#[derive(Clone, Copy, Debug, PartialEq, Eq)]
pub enum Work {
    Jobs,
    Checks,
}

// One whole job of both boxes: whether it was not refused, and answered as the comparison does. The shares change from turn to turn, and stay
// below 7, so that they are in range at every width.
#[tactic(auto, using(field::proofs::Widths::bounds), unfolding(crate::specs::Work::is_right))]
fn right(n: Width, turn: u32, t1: &[u32], t2: &[u32]) -> bool
    ensures value { result ≡ is_right n.bits t1.now t2.now turn }
    ensures dealt { Dealt n.bits 1 0 t1.now t2.now → result ≡ true }
{
    let box1 = Shares {
        x: turn % 7,
        y: turn / 49 % 7,
    };
    let box2 = Shares {
        x: turn / 7 % 7,
        y: turn / 343 % 7,
    };
    exchange::memory::is_right(n, PAIR, box1, box2, t1, t2)
}

// Whole jobs: how many were right.
pub fn jobs(n: Width, count: u32, t1: &[u32], t2: &[u32]) -> u32
    ensures value { result ≡ sum count (right_at n.bits t1.now t2.now) }
    ensures dealt { Dealt n.bits 1 0 t1.now t2.now → result ≡ count }
{
    (0..count).filter(|&i| right(n, i, t1, t2)).count() as u32
}

// One check of both tapes. Which box's tape comes first changes from turn to turn, so that no turn can be taken for another.
fn check(n: u32, turn: u32, t1: &[u32], t2: &[u32]) -> bool
    ensures { result ≡ both_in_order n t1.now t2.now }
{
    if turn % 2 == 0 {
        tape::in_order(t1, n, BOX1) && tape::in_order(t2, n, BOX2)
    } else {
        tape::in_order(t2, n, BOX2) && tape::in_order(t1, n, BOX1)
    }
}

// Checks: how many found both tapes in order. As jobs is, but for the test and what it says of the count: one for both would take both clauses.
pub fn checks(n: u32, count: u32, t1: &[u32], t2: &[u32]) -> u32
    ensures value { result ≡ count * indicator (both_in_order n t1.now t2.now) }
    ensures dealt { Dealt n 1 0 t1.now t2.now → result ≡ count }
{
    (0..count).filter(|&i| check(n, i, t1, t2)).count() as u32
}

// On dealt tapes, as boxes get them: on plain ones, mostly zeros, a branch on a word would always go the same way.
fn on_dealt(work: Work, n: Width, count: u32, t1: &mut [u32], t2: &mut [u32]) -> u32
    requires { (length t1.old ≡ tape_length n.bits) × (length t2.old ≡ tape_length n.bits) }
    ensures { result ≡ count }
{
    deals::write(SEED, n, PAIR, NUMBER, &mut *t1, &mut *t2);
    match work {
        Work::Jobs => jobs(n, count, &*t1, &*t2),
        Work::Checks => checks(n.bits, count, &*t1, &*t2),
    }
}

// So many turns of the work, and how many of them came out right. In memory that has room for the longest tape.
pub fn often(work: Work, n: Width, count: u32) -> u32
    ensures { result ≡ count }
{
    let mut t1 = exchange::memory::blank_tape();
    let mut t2 = exchange::memory::blank_tape();
    let t1 = exchange::memory::tape_room(n, &mut t1);
    let t2 = exchange::memory::tape_room(n, &mut t2);
    on_dealt(work, n, count, t1, t2)
}
