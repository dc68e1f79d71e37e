// Both boxes of a job in one memory, on the plain tapes.
ghost use Rattle.std.specs.Prelude.{◌≡◌, ◌≤◌, length};
ghost use Rattle.refusals.specs.Checks.{ground_of};
ghost use Rattle.tape.specs.Layout.{tape_length};
ghost use Rattle.exchange.specs.Memory.{less_of};
ghost use Rattle.plain.specs.Printed.{plain_refusal, plain_answer};

use exchange::memory::{blank_tape, fresh_job, tape_room};
use exchange::{Job, Shares};
use field::Width;
use refusals::Refusal;
use tape::Label;

// The only tapes of a pair.
const BOX1: Label = Label {
    pair: 1,
    side: 1,
    number: 0,
};

const BOX2: Label = Label { side: 2, ..BOX1 };

// On plain tapes, one fresh one for each box.
#[tactic(auto, using(crate::proofs::FirstRefusal::first_refusal, crate::proofs::FirstRefusal::right_answer))]
fn dealt(
    n: Width,
    box1: Shares,
    box2: Shares,
    t1: &mut [u32],
    t2: &mut [u32],
) -> Result<u32, Refusal>
    requires { (n.bits ≤ 13) × (length t1.old ≡ tape_length n.bits) × (length t2.old ≡ tape_length n.bits) }
    ensures { (ground_of result ≡ plain_refusal n.bits box1.x box2.x box1.y box2.y)
        × (less_of result ≡ plain_answer n.bits box1.x box2.x box1.y box2.y) }
{
    dealer::plain(n, BOX1, &mut *t1);
    dealer::plain(n, BOX2, &mut *t2);
    let job = Job {
        n: n.bits,
        pair: BOX1.pair,
        number: BOX1.number,
        box1,
        box2,
    };
    fresh_job(job, &*t1, &*t2)
}

// In memory that has room for the longest tape.
pub fn less(n: Width, box1: Shares, box2: Shares) -> Result<u32, Refusal>
    requires { n.bits ≤ 13 }
    ensures { (ground_of result ≡ plain_refusal n.bits box1.x box2.x box1.y box2.y)
        × (less_of result ≡ plain_answer n.bits box1.x box2.x box1.y box2.y) }
{
    let mut t1 = blank_tape();
    let mut t2 = blank_tape();
    dealt(n, box1, box2, tape_room(n, &mut t1), tape_room(n, &mut t2))
}
