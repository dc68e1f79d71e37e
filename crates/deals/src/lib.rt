// The test dealer of document 02's P1 and P7: both tapes of a tape number, from a seed.
#![tactic(auto)]

ghost use Rattle.std.specs.Prelude.{◌≡◌, length, IfOk};
ghost use Rattle.std.proofs.lemmas.List.Edits.{sets};
ghost use Rattle.refusals.specs.Checks.{ground_of};
ghost use Rattle.tape.specs.Layout.{tape_length};
ghost use Rattle.deals.specs.Deals.{dealt_body, dealt_tape, deal_ground, deal_rule, outcome};

use field::Width;
use kinds::Kind;
use refusals::Refusal;
use tape::Label;

mod groups;
mod kinds;

// The grounds of refusal: 14, 2, 12.
#[tactic(auto, unfolding(crate::specs::Deals::deal_ground))]
fn deal_check(seed: u32, n: u32, t1: &[u32], t2: &[u32]) -> Result<Width, Refusal>
    ensures ground { ground_of result ≡ deal_ground seed n t1.now t2.now }
    ensures width { IfOk result (λ width. width.bits ≡ n) }
{
    if seed == 0 {
        return Err(Refusal::Seed);
    }
    let n = Width::new(n).ok_or(Refusal::Width)?;
    let words = tape::tape_words(n);
    if t1.len() != words || t2.len() != words {
        return Err(Refusal::Room);
    }
    Ok(n)
}

// The bodies of both tapes: the groups of a kind after those of another, each kind from the draws after the last one's. Both boxes' tapes go side by
// side, here and below, as their words do in groups.
fn bodies(seed: u32, n: Width, t1: &mut [u32], t2: &mut [u32])
    requires { (length t1.old ≡ tape_length n.bits) × (length t2.old ≡ tape_length n.bits) }
    ensures box1 { t1.new ≡ sets t1.old 0 (dealt_body seed n.bits 1) }
    ensures box2 { t2.new ≡ sets t2.old 0 (dealt_body seed n.bits 2) }
{
    let mut last = seed;
    let mut at = 0;
    for kind in Kind::ALL {
        let end = at + kind.words(n);
        last = groups::all_of(n, kind, last, &mut t1[at..end], &mut t2[at..end]);
        at = end;
    }
}

// Both tapes, where nothing is to be refused.
pub fn write(seed: u32, n: Width, pair: u32, number: u32, t1: &mut [u32], t2: &mut [u32])
    requires { (length t1.old ≡ tape_length n.bits) × (length t2.old ≡ tape_length n.bits) }
    ensures box1 { t1.new ≡ dealt_tape seed n.bits pair 1 number }
    ensures box2 { t2.new ≡ dealt_tape seed n.bits pair 2 number }
{
    bodies(seed, n, &mut *t1, &mut *t2);
    let box1 = Label {
        pair,
        side: 1,
        number,
    };
    dealer::trailer(n, box1, t1);
    dealer::trailer(n, Label { side: 2, ..box1 }, t2);
}

// Writes both tapes, or refuses and changes nothing.
#[tactic(auto, using(refusals::proofs::Numbers::numbered), unfolding(crate::specs::Deals::deal_rule))]
pub fn deal(
    seed: u32,
    n: u32,
    pair: u32,
    number: u32,
    t1: &mut [u32],
    t2: &mut [u32],
) -> Result<(), Refusal>
    ensures { outcome result t1.new t2.new ≡ deal_rule seed n pair number t1.old t2.old }
{
    let n = deal_check(seed, n, &*t1, &*t2)?;
    write(seed, n, pair, number, t1, t2);
    Ok(())
}
