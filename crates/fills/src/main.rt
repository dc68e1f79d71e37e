// Fills the last words of round 1's message into out (document 02, P5), as many as a count says, and says which counts leave every place of out as
// it must be: at width 3 every count, at width 31 those around the ends of the alpha * beta words, of the last level and of the whole. At width 3
// the message is said too.
#![tactic(auto)]

ghost use Rattle.std.specs.Prelude.{◌≡◌, true, ◌+◌, ◌-◌, ◌<◌, ◌≤◌, ◌∷◌, [], length, map, IfOk, All};
ghost use Rattle.lists.specs.Tabulate.{sum};
ghost use Rattle.field.specs.Width.{modulus};
ghost use Rattle.protocol.specs.Products.{party};
ghost use Rattle.protocol.specs.Rounds.{round_words};
ghost use Rattle.deals.specs.Deals.{dealt_tape};
ghost use Rattle.compare.specs.Parties.{party_of};
ghost use Rattle.fills.specs.Fillings.{message_of, fill_agrees, right_at};

use compare::Party;
use field::Width;
use output::Onward;
use std::io;

mod places;
mod tapes;

// How a line begins.
fn tell_box(rt: &impl Print, party: Party, what: &str) -> io::Result<()> {
    print!(rt; "width {}, box {}: {what}", party.n.bits, party.side)
}

// The message, word by word.
fn tell_message(rt: &impl Print, party: Party) -> io::Result<()> {
    let mut room = [0; 2889];
    tell_box(rt, party, "message")?;
    for word in places::spoken(party, &mut room) {
        print!(rt; " {word}")?;
    }
    println!(rt)
}

// Says a count: only one whose filling is as it must be.
fn tell_count(rt: &impl Print, party: Party, count: usize) -> io::Result<()>
    requires { fill_agrees party count ≡ true }
{
    print!(rt; " {count}")
}

// Says those of the counts from `first` to `last` that agree, and answers how many they are.
#[tactic(auto, using(crate::proofs::Fillings::one_more, crate::proofs::Fillings::all_right))]
fn tell_range(
    rt: &impl Print,
    party: Party,
    words: &[u32],
    first: usize,
    last: usize,
) -> io::Result<usize>
    requires { (words.now ≡ message_of party) × (first ≤ last) × (last ≤ length words.now) }
    ensures value { IfOk result (λ right. right ≡ sum (last + 1 - first) (right_at party.entry first)) }
    ensures all { IfOk result (λ right. right ≡ last + 1 - first) }
{
    let mut right = 0;
    for count in first..=last {
        if places::agrees(party, words, count) {
            tell_count(rt, party, count)?;
            right += 1;
        }
    }
    Ok(right)
}

// How the line of the counts ends: all that were tried agree.
fn tell_right(rt: &impl Print, right: usize, all: usize) -> io::Result<()>
    requires { right ≡ all }
{
    println!(rt; " as they must be, {right} of {all}")
}

// The line of the counts in these ranges, each from its first count to its last; so few ranges that the number of all counts fits.
#[tactic(auto, using(protocol::proofs::Lengths::words_most, crate::proofs::Fillings::words_length))]
fn tell_counts(rt: &impl Print, party: Party, ranges: &[(usize, usize)]) -> io::Result<()>
    requires few { length ranges.now ≤ 5 }
    requires within { All (λ range. (range.0 ≤ range.1) × (range.1 ≤ round_words party.n.bits 1)) ranges.now }
{
    let mut room = [0; 2889];
    let words = places::spoken(party, &mut room);
    tell_box(rt, party, "counts")?;
    let mut right = 0;
    let mut all = 0;
    for &(first, last) in ranges {
        right += tell_range(rt, party, words, first, last)?;
        all += last + 1 - first;
    }
    tell_right(rt, right, all)
}

// Both boxes in a job on dealt tapes, each with its shares of x and y. There is no heap, so the tapes are in room for the longest.
#[tactic(auto, using(tape::proofs::Sizes::small), unfolding(shares::specs::Side::is_side))]
fn boxes<'a>(
    n: Width,
    box1: (u32, u32),
    box2: (u32, u32),
    t1: &'a mut [u32; 9053],
    t2: &'a mut [u32; 9053],
) -> [Party<'a>; 2]
    requires { (box1.0 < modulus n.bits) × (box1.1 < modulus n.bits) × (box2.0 < modulus n.bits) × (box2.1 < modulus n.bits) }
    ensures whose { map party_of result
        ≡ party n.bits 1 box1.0 box1.1 (dealt_tape 20051 n.bits 7 1 3)
        ∷ party n.bits 2 box2.0 box2.1 (dealt_tape 20051 n.bits 7 2 3)
        ∷ [] }
    ensures widths { All (λ party. party.n.bits ≡ n.bits) result }
{
    // cut here: exchange, which cuts tapes for whole jobs, is not below this program
    let words = tape::tape_words(n);
    let t1 = &mut t1[..words];
    let t2 = &mut t2[..words];
    tapes::deal(n, &mut *t1, &mut *t2);
    let box1 = Party {
        n,
        side: 1,
        x: box1.0,
        y: box1.1,
        tape: t1,
    };
    let box2 = Party {
        n,
        side: 2,
        x: box2.0,
        y: box2.1,
        tape: t2,
    };
    [box1, box2]
}

// Every count, and the message.
#[tactic(auto, unfolding(field::specs::Width::listed, field::specs::Width::modulus, protocol::specs::Rounds::round_words))]
fn width_3(rt: &impl Print) -> io::Result<()> {
    let mut t1 = [0; 9053];
    let mut t2 = [0; 9053];
    for party in boxes(Width { bits: 3 }, (5, 1), (2, 4), &mut t1, &mut t2) {
        tell_message(rt, party)?;
        tell_counts(rt, party, &[(0, 33)])?;
    }
    Ok(())
}

// Some counts: 6 words are alpha * beta's, 31 a level's.
#[tactic(auto, unfolding(field::specs::Width::listed, field::specs::Width::modulus, protocol::specs::Rounds::round_words))]
fn width_31(rt: &impl Print) -> io::Result<()> {
    let mut t1 = [0; 9053];
    let mut t2 = [0; 9053];
    let box1 = (1518500249, 271828182);
    let box2 = (314159265, 1202056903);
    for party in boxes(Width { bits: 31 }, box1, box2, &mut t1, &mut t2) {
        tell_counts(
            rt,
            party,
            &[(0, 1), (5, 7), (36, 38), (50, 50), (2887, 2889)],
        )?;
    }
    Ok(())
}

// At each box the low bits of the three tests are 1, 0, 1 or 0, 1, 1.
fn main(rt: HostRuntime) -> io::Result<()> {
    let rt = Onward { to: &rt };
    width_3(&rt)?;
    width_31(&rt)
}
