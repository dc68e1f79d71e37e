// Four refusals at every place that can give them: each byte but FF in each place of a mark, for its own tape and for those below it, the word 7 in
// each place of a tape's body, and the word 8 in each place of the words that a hear is lent. There a 7 is heard as 0 at every place: by
// box 2, whose hear is linear in each word. Box 1 multiplies a word of a product by what it has of the other factor, and of β that
// is 0.
ghost use Rattle.std.specs.Prelude.{◌≡◌, true, ◌<◌};
ghost use Rattle.walk.specs.Sweeps.{places_of, RightAt, Counted};

use crate::calls::is_refused;
use crate::hears::{changed, of_changed};
use crate::starts::on_marks;
use crate::tallies::one_byte;
use crate::zeros::as_zeros;
use refusals::Refusal;
use std::io;

// An enum and not a closure for each test: the theorem on the counts is over the sweeps, so every closure would need its sweep's clause beside it.
#[derive(Clone, Copy)]
pub enum Sweep {
    Bytes,
    Above,
    Body,
    Words,
    Zeros,
}

// How many places there are.
fn places(sweep: Sweep) -> usize
    ensures { result ≡ places_of sweep }
{
    match sweep {
        Sweep::Bytes => 4 * 255,
        Sweep::Above => 12 * 255,
        Sweep::Body => crate::tapes::BODY,
        Sweep::Words | Sweep::Zeros => 33,
    }
}

// Whether the call is refused as it must be, with nothing changed, or heard as zeros.
#[tactic(auto, unfolding(rules::specs::Calls::start_rule, rules::specs::Calls::hear_rule, rules::specs::Calls::heard_after))]
fn right_at(sweep: Sweep, place: usize) -> bool
    requires { place < places_of sweep }
    ensures { (result ≡ true → RightAt sweep place) × (RightAt sweep place → result ≡ true) }
{
    match sweep {
        Sweep::Bytes => is_refused(
            on_marks(one_byte(place / 255, (place % 255) as u8)),
            Refusal::Spent,
        ),
        Sweep::Above => is_refused(
            on_marks(one_byte(4 + place / 255, (place % 255) as u8)),
            Refusal::Late,
        ),
        Sweep::Body => is_refused(crate::starts::on_changed(place, 7), Refusal::Tape),
        Sweep::Words => is_refused(of_changed(place, 8), Refusal::Word),
        Sweep::Zeros => as_zeros(crate::states::box2_hearing(), 2, 1, changed(place, 7)),
    }
}

// At how many places it is. A loop: the count of a filter did not close, since what is right at a place is said by a law and not by a test.
#[tactic(auto, using(crate::specs::Sweeps::none, crate::specs::Sweeps::here, crate::specs::Sweeps::not_here))]
fn count(sweep: Sweep) -> usize
    ensures { Counted (RightAt sweep) (places_of sweep) result }
{
    let mut right = 0;
    for place in 0..places(sweep) {
        if right_at(sweep, place) {
            right += 1;
        }
    }
    right
}

pub fn lines(rt: &impl Print) -> io::Result<()> {
    for (label, sweep, end) in [
        (
            "start, a byte of its mark not FF",
            Sweep::Bytes,
            "refused 8",
        ),
        (
            "start, a byte above its mark not FF",
            Sweep::Above,
            "refused 15",
        ),
        ("start, a body word 7", Sweep::Body, "places refused 10"),
        ("hear, a word 8", Sweep::Words, "places refused 13"),
        ("hear, a word 7", Sweep::Zeros, "places heard as 0"),
    ] {
        println!(rt; "{label}: {} of {} {end}", count(sweep), places(sweep))?;
    }
    Ok(())
}
