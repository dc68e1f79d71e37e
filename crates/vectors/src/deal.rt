// Test deals against the words of their files.
ghost use Rattle.std.specs.Prelude.{◌≡◌, IfSome};
ghost use Rattle.std.specs.Option.{is_some};
ghost use Rattle.vectors.specs.Deal.{deal_told, deal_agreed, headed, AgreeingDeal};

use crate::numbers::Reader;
use field::Width;
use std::rt::Files;

// The numbers of a deal, as its file names them.
#[derive(Clone, Copy, Debug, PartialEq, Eq)]
pub struct Deal {
    pub seed: u32,
    pub width: u32,
    pub pair: u32,
    pub number: u32,
}

// The deal of a file that is there and has every word of both tapes as the dealer gives it. Which text was read cannot be said, only that one that
// agrees has these numbers: they are printed, so that a file read in another's place shows.
pub fn compared_with(rt: &impl Files, name: &[u8]) -> Option<Deal>
    ensures { IfSome result AgreeingDeal }
{
    let mut room = crate::data::blank_room();
    run(crate::data::read(rt, name, &mut room)?)
}

// A text has seed, n, pair and tape number, then both tapes.
#[tactic(auto, using(crate::proofs::Readings::filled, crate::proofs::Deals::heads))]
fn run(text: &[u8]) -> Option<Deal>
    ensures agrees { is_some result ≡ deal_agreed text.now }
    ensures names { IfSome result (headed text.now) }
{
    let mut text = Reader { text };
    let mut head = [0u32; 4];
    text.fill(&mut head)?;
    let [seed, width, pair, number] = head;
    let deal = Deal {
        seed,
        width,
        pair,
        number,
    };
    dealt_same(&mut text, deal)?;
    Some(deal)
}

// Passes the next numbers, if they are both tapes of that deal. One that is refused doesn't agree.
#[tactic(auto, using(crate::proofs::Deals::deal_unlisted))]
fn dealt_same(text: &mut Reader, deal: Deal) -> Option<()>
    ensures { is_some result ≡ deal_told text.old.text.now deal }
{
    let width = Width::new(deal.width)?;
    let mut t1 = exchange::memory::blank_tape();
    let mut t2 = exchange::memory::blank_tape();
    let t1 = exchange::memory::tape_room(width, &mut t1);
    let t2 = exchange::memory::tape_room(width, &mut t2);
    deals::deal(
        deal.seed,
        deal.width,
        deal.pair,
        deal.number,
        &mut *t1,
        &mut *t2,
    )
    .ok()?;
    text.both_same(&*t1, &*t2)
}
