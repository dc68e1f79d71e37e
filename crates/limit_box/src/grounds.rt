// What a call's checks look at, one thing each.
ghost use Rattle.std.specs.Prelude.{◌≡◌, true, false, not, [], ◌∷◌, ◌+◌, ◌*◌, ◌<◌, ◌≤◌, length};
ghost use Rattle.refusals.specs.declared.Refusal.TheVariants.{Busy};
ghost use Rattle.refusals.specs.Grounds.{◌when◌, earliest_of};
ghost use Rattle.refusals.specs.Checks.{ground_of};
ghost use Rattle.tally.specs.Tally.{tapes_of, is_fresh, late};
ghost use Rattle.protocol.specs.Sizes.{count_fits, most_jobs};
ghost use Rattle.field.specs.Width.{listed};
ghost use Rattle.tape.specs.Layout.{tape_length};
ghost use Rattle.rules.specs.Tasks.{count_of};
ghost use Rattle.rules.specs.Modes.{is_asleep};
ghost use Rattle.rules.specs.Grounds.{message_fits, tapes_long, tape_ordered};
ghost use Rattle.rules.specs.Grounds.{idle_grounds, job_grounds, count_grounds, bound_grounds, tally_grounds, list_grounds, mark_grounds, share_grounds, tape_grounds, tapes_grounds, room_grounds, word_grounds};

use crate::modes;
use field::Width;
use refusals::Refusal;
use rules::state;
use rules::state::{Phase, State, Turn};
use tape::Label;

// One ground.
pub fn when(holds: bool, refusal: Refusal) -> Result<(), Refusal>
    ensures { ground_of result ≡ earliest_of ((refusal when holds) ∷ []) }
{
    if holds { Err(refusal) } else { Ok(()) }
}

// The box is asleep.
pub fn asleep_check(mode: Phase) -> Result<(), Refusal>
    ensures { ground_of result ≡ earliest_of ((Busy when not (is_asleep mode)) ∷ []) }
{
    match mode {
        Phase::Asleep => Ok(()),
        Phase::Idle | Phase::Job(_) => Err(Refusal::Busy),
    }
}

// The box is awake and in no job.
pub fn idle_check(mode: Phase) -> Result<(), Refusal>
    ensures { ground_of result ≡ earliest_of (idle_grounds mode) }
{
    match mode {
        Phase::Asleep => Err(Refusal::Asleep),
        Phase::Idle => Ok(()),
        Phase::Job(_) => Err(Refusal::Busy),
    }
}

// The box is in a job.
pub fn job_check(mode: Phase) -> Result<(), Refusal>
    ensures { ground_of result ≡ earliest_of (job_grounds mode) }
{
    match mode {
        Phase::Asleep => Err(Refusal::Asleep),
        Phase::Idle => Err(Refusal::NoJob),
        Phase::Job(_) => Ok(()),
    }
}

// A start takes 1 to 8 jobs.
pub fn count_check(count: u32) -> Result<(), Refusal>
    ensures { ground_of result ≡ earliest_of (count_grounds count) }
{
    when(!state::count_fits(count), Refusal::Count)
}

// A band's bounds are in range and in order.
pub fn bound_check(n: Width, low: u32, high: u32) -> Result<(), Refusal>
    ensures { ground_of result ≡ earliest_of (bound_grounds n.bits low high) }
{
    when(!modes::bounds_fit(n, low, high), Refusal::Bounds)
}

// The lent tally is as long as at wake.
pub fn tally_check(state: &State, tally: &[u8]) -> Result<(), Refusal>
    ensures { ground_of result ≡ earliest_of (tally_grounds state.now tally.now) }
{
    when(tally.len() != state.tally as usize, Refusal::Tally)
}

// Two shares for each of them.
pub fn list_check(count: u32, shares: &[u32]) -> Result<(), Refusal>
    ensures { ground_of result ≡ earliest_of (list_grounds count shares.now) }
{
    when(shares.len() != 2 * count as usize, Refusal::Room)
}

// Job i's tape has a mark, it is fresh, and so are those above it. Above a first number that passed this no tape is spent, so of the later ones only the
// number is looked at, and the tally is read once.
#[tactic(auto, using(rules::proofs::Later::later_marks))]
pub fn mark_check(first: u32, i: usize, tally: &[u8]) -> Result<(), Refusal>
    requires job { i < most_jobs }
    requires later { 0 < i → (is_fresh tally.now first ≡ true) × (late tally.now first ≡ false) }
    ensures { ground_of result ≡ earliest_of (mark_grounds (first + i) tally.now) }
{
    let own = first as usize + i;
    if tally::tapes_of(tally.len()) <= own {
        return Err(Refusal::Number);
    }
    if 0 < i {
        return Ok(());
    }
    if !tally::is_fresh(tally, own) {
        return Err(Refusal::Spent);
    }
    when(tally::is_late(tally, own), Refusal::Late)
}

// Both shares are below p.
pub fn share_check(n: Width, x: u32, y: u32) -> Result<(), Refusal>
    ensures { ground_of result ≡ earliest_of (share_grounds n.bits x y) }
{
    when(!n.contains(x) || !n.contains(y), Refusal::Share)
}

// The lent tapes are as long as so many.
#[tactic(auto, using(tape::proofs::Sizes::small))]
fn tapes_long(state: &State, count: u32, tapes: &[u32]) -> bool
    requires { listed state.now.n ≡ true }
    ensures { result ≡ tapes_long state.now count tapes.now }
{
    tapes.len() == count as usize * tape::tape_words(Width { bits: state.n })
}

// Job i's tape is this job's, and in order.
#[tactic(auto, using(tape::proofs::Sizes::small))]
fn tape_ordered(state: &State, first: u32, tapes: &[u32], i: usize) -> bool
    requires width { listed state.now.n ≡ true }
    requires job { (i < most_jobs) × (first + i < 4294967296) }
    requires within { i * tape_length state.now.n + tape_length state.now.n ≤ length tapes.now }
    ensures { result ≡ tape_ordered state.now first tapes.now i }
{
    let words = tape::tape_words(Width { bits: state.n });
    let from = i * words;
    let label = Label {
        pair: state.pair,
        side: state.side,
        number: first + i as u32,
    };
    tape::in_order(&tapes[from..from + words], state.n, label)
}

// The lent tapes are as long as so many, and job i's is its own and in order.
#[tactic(auto, using(lists::proofs::Joined::within))]
pub fn tape_check(
    state: &State,
    first: u32,
    count: u32,
    tapes: &[u32],
    i: usize,
) -> Result<(), Refusal>
    requires width { listed state.now.n ≡ true }
    requires job { (i < count) × (count ≤ most_jobs) × (first + i < 4294967296) }
    ensures { ground_of result ≡ earliest_of (tape_grounds state.now first count tapes.now i) }
{
    let ordered = tapes_long(state, count, tapes) && tape_ordered(state, first, tapes, i);
    when(!ordered, Refusal::Tape)
}

// So is every job's.
#[tactic(auto, using(rules::proofs::Batches::count_most, lists::proofs::Joined::within, lists::proofs::Every::every_fails))]
pub fn tapes_check(state: &State, tapes: &[u32]) -> Result<(), Refusal>
    requires width { listed state.now.n ≡ true }
    requires jobs { (count_fits (count_of state.now.batch.task) ≡ true) × (state.now.batch.first + count_of state.now.batch.task ≤ 4294967296) }
    ensures { ground_of result ≡ earliest_of (tapes_grounds state.now tapes.now) }
{
    let count = state.batch.task.count();
    if !tapes_long(state, count, tapes) {
        return Err(Refusal::Tape);
    }
    for i in 0..count as usize {
        if !tape_ordered(state, state.batch.first, tapes, i) {
            return Err(Refusal::Tape);
        }
    }
    Ok(())
}

// Work has its room, and the call's other buffer fits.
#[tactic(auto, using(field::proofs::Widths::bounds))]
pub fn room_check(n: Width, count: u32, work: &[u32], fits: bool) -> Result<(), Refusal>
    ensures { ground_of result ≡ earliest_of (room_grounds n.bits count work.now fits) }
{
    when(
        work.len() < count as usize * compare::words::work_words(n.bits) || !fits,
        Refusal::Room,
    )
}

// The room of a speak or a hear: its other buffer is out or incoming.
pub fn message_check(
    n: Width,
    count: u32,
    turn: Turn,
    work: &[u32],
    buffer: &[u32],
) -> Result<(), Refusal>
    ensures { ground_of result ≡ earliest_of (room_grounds n.bits count work.now (message_fits n.bits count turn (length buffer.now))) }
{
    room_check(n, count, work, message_fits(n, count, turn, buffer.len()))
}

// Out has room for the round's words, incoming has just as many.
fn message_fits(n: Width, count: u32, turn: Turn, length: usize) -> bool
    ensures { result ≡ message_fits n.bits count turn length }
{
    match turn {
        Turn::Speak(round) => compare::words::words_for(n, count, round) <= length,
        Turn::Hear(round) => length == compare::words::words_for(n, count, round),
    }
}

// The incoming words can be read: none is above p.
pub fn word_check(n: Width, incoming: &[u32]) -> Result<(), Refusal>
    ensures { ground_of result ≡ earliest_of (word_grounds n.bits incoming.now) }
{
    when(!shares::all_legible(n, incoming), Refusal::Word)
}
