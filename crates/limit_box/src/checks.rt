// Each call's grounds of refusal, in document 01's order: the first that holds counts. A check reads what the call was lent and writes nothing. Where
// none holds, a speak's and a hear's check give the box in its jobs, with what they showed of it. Each takes what its call takes, as document 01 lists it.
ghost use Rattle.std.specs.Prelude.{◌≡◌, true, false, ◌+◌, ◌*◌, ◌<◌, [], ◌∷◌, length, IfOk};
ghost use Rattle.field.specs.Width.{listed};
ghost use Rattle.tally.specs.Tally.{tally_fits, is_fresh, late};
ghost use Rattle.protocol.specs.Sizes.{count_fits};
ghost use Rattle.refusals.specs.Grounds.{earliest_of, joined};
ghost use Rattle.refusals.specs.Checks.{ground_of};
ghost use Rattle.rules.specs.Tasks.{pairs_of};
ghost use Rattle.rules.specs.declared.state.Task.TheVariants.{Compare, Band};
ghost use Rattle.rules.specs.Grounds.{one_parts, job_parts, turn_grounds, wake_ground, start_ground, speak_ground, hear_ground, drop_ground};

use crate::grounds::{
    asleep_check, bound_check, count_check, idle_check, job_check, list_check, mark_check,
    message_check, room_check, share_check, tally_check, tape_check, tapes_check, when, word_check,
};
use crate::joined;
use crate::joined::Joined;
use field::Width;
use refusals::Refusal;
use rules::state::{State, Turn};

#[tactic(auto, unfolding(rules::specs::Grounds::wake_ground))]
pub fn wake_check(state: &State, n: u32, side: u32, tally: &[u8]) -> Result<(), Refusal>
    ensures { ground_of result ≡ wake_ground state.now n side tally.now }
{
    asleep_check(crate::modes::mode_of(state))?;
    when(Width::new(n).is_none(), Refusal::Width)?;
    when(!shares::is_side(side), Refusal::Side)?;
    when(!tally::tally_fits(tally.len()), Refusal::Tally)
}

#[tactic(auto, unfolding(rules::specs::Grounds::start_ground))]
pub fn start_check(
    state: &State,
    first: u32,
    count: u32,
    shares: &[u32],
    tapes: &[u32],
    work: &[u32],
    tally: &[u8],
) -> Result<(), Refusal>
    ensures { ground_of result ≡ start_ground state.now first (Compare count) shares.now tapes.now work.now tally.now }
{
    idle_check(crate::modes::mode_of(state))?;
    count_check(count)?;
    tally_check(state, tally)?;
    list_check(count, shares)?;
    jobs_check(state, first, count, shares, tapes, work, tally)
}

// Where none holds, it gives the shares of the band's two comparisons.
#[tactic(auto, unfolding(rules::specs::Grounds::start_ground))]
pub fn band_check(
    state: &State,
    first: u32,
    low: u32,
    high: u32,
    share: u32,
    tapes: &[u32],
    work: &[u32],
    tally: &[u8],
) -> Result<[u32; 4], Refusal>
    ensures ground { ground_of result ≡ start_ground state.now first (Band low high) (share ∷ []) tapes.now work.now tally.now }
    ensures pairs { IfOk result (λ pairs. pairs ≡ pairs_of state.now.side (Band low high) (share ∷ [])) }
{
    idle_check(crate::modes::mode_of(state))?;
    bound_check(Width { bits: state.n }, low, high)?;
    tally_check(state, tally)?;
    let pairs = joined::band_pairs(state.side, low, high, share);
    jobs_check(state, first, 2, &pairs, tapes, work, tally)?;
    Ok(pairs)
}

// Every job of a start, one after the other, and the room to work on all.
fn jobs_check(
    state: &State,
    first: u32,
    count: u32,
    pairs: &[u32],
    tapes: &[u32],
    work: &[u32],
    tally: &[u8],
) -> Result<(), Refusal>
    requires width { listed state.now.n ≡ true }
    requires fits { (count_fits count ≡ true) × (length pairs.now ≡ 2 * count) × (tally_fits (length tally.now) ≡ true) }
    ensures { ground_of result ≡ earliest_of (joined (job_parts state.now first count pairs.now tapes.now work.now tally.now)) }
{
    for i in 0..count as usize {
        one_check(state, first, count, pairs, tapes, tally, i)?;
    }
    room_check(Width { bits: state.n }, count, work, true)
}

// One job of a start.
#[tactic(auto, using(rules::proofs::Batches::count_most, crate::proofs::Numbers::number_small))]
fn one_check(
    state: &State,
    first: u32,
    count: u32,
    pairs: &[u32],
    tapes: &[u32],
    tally: &[u8],
    i: usize,
) -> Result<(), Refusal>
    requires width { listed state.now.n ≡ true }
    requires fits { (i < count) × (count_fits count ≡ true) × (length pairs.now ≡ 2 * count) × (tally_fits (length tally.now) ≡ true) }
    requires later { 0 < i → (is_fresh tally.now first ≡ true) × (late tally.now first ≡ false) }
    ensures { ground_of result ≡ earliest_of (joined (one_parts state.now first count pairs.now tapes.now tally.now i)) }
{
    mark_check(first, i, tally)?;
    share_check(Width { bits: state.n }, pairs[2 * i], pairs[2 * i + 1])?;
    tape_check(state, first, count, tapes, i)
}

#[tactic(auto, unfolding(rules::specs::Grounds::speak_ground))]
pub fn speak_check<'a>(
    state: &'a State,
    first: u32,
    round: u32,
    tapes: &'a [u32],
    work: &[u32],
    out: &[u32],
) -> Result<Joined<'a>, Refusal>
    ensures ground { ground_of result ≡ speak_ground state.now first round tapes.now work.now out.now }
    ensures joined { IfOk result (λ joined. (joined.state.now ≡ state.now) × (joined.tapes.now ≡ tapes.now)) }
{
    turn_check(state, first, Turn::Speak(round), tapes, work, out)
}

#[tactic(auto, unfolding(rules::specs::Grounds::hear_ground))]
pub fn hear_check<'a>(
    state: &'a State,
    first: u32,
    round: u32,
    tapes: &'a [u32],
    work: &[u32],
    incoming: &[u32],
) -> Result<Joined<'a>, Refusal>
    ensures ground { ground_of result ≡ hear_ground state.now first round tapes.now work.now incoming.now }
    ensures joined { IfOk result (λ joined. (joined.state.now ≡ state.now) × (joined.tapes.now ≡ tapes.now)) }
{
    let joined = turn_check(state, first, Turn::Hear(round), tapes, work, incoming)?;
    word_check(joined.width(), incoming)?;
    Ok(joined)
}

#[tactic(auto, unfolding(rules::specs::Grounds::drop_ground))]
pub fn drop_check(state: &State) -> Result<(), Refusal>
    ensures { ground_of result ≡ drop_ground state.now }
{
    job_check(crate::modes::mode_of(state))
}

// What a speak and a hear have in common: the turn that is due, the tapes and the room. The buffer is out or incoming.
#[inline(always)]
fn turn_check<'a>(
    state: &'a State,
    first: u32,
    turn: Turn,
    tapes: &'a [u32],
    work: &[u32],
    buffer: &[u32],
) -> Result<Joined<'a>, Refusal>
    ensures ground { ground_of result ≡ earliest_of (turn_grounds state.now first turn tapes.now work.now buffer.now) }
    ensures joined { IfOk result (λ joined. (joined.state.now ≡ state.now) × (joined.tapes.now ≡ tapes.now)) }
{
    let mode = crate::modes::mode_of(state);
    job_check(mode)?;
    let due = crate::modes::is_due(mode, state.batch.first, first, turn);
    when(!due, Refusal::Turn)?;
    tapes_check(state, tapes)?;
    let n = Width { bits: state.n };
    message_check(n, state.batch.task.count(), turn, work, buffer)?;
    Ok(Joined { state, tapes })
}
