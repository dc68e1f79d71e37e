// Jobs of both boxes against the words of their files.
ghost use Rattle.std.specs.Prelude.{ℕ, ◌≡◌, ◌<◌, ◌≤◌, ◌++◌, length, take, IfSome};
ghost use Rattle.std.specs.Option.{is_some, option_map, option_and_then};
ghost use Rattle.protocol.specs.Rounds.{last_round};
ghost use Rattle.protocol.specs.Sizes.{most_jobs};
ghost use Rattle.rules.specs.Answers.{heard_or_finished, reply_of};
ghost use Rattle.rules.specs.Tasks.{count_of, answer_count};
ghost use Rattle.rules.specs.Batches.{party_of, joined_message};
ghost use Rattle.rules.specs.Calls.{outcome, heard_after};
ghost use Rattle.rules.specs.declared.state.Turn.TheVariants.{Speak};
ghost use Rattle.tally.specs.Tally.{longest_tally};
ghost use Rattle.exchange.specs.Boxes.{Ready, works_of};
ghost use Rattle.exchange.specs.Rooms.{blank_works};
ghost use Rattle.vectors.specs.Numbers.{spelled};
ghost use Rattle.vectors.specs.Due.{Due};
ghost use Rattle.vectors.specs.Job.{messages_to, transcript, shares_in, unused_tally, comes, party_at, job_told, tapes_told, agreed};
ghost use Rattle.vectors.specs.Sent.{respelled_in, job_sent, tapes_sent, sent, Named, Agreeing};

use crate::head::{self, Form, Job, MOST_SHARES, list_words};
use crate::numbers::Reader;
use crate::spelling::{Spelling, carry};
use compare::words::LAST_ROUND;
use exchange::Heard;
use field::Width;
use rules::state;
use rules::state::{State, Task};
use std::rt::Files;

// A file's job, both of whose boxes agree with it: what its text names, and how many zeros of its messages were respelled.
#[derive(Clone, Copy, Debug, PartialEq, Eq)]
pub struct Agreement {
    pub n: u32,
    pub first: u32,
    pub task: Task,
    pub zeros: usize,
}

// Of a file that is there and has every word of its job as the boxes give it. Which text was read cannot be said, only that one that agrees names this
// width, first tape and task, and so many zeros: they are printed, so that a file read in another's place shows, and a zero that was left as it is.
pub fn compared_with(
    rt: &impl Files,
    name: &[u8],
    form: Form,
    spelling: Spelling,
) -> Option<Agreement>
    ensures { IfSome result (Agreeing form spelling) }
{
    let mut room = crate::data::blank_room();
    run(crate::data::read(rt, name, &mut room)?, form, spelling)
}

// A text has its job, both tapes, both messages of each round, both answer shares.
#[tactic(auto, unfolding(crate::specs::Job::agreed, crate::specs::Sent::sent))]
fn run(text: &[u8], form: Form, spelling: Spelling) -> Option<Agreement>
    ensures agrees { is_some result ≡ agreed form text.now }
    ensures names { IfSome result (Named form text.now) }
    ensures zeros { IfSome result (λ told. told.zeros ≡ respelled_in spelling (sent form text.now)) }
{
    let mut text = Reader { text };
    let job = head::job_at(&mut text, form)?;
    let zeros = on_tapes(&mut text, job, spelling)?;
    Some(Agreement {
        n: job.n,
        first: job.first,
        task: job.task,
        zeros,
    })
}

// How many zeros of a job's messages were respelled, if the job agrees.
#[tactic(auto, using(crate::proofs::Readings::filled), unfolding(crate::specs::Job::tapes_told, crate::specs::Sent::tapes_sent))]
fn on_tapes(text: &mut Reader, job: Job, spelling: Spelling) -> Option<usize>
    requires { count_of job.task ≤ most_jobs }
    ensures agrees { is_some result ≡ tapes_told text.old.text.now job }
    ensures zeros { IfSome result (λ zeros. zeros ≡ respelled_in spelling (tapes_sent text.old.text.now job)) }
{
    let width = Width::new(job.n)?;
    let count = job.task.count();
    let mut t1 = exchange::rooms::blank_tapes();
    let mut t2 = exchange::rooms::blank_tapes();
    let t1 = exchange::rooms::tapes_room(width, count, &mut t1);
    let t2 = exchange::rooms::tapes_room(width, count, &mut t2);
    text.fill(&mut *t1)?;
    text.fill(&mut *t2)?;
    opened(text, job, &*t1, &*t2, spelling)
}

// The tally of a pair of which no tape is used.
#[tactic(auto, unfolding(crate::specs::Job::unused_tally))]
fn unused_tally() -> [u8; tally::LONGEST_TALLY]
    ensures { (length result ≡ longest_tally) × (result ≡ unused_tally) }
{
    [255; tally::LONGEST_TALLY]
}

// A box comes to the job, if it isn't refused.
#[tactic(auto, using(crate::proofs::Jobs::begun_comes))]
fn begun(
    job: Job,
    side: u32,
    list: [u32; MOST_SHARES],
    tapes: &[u32],
    work: &[u32],
) -> Option<State>
    requires { (count_of job.task ≤ most_jobs) × (work.now ≡ blank_works) }
    ensures comes { is_some result ≡ comes job side list tapes.now }
    ensures ready { IfSome result (λ s. Ready s job.first (Speak 1) tapes.now work.now) }
    ensures same { IfSome result (λ s. (s.n ≡ job.n) × (s.side ≡ side) × (s.batch.task ≡ job.task)) }
    ensures parties { IfSome result (λ s. (i : ℕ) → i < count_of job.task → party_of s tapes.now i ≡ party_at job side list tapes.now i) }
{
    let mut state = state::FIRST;
    let mut tally = unused_tally();
    let Job {
        n,
        pair,
        first,
        task,
        ..
    } = job;
    let shares = &list[..list_words(task)];
    exchange::begin(
        &mut state, n, side, pair, first, task, shares, tapes, work, &mut tally,
    )
    .ok()?;
    Some(state)
}

// Both boxes come to the job, and the rounds follow.
#[tactic(auto, unfolding(crate::specs::Job::job_told, crate::specs::Sent::job_sent))]
fn opened(text: &mut Reader, job: Job, t1: &[u32], t2: &[u32], spelling: Spelling) -> Option<usize>
    requires { count_of job.task ≤ most_jobs }
    ensures agrees { is_some result ≡ job_told text.old.text.now job t1.now t2.now }
    ensures zeros { IfSome result (λ zeros. zeros ≡ respelled_in spelling (job_sent job t1.now t2.now)) }
{
    let mut w1 = exchange::rooms::blank_works();
    let mut w2 = exchange::rooms::blank_works();
    let mut s1 = begun(job, 1, job.box1, t1, &w1)?;
    let mut s2 = begun(job, 2, job.box2, t2, &w2)?;
    exchanged(
        text, job.first, &mut s1, &mut s2, t1, t2, &mut w1, &mut w2, spelling,
    )
}

// Every round, each message against the text, then the answer shares, which the last round gives.
#[tactic(auto, using(crate::proofs::Rounds::told_due, crate::proofs::Rounds::told_none))]
fn exchanged(
    text: &mut Reader,
    first: u32,
    s1: &mut State,
    s2: &mut State,
    t1: &[u32],
    t2: &[u32],
    w1: &mut [u32],
    w2: &mut [u32],
    spelling: Spelling,
) -> Option<usize>
    requires { Due first 1 s1.old s2.old t1.now t2.now w1.old w2.old }
    ensures agrees { is_some result
        ≡ is_some (spelled text.old.text.now
        (transcript s1.old.n s1.old.batch.task (party_of s1.old t1.now) (party_of s2.old t2.now) (works_of s1.old s2.old w1.old w2.old))) }
    ensures zeros { IfSome result (λ zeros. zeros ≡ respelled_in spelling
        (messages_to (count_of s1.old.batch.task) (party_of s1.old t1.now) (party_of s2.old t2.now) (works_of s1.old s2.old w1.old w2.old) last_round)) }
{
    let answers = answer_count(s1.batch.task);
    let mut zeros = 0;
    for heard in 0..exchange::EARLIER_ROUNDS {
        let round = compared(
            &mut *text,
            first,
            heard + 1,
            &mut *s1,
            &mut *s2,
            t1,
            t2,
            &mut *w1,
            &mut *w2,
            spelling,
        )?;
        zeros += round.zeros;
    }
    let last = compared(
        &mut *text, first, LAST_ROUND, s1, s2, t1, t2, w1, w2, spelling,
    )?;
    answers_same(text, answers, last.heard)?;
    Some(zeros + last.zeros)
}

// After a round whose messages the text has: what both boxes heard, and how many zeros of the messages were respelled.
#[derive(Clone, Copy)]
struct Round {
    heard: Heard,
    zeros: usize,
}

// One round, both messages against the text as they are sent; then each goes to the other box. After the last no turn is due. In two steps and not
// by exchange's round: the words are looked at before they are heard, and their zeros may be respelled on the way.
fn compared(
    text: &mut Reader,
    first: u32,
    round: u32,
    s1: &mut State,
    s2: &mut State,
    t1: &[u32],
    t2: &[u32],
    w1: &mut [u32],
    w2: &mut [u32],
    spelling: Spelling,
) -> Option<Round>
    requires { Due first round s1.old s2.old t1.now t2.now w1.old w2.old }
    ensures read { option_map (λ _. text.new.text.now) result
        ≡ spelled text.old.text.now (joined_message s1.old t1.now w1.old round ++ joined_message s2.old t2.now w2.old round) }
    ensures box1 { IfSome result (λ told. outcome (reply_of heard_or_finished told.heard.0) s1.new w1.new
        ≡ heard_after s1.old t1.now w1.old round (joined_message s2.old t2.now w2.old round)) }
    ensures box2 { IfSome result (λ told. outcome (reply_of heard_or_finished told.heard.1) s2.new w2.new
        ≡ heard_after s2.old t2.now w2.old round (joined_message s1.old t1.now w1.old round)) }
    ensures zeros { IfSome result (λ told. told.zeros
        ≡ respelled_in spelling (joined_message s1.old t1.now w1.old round ++ joined_message s2.old t2.now w2.old round)) }
{
    let mut o1 = exchange::rooms::blank_messages();
    let mut o2 = exchange::rooms::blank_messages();
    let n = Width { bits: s1.n };
    let words = compare::words::words_for(n, s1.batch.task.count(), round);
    exchange::both_speak(
        first, round, &mut *s1, &mut *s2, t1, t2, &*w1, &*w2, &mut o1, &mut o2,
    );
    // the room is the longest message's: a shorter one has its first words
    let o1 = &mut o1[..words];
    let o2 = &mut o2[..words];
    text.both_same(&*o1, &*o2)?;
    let zeros1 = carry(n, &mut *o1, spelling);
    let zeros2 = carry(n, &mut *o2, spelling);
    let heard = exchange::both_hear(first, round, s1, s2, t1, t2, w1, w2, &*o2, &*o1);
    Some(Round {
        heard,
        zeros: zeros1 + zeros2,
    })
}

// How many answer shares a box gives: one for each comparison, or a band's one.
fn answer_count(task: Task) -> u32
    ensures { result ≡ answer_count task }
{
    match task {
        Task::Compare(count) => count,
        Task::Band(_, _) => 1,
    }
}

// Passes the next numbers, if they are the shares of what both boxes answered, so many of each. A hear that gave none doesn't agree.
fn answers_same(text: &mut Reader, count: u32, heard: Heard) -> Option<()>
    requires { count ≤ most_jobs }
    ensures { is_some result
        ≡ is_some (option_and_then (λ own. option_and_then (λ others. spelled text.old.text.now (take count own ++ take count others))
        (shares_in heard.1)) (shares_in heard.0)) }
{
    let (heard1, heard2) = heard;
    let answers1 = heard1.ok().flatten()?;
    let answers2 = heard2.ok().flatten()?;
    let count = count as usize;
    text.both_same(&answers1[..count], &answers2[..count])
}
