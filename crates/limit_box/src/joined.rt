// A box in the jobs that its start took: what it sends and what it hears is joined from theirs, each lent its own part of every buffer.
ghost use Rattle.std.specs.Prelude.{◌≡◌, true, ◌+◌, ◌*◌, ◌<◌, ◌≤◌, cond, Some, None, [], ◌∷◌, eqb, length, get_or};
ghost use Rattle.field.specs.Width.{modulus};
ghost use Rattle.std.proofs.lemmas.List.Edits.{sets};
ghost use Rattle.protocol.specs.Rounds.{last_round};
ghost use Rattle.protocol.specs.Sizes.{most_jobs, round_for, work_for};
ghost use Rattle.compare.specs.Parties.{party_of as given};
ghost use Rattle.rules.specs.Tasks.{count_of, pairs_of};
ghost use Rattle.rules.specs.Batches.{party_of, each_job, x_in, y_in, batch_of, joined_message, joined_after, answers_given, answer_shares};
ghost use Rattle.rules.specs.declared.state.Task.TheVariants.{Band};
ghost use Rattle.rules.specs.Grounds.{words_fit};
ghost use Rattle.limit_box.specs.Given.{Given};

use compare::Party;
use compare::words::LAST_ROUND;
use field::Width;
use rules::state::{Batch, MOST_JOBS, State, Task};

// What the state holds of the jobs that a start takes, with their shares of x and y.
pub fn batch_of(first: u32, task: Task, pairs: &[u32]) -> Batch
    requires { length pairs.now ≡ 2 * count_of task }
    ensures { result ≡ batch_of first task pairs.now }
{
    let jobs = task.count() as usize;
    Batch {
        first,
        task,
        x: std::array::from_fn(|i| if i < jobs { pairs[2 * i] } else { 0 }),
        y: std::array::from_fn(|i| if i < jobs { pairs[2 * i + 1] } else { 0 }),
    }
}

// The shares of a band's two comparisons, low < a and a < high.
pub fn band_pairs(side: u32, low: u32, high: u32, share: u32) -> [u32; 4]
    ensures { result ≡ pairs_of side (Band low high) (share ∷ []) }
{
    [
        shares::constant(side, low),
        share,
        share,
        shares::constant(side, high),
    ]
}

// A state in a job and the tapes that it was lent, as the checks found them.
#[derive(Clone, Copy)]
pub struct Joined<'a> {
    pub state: &'a State,
    pub tapes: &'a [u32],
    pub ghost given: { Given state.now tapes.now },
}

impl<'a> Joined<'a> {
    pub fn width(self) -> Width
        ensures { result.bits ≡ self.entry.state.now.n }
    {
        Width { bits: self.state.n }
    }

    // The box in job i.
    #[tactic(auto, using(rules::proofs::Batches::count_most, lists::proofs::Joined::within, tape::proofs::Sizes::small))]
    fn party(self, i: usize) -> Party<'a>
        requires { i < count_of self.state.now.batch.task }
        ensures { given result ≡ party_of self.entry.state.now self.entry.tapes.now i }
    {
        let n = self.width();
        let words = tape::tape_words(n);
        let from = i * words;
        let Batch { x, y, .. } = self.state.batch;
        Party {
            n,
            side: self.state.side,
            x: x[i],
            y: y[i],
            tape: &self.tapes[from..from + words],
        }
    }

    // Writes the round's words of every job at the front of out.
    #[tactic(auto, using(lists::proofs::Joined::within, protocol::proofs::Lengths::words_most, rules::proofs::Sizes::bounds))]
    pub fn speak(self, round: u32, work: &[u32], out: &mut [u32])
        requires { (work_for self.state.now.n (count_of self.state.now.batch.task) ≤ length work.now)
            × (round_for self.state.now.n (count_of self.state.now.batch.task) round ≤ length out.old) }
        ensures { out.new ≡ sets out.old 0 (joined_message self.entry.state.now self.entry.tapes.now work.now round) }
    {
        let n = self.width();
        let room = compare::words::work_words(n.bits);
        let words = compare::words::words_of(n, round);
        for i in 0..self.state.batch.task.count() as usize {
            let kept = &work[i * room..i * room + room];
            let sent = &mut out[i * words..i * words + words];
            self.party(i).speak(round, kept, sent);
        }
    }

    // The answer shares that come back, from those of the jobs: these, or a band's one.
    fn given(self, each: [u32; MOST_JOBS]) -> [u32; MOST_JOBS]
        requires { (get_or each 0 0 < modulus self.state.now.n) × (get_or each 1 0 < modulus self.state.now.n) }
        ensures { result ≡ answers_given self.entry.state.now.n self.entry.state.now.side self.entry.state.now.batch.task each }
    {
        match self.state.batch.task {
            Task::Compare(_) => each,
            Task::Band(_, _) => {
                let n = self.width();
                let mut one = [0u32; MOST_JOBS];
                // at least one of the two is true, so their sum less 1 is the bit
                one[0] = n.sub(
                    n.add(each[0], each[1]),
                    shares::constant(self.state.side, 1),
                );
                one
            }
        }
    }

    // Takes in the other box's words, each job its own. The answer shares come back after the last round.
    #[tactic(auto, using(lists::proofs::Joined::within, protocol::proofs::Lengths::words_most, rules::proofs::Batches::count_most, rules::proofs::Sizes::bounds))]
    pub fn hear(self, round: u32, work: &mut [u32], incoming: &[u32]) -> Option<[u32; MOST_JOBS]>
        requires room { work_for self.state.now.n (count_of self.state.now.batch.task) ≤ length work.old }
        requires words { (length incoming.now ≡ round_for self.state.now.n (count_of self.state.now.batch.task) round)
            × (words_fit self.state.now.n incoming.now ≡ true) }
        ensures shares { result ≡ cond (eqb round last_round)
            (Some (answer_shares self.entry.state.now self.entry.tapes.now work.old incoming.now)) None }
        ensures work { work.new ≡ joined_after self.entry.state.now self.entry.tapes.now work.old round incoming.now }
    {
        let n = self.width();
        let room = compare::words::work_words(n.bits);
        let words = compare::words::words_of(n, round);
        let mut answers = [0u32; MOST_JOBS];
        for i in 0..self.state.batch.task.count() as usize {
            let kept = &mut work[i * room..i * room + room];
            let heard = &incoming[i * words..i * words + words];
            answers[i] = self.party(i).hear(round, kept, heard).unwrap_or(0);
        }
        if round == LAST_ROUND {
            Some(self.given(answers))
        } else {
            None
        }
    }
}
