// How much so many jobs need, told ahead and without running anything (document 02, P8).
#![tactic(auto)]

ghost use Rattle.std.specs.Prelude.{◌≡◌, ◌≤◌};
ghost use Rattle.protocol.specs.Sizes.{most_jobs, round_for};
ghost use Rattle.needs.specs.Figures.{figures_for, needs_rule, figures_of, told};

use field::Width;
use refusals::Refusal;
use rules::state;

// The words of the tapes, of each round, the first one first, and of work.
#[derive(Clone, Copy, Debug, PartialEq, Eq)]
pub struct Needs {
    pub tape: u32,
    pub rounds: [u32; 5],
    pub work: u32,
}

// A round's words, times the count.
#[tactic(auto, using(rules::proofs::Sizes::bounds))]
fn round_of(n: Width, count: u32, round: u32) -> u32
    requires { count ≤ most_jobs }
    ensures { result ≡ round_for n.bits count round }
{
    compare::words::words_for(n, count, round) as u32
}

// The figures of so many jobs.
#[tactic(auto, using(rules::proofs::Sizes::bounds))]
fn figures(n: Width, count: u32) -> Needs
    requires { count ≤ most_jobs }
    ensures { figures_of result ≡ figures_for n.bits count }
{
    Needs {
        tape: count * tape::tape_words(n) as u32,
        rounds: [1, 2, 3, 4, 5].map(|round| round_of(n, count, round)),
        work: count * compare::words::work_words(n.bits) as u32,
    }
}

// The figures of one job.
pub fn one_job(n: Width) -> Needs
    ensures { figures_of result ≡ figures_for n.bits 1 }
{
    figures(n, 1)
}

// The figures of a width and a count of jobs, or refused: the grounds are 2, 16.
#[tactic(auto, using(refusals::proofs::Numbers::numbered, rules::proofs::Batches::count_most), unfolding(crate::specs::Figures::needs_ground, crate::specs::Figures::needs_rule))]
pub fn words_for(n: u32, count: u32) -> Result<Needs, Refusal>
    ensures { told result ≡ needs_rule n count }
{
    let n = Width::new(n).ok_or(Refusal::Width)?;
    if !state::count_fits(count) {
        return Err(Refusal::Count);
    }
    Ok(figures(n, count))
}
