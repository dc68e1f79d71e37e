// Eight comparisons of both boxes, in one go, one by one and by twos (document 02, P9), and as four bands (P10), each of which is two of them.
ghost use Rattle.std.specs.Prelude.{ℕ, ◌≡◌, true, ◌+◌, ◌*◌, ◌<◌, ◌≤◌, eqb, length, get_or};
ghost use Rattle.lists.specs.Every.{every};
ghost use Rattle.protocol.specs.Sizes.{tape_for};
ghost use Rattle.rules.specs.Tasks.{count_of, answer_count};
ghost use Rattle.rules.specs.declared.state.Task.TheVariants.{Compare};
ghost use Rattle.rules.specs.Bits.{right_bit};
ghost use Rattle.bench.specs.Eight.{list, task_of, Small, Right, RightStarts, RightTurn, AllDealt, Next, marks};

use exchange::Jobs;
use field::Width;
use rules::state::{MOST_JOBS, Task};

// What the tapes are dealt from, the first one's; each of the others has the next.
const SEED: u32 = 2463534242;

const PAIR: u32 = 1;

// As many comparisons as one start takes.
const EIGHT: u32 = MOST_JOBS as u32;

// Their shares at one box.
const SHARES: usize = 2 * MOST_JOBS;

// A tally of eight tapes.
const TALLY: usize = tally::MARK_BYTES * MOST_JOBS;

// How many of them one start takes: all, one, or two, as a pair or as a band.
#[derive(Clone, Copy, Debug, PartialEq, Eq)]
pub enum Way {
    Joined,
    Singly,
    Pairs,
    Bands,
}

// What each start is asked. The bounds are those of document 02's cases, in range at every width.
fn task_of(way: Way) -> Task
    ensures { result ≡ task_of way }
{
    match way {
        Way::Joined => Task::Compare(EIGHT),
        Way::Singly => Task::Compare(1),
        Way::Pairs => Task::Compare(2),
        Way::Bands => Task::Band(2, 5),
    }
}

// What both boxes are lent for eight comparisons beside their tapes and tallies, turn after turn.
#[derive(Drop)]
pub struct Memory {
    w1: [u32; 3488],
    w2: [u32; 3488],
    o1: [u32; 23112],
    o2: [u32; 23112],
}

// Zeros at first.
fn blank() -> Memory {
    Memory {
        w1: exchange::rooms::blank_works(),
        w2: exchange::rooms::blank_works(),
        o1: exchange::rooms::blank_messages(),
        o2: exchange::rooms::blank_messages(),
    }
}

// A box's shares, x and y of the first comparison, then of the next: below 7, so that they are in range at every width.
#[tactic(auto, using(crate::proofs::Lists::store_next, crate::proofs::Lists::store_all))]
fn list(from: u32, step: u32) -> [u32; SHARES]
    requires { (from < 7) × (step < 7) }
    ensures { result ≡ list from step }
{
    let mut list = [0; SHARES];
    for k in 0..SHARES as u32 {
        list[k as usize] = (from + step * k) % 7;
    }
    list
}

// The ordinary comparison of what both boxes' shares of comparison i add up to, or of a band's a with its bounds.
#[tactic(auto, using(field::proofs::Widths::bounds))]
fn ordinary(n: Width, task: Task, shares1: &[u32], shares2: &[u32], i: usize) -> u32
    requires shares1 { (2 * i + 1 < length shares1.now) × ((k : ℕ) → get_or shares1.now k 0 < 7) }
    requires shares2 { (2 * i + 1 < length shares2.now) × ((k : ℕ) → get_or shares2.now k 0 < 7) }
    ensures { result ≡ right_bit n.bits task shares1.now shares2.now i }
{
    let p = n.modulus();
    match task {
        Task::Compare(_) => {
            let x = (shares1[2 * i] + shares2[2 * i]) % p;
            let y = (shares1[2 * i + 1] + shares2[2 * i + 1]) % p;
            u32::from(x < y)
        }
        Task::Band(low, high) => {
            let a = (shares1[0] + shares2[0]) % p;
            u32::from(low < a && a < high)
        }
    }
}

// How many bits it opens.
fn answer_count(task: Task) -> usize
    ensures { result ≡ answer_count task }
{
    match task {
        Task::Compare(count) => count as usize,
        Task::Band(_, _) => 1,
    }
}

// Whether every bit is that of the ordinary comparison.
#[tactic(auto, using(lists::proofs::Every::every_fails))]
fn all_ordinary(
    n: Width,
    task: Task,
    bits: [u32; MOST_JOBS],
    shares1: &[u32],
    shares2: &[u32],
) -> bool
    requires { (count_of task ≤ 8) × Small task shares1.now × Small task shares2.now }
    ensures { result ≡ every (answer_count task) (λ i. eqb (get_or bits i 0) (right_bit n.bits task shares1.now shares2.now i)) }
{
    for i in 0..answer_count(task) {
        if bits[i] != ordinary(n, task, shares1, shares2, i) {
            return false;
        }
    }
    true
}

// A whole job of both boxes: whether it was not refused, and every comparison came out as the ordinary one does. On dealt tapes that the tallies have
// next it does so.
fn is_right(
    n: Width,
    jobs: Jobs<'_>,
    t1: &[u32],
    t2: &[u32],
    k1: &mut [u8],
    k2: &mut [u8],
    memory: &mut Memory,
) -> bool
    requires { (jobs.n ≡ n.bits) × (jobs.pair ≡ 1) × (count_of jobs.task ≤ 8) × Small jobs.task jobs.box1.now × Small jobs.task jobs.box2.now }
    ensures right { result ≡ true → Right n.bits jobs.entry.first jobs.entry.task jobs.entry.box1.now jobs.entry.box2.now t1.now t2.now }
    ensures dealt { Next n.bits jobs.entry.first jobs.entry.task t1.now t2.now k1.old k2.old
        → (result ≡ true)
        × (k1.new ≡ marks (jobs.entry.first + count_of jobs.entry.task))
        × (k2.new ≡ marks (jobs.entry.first + count_of jobs.entry.task)) }
{
    let Memory { w1, w2, o1, o2 } = memory;
    match exchange::less(jobs, t1, t2, w1, w2, k1, k2, o1, o2) {
        Ok(bits) => all_ordinary(n, jobs.task, bits, jobs.box1, jobs.box2),
        Err(_) => false,
    }
}

// All starts of the eight comparisons, each on the tallies that the one before it left. Of the shares of its two a band takes the first, as that of a.
#[tactic(auto, using(crate::proofs::Starts::none_done))]
fn starts(
    way: Way,
    n: Width,
    shares1: &[u32],
    shares2: &[u32],
    t1: &[u32],
    t2: &[u32],
    memory: &mut Memory,
) -> bool
    requires shares { Small (Compare 8) shares1.now × Small (Compare 8) shares2.now }
    requires tapes { (length t1.now ≡ tape_for n.bits 8) × (length t2.now ≡ tape_for n.bits 8) }
    ensures right { result ≡ true → RightStarts way n.bits shares1.now shares2.now t1.now t2.now }
    ensures dealt { AllDealt n.bits 0 8 t1.now t2.now → result ≡ true }
{
    let mut k1 = [255u8; TALLY];
    let mut k2 = [255u8; TALLY];
    let task = task_of(way);
    let count = task.count();
    let own = count as usize * 2;
    let words = count as usize * tape::tape_words(n);
    let mut right = true;
    for i in 0..EIGHT / count {
        let shares_at = i as usize * own;
        let tapes_at = i as usize * words;
        let jobs = Jobs {
            n: n.bits,
            pair: PAIR,
            first: i * count,
            task,
            box1: &shares1[shares_at..shares_at + own],
            box2: &shares2[shares_at..shares_at + own],
        };
        let t1 = &t1[tapes_at..tapes_at + words];
        let t2 = &t2[tapes_at..tapes_at + words];
        right &= is_right(n, jobs, t1, t2, &mut k1, &mut k2, &mut *memory);
    }
    right
}

// A turn: eight comparisons whose shares change from turn to turn.
fn turn_right(way: Way, n: Width, turn: u32, t1: &[u32], t2: &[u32], memory: &mut Memory) -> bool
    requires { (length t1.now ≡ tape_for n.bits 8) × (length t2.now ≡ tape_for n.bits 8) }
    ensures right { result ≡ true → RightTurn way n.bits t1.now t2.now turn }
    ensures dealt { AllDealt n.bits 0 8 t1.now t2.now → result ≡ true }
{
    let shares1 = list(turn % 7, 1);
    let shares2 = list(turn / 7 % 7, 3);
    starts(way, n, &shares1, &shares2, t1, t2, memory)
}

// How many turns came out right.
fn turns(way: Way, n: Width, count: u32, t1: &[u32], t2: &[u32]) -> u32
    requires { (length t1.now ≡ tape_for n.bits 8) × (length t2.now ≡ tape_for n.bits 8) }
    ensures right { result ≡ count → (turn : ℕ) → turn < count → RightTurn way n.bits t1.now t2.now turn }
    ensures dealt { AllDealt n.bits 0 8 t1.now t2.now → result ≡ count }
{
    let mut memory = blank();
    let mut right = 0;
    for turn in 0..count {
        right += u32::from(turn_right(way, n, turn, t1, t2, &mut memory));
    }
    right
}

// Both boxes' tapes of numbers 0 to 7.
fn deal_all(n: Width, t1: &mut [u32], t2: &mut [u32])
    requires { (length t1.old ≡ tape_for n.bits 8) × (length t2.old ≡ tape_for n.bits 8) }
    ensures { AllDealt n.bits 0 8 t1.new t2.new }
{
    let words = tape::tape_words(n);
    for i in 0..EIGHT {
        let from = i as usize * words;
        let own1 = &mut t1[from..from + words];
        let own2 = &mut t2[from..from + words];
        deals::write(SEED + i, n, PAIR, i, own1, own2);
    }
}

// So many turns on dealt tapes, and how many of them came out right.
pub fn often(way: Way, n: Width, count: u32) -> u32
    ensures { result ≡ count }
{
    let mut t1 = exchange::rooms::blank_tapes();
    let mut t2 = exchange::rooms::blank_tapes();
    let t1 = exchange::rooms::tapes_room(n, EIGHT, &mut t1);
    let t2 = exchange::rooms::tapes_room(n, EIGHT, &mut t2);
    deal_all(n, &mut *t1, &mut *t2);
    turns(way, n, count, &*t1, &*t2)
}
