// Tallies of four tapes, and of ten: tape j has bytes 4j to 4j + 3.
ghost use Rattle.std.specs.Prelude.{◌≡◌, ◌<◌, ◌≤◌, ◌+◌, ◌*◌, length, set};
ghost use Rattle.tally.specs.Tally.{mark_of, cut_marked, cut_marks};
ghost use Rattle.walk.specs.Walk.{fresh_tally, ten_fresh, spent_tally};

// All four are fresh.
pub const FRESH: [u8; 16] = [255; 16];

// All ten are.
pub const TEN: [u8; 40] = [255; 40];

// All bytes are FF but for one.
pub fn one_byte(place: usize, byte: u8) -> [u8; 16]
    requires { place < 16 }
    ensures { result ≡ set fresh_tally place byte }
{
    let mut tally = FRESH;
    tally[place] = byte;
    tally
}

// Another mark for a tape.
#[tactic(auto, using(lists::proofs::Parts::put_whole, crate::proofs::Marks::four), unfolding(tally::specs::Tally::cut_marked))]
fn write(tally: &mut [u8], number: usize, mark: [u8; 4])
    requires { 4 * number + 4 ≤ length tally.old }
    ensures { tally.new ≡ cut_marked tally.old number (mark_of mark 0) }
{
    let at = 4 * number;
    tally[at..at + 4].copy_from_slice(&mark);
}

// What a cut in the write of a tape's mark might leave.
pub fn with_mark(tally: [u8; 16], number: usize, mark: [u8; 4]) -> [u8; 16]
    requires { number < 4 }
    ensures { result ≡ cut_marked tally number (mark_of mark 0) }
{
    let mut after = tally;
    write(&mut after, number, mark);
    after
}

// Tapes 0 and 2 are spent.
#[tactic(auto, unfolding(tally::specs::Tally::cut_marked))]
pub fn spent() -> [u8; 16]
    ensures { result ≡ spent_tally }
{
    with_mark(with_mark(FRESH, 0, [0; 4]), 2, [0; 4])
}

// What a cut in a start on ten fresh tapes leaves: so many marks, the lowest number first, and those four bytes in the next group.
#[tactic(auto, unfolding(tally::specs::Tally::marked, tally::specs::Tally::cut_marked))]
pub fn cut_start(first: usize, marks: usize, left: [u8; 4]) -> [u8; 40]
    requires { first + marks < 10 }
    ensures { result ≡ cut_marks ten_fresh first marks (mark_of left 0) }
{
    let mut tally = TEN;
    for i in 0..marks {
        write(&mut tally, first + i, [0; 4]);
    }
    write(&mut tally, first + marks, left);
    tally
}
