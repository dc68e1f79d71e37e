// The tally: bytes 4j to 4j + 3 are the mark of tape number j (document 02, P6).
#![tactic(auto)]

ghost use Rattle.std.specs.Prelude.{◌≡◌, true, not, [], ◌∷◌, ◌<◌, length, reverse};
ghost use Rattle.std.specs.List.{list_any};
ghost use Rattle.tally.specs.Tally.{mark_bytes, tally_fits, tapes_of, is_fresh, late, marked, fresh_count};
ghost use Rattle.tally.specs.Bytes.{marks_of};

// The bytes of a mark: the board's memory writes in groups of so many.
pub const MARK_BYTES: usize = 4;

// The most bytes that a tally may have.
pub const LONGEST_TALLY: usize = 11680;

const FRESH: u8 = 255;

const SPENT: u8 = 0;

// Whether a tally may have that length.
#[tactic(auto, using(std::proofs::lemmas::Bool::Decides::nat_tests), unfolding(crate::specs::Tally::tally_fits))]
pub fn tally_fits(length: usize) -> bool
    ensures { result ≡ tally_fits length }
{
    MARK_BYTES <= length && length <= LONGEST_TALLY && length % MARK_BYTES == 0
}

// How many tapes a tally of that length has marks for.
#[tactic(auto, unfolding(crate::specs::Tally::tapes_of))]
pub fn tapes_of(length: usize) -> usize
    ensures { result ≡ tapes_of length }
{
    length / MARK_BYTES
}

// The marks, tape by tape.
#[tactic(auto, unfolding(crate::specs::Tally::tapes_of, crate::specs::Bytes::marks_of))]
fn marks_in(tally: &[u8]) -> &[[u8; MARK_BYTES]]
    ensures value { result.now ≡ marks_of tally.now }
    ensures long { length result.now ≡ tapes_of (length tally.now) }
{
    tally.as_chunks::<MARK_BYTES>().0
}

// Whether all four bytes are FF: the compiler reads a mark as one word and makes one comparison.
fn all_ff(mark: &[u8; MARK_BYTES]) -> bool
    ensures { result ≡ is_fresh mark.now 0 }
{
    *mark == [FRESH; MARK_BYTES]
}

// Whether a tape can still be used.
pub fn is_fresh(tally: &[u8], number: usize) -> bool
    requires { number < tapes_of (length tally.now) }
    ensures { result ≡ is_fresh tally.now number }
{
    all_ff(&marks_in(tally)[number])
}

// Whether one of the marks is spent: they are read from the last one down, to the first that is.
fn any_spent(marks: &[[u8; MARK_BYTES]]) -> bool
    ensures { result ≡ list_any (λ mark. not (is_fresh mark 0)) (reverse marks.now) }
{
    marks.iter().rev().any(|mark| !all_ff(mark))
}

// Whether a tape above it is spent: document 02's late (P4).
pub fn is_late(tally: &[u8], number: usize) -> bool
    requires { number < tapes_of (length tally.now) }
    ensures { result ≡ late tally.now number }
{
    any_spent(&marks_in(tally)[number + 1..])
}

// How many tapes are fresh.
pub fn fresh_count(tally: &[u8]) -> u32
    requires { tally_fits (length tally.now) ≡ true }
    ensures { result ≡ fresh_count tally.now }
{
    marks_in(tally).iter().filter(|mark| all_ff(mark)).count() as u32
}

// Marks a tape as spent: its mark alone is lent on. Never inlined: a start's loop over its marks would be compiled to one filling of all of them, whose
// stores come in an order of its own, and not one mark after the other.
#[inline(never)]
pub fn spend(tally: &mut [u8], number: usize)
    requires { number < tapes_of (length tally.old) }
    ensures { tally.new ≡ marked tally.old number }
{
    let from = MARK_BYTES * number;
    let end = from + MARK_BYTES;
    write(&mut tally[from..end]);
}

// The one write of a mark. It is lent that mark alone, and nothing else writes a tally.
fn write(mark: &mut [u8])
    requires { length mark.old ≡ mark_bytes }
    ensures { mark.new ≡ 0 ∷ 0 ∷ 0 ∷ 0 ∷ [] }
{
    mark.copy_from_slice(&[SPENT; MARK_BYTES]);
}
