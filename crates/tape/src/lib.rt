// The one-time tape: where its sections stand, whether a lent tape is in order, and its sections as parts of it.
#![tactic(auto)]

ghost use Rattle.std.specs.Prelude.{◌≡◌, ◌+◌, ◌<◌, ◌≤◌, ℕ, length, get_or};
ghost use Rattle.field.specs.Width.{modulus};
ghost use Rattle.tape.specs.Sections.{place};
ghost use Rattle.tape.specs.Layout.{section_length, section_start, section, body_length, tape_length, distance_back, trailer};
ghost use Rattle.tape.specs.Order.{in_order, trailer_fits, body_in_range, Readable};

use field::Width;

// A section of the body.
#[derive(Clone, Copy, Debug, PartialEq, Eq)]
pub enum Section {
    Squares,
    Powers,
    Triples,
}

// In the order in which they stand.
pub const SECTIONS: [Section; 3] = [Section::Squares, Section::Powers, Section::Triples];

// The words of a trailer.
pub const TRAILER: usize = 7;

// The words of the last group, behind the triples in their section.
const LAST_GROUP: usize = 7;

// The words of a block that is looked at as one.
const BLOCK: usize = 256;

// What a trailer says of a tape beside its width: the pair, the box and the tape number.
#[derive(Clone, Copy, Debug, PartialEq, Eq)]
pub struct Label {
    pub pair: u32,
    pub side: u32,
    pub number: u32,
}

// Its place among them.
fn place_of(section: Section) -> usize
    ensures { result ≡ place section }
{
    section as usize
}

// The words of a section.
#[tactic(auto, using(crate::proofs::Sizes::small))]
pub fn section_words(n: Width, section: Section) -> usize
    ensures { result ≡ section_length n.bits (place section) }
{
    let m = n.bits as usize;
    match section {
        Section::Squares => 3 * (m * m) * 2,
        Section::Powers => 3 * m * (m + 1),
        Section::Triples => (3 * m + 6) * 3 + LAST_GROUP,
    }
}

// The words before a section.
#[tactic(auto, using(crate::proofs::Sizes::small))]
pub fn section_start(n: Width, section: Section) -> usize
    ensures { result ≡ section_start n.bits (place section) }
{
    match section {
        Section::Squares => 0,
        Section::Powers => section_words(n, Section::Squares),
        Section::Triples => section_words(n, Section::Squares) + section_words(n, Section::Powers),
    }
}

// The words of the body: all of the sections.
#[tactic(auto, using(crate::proofs::Sizes::small))]
pub fn body_words(n: Width) -> usize
    ensures { result ≡ body_length n.bits }
{
    section_start(n, Section::Triples) + section_words(n, Section::Triples)
}

// The words of a tape.
#[tactic(auto, using(crate::proofs::Sizes::small))]
pub fn tape_words(n: Width) -> usize
    ensures { result ≡ tape_length n.bits }
{
    body_words(n) + TRAILER
}

// The distance back from the trailer's first word to a section.
#[tactic(auto, using(crate::proofs::Sizes::small))]
fn distance_back(n: Width, section: Section) -> u32
    ensures { result ≡ distance_back n.bits (place section) }
{
    (body_words(n) - section_start(n, section)) as u32
}

// The seven words after the body: the distances back to the sections, then whose tape it is.
pub fn trailer_of(n: Width, label: Label) -> [u32; 7]
    ensures { result ≡ trailer n.bits label.pair label.side label.number }
{
    [
        distance_back(n, Section::Squares),
        distance_back(n, Section::Powers),
        distance_back(n, Section::Triples),
        label.pair,
        label.side,
        label.number,
        n.bits,
    ]
}

// Whether the last seven words are the trailer.
fn trailer_fits(tape: &[u32], n: Width, label: Label) -> bool
    requires { length tape.now ≡ tape_length n.bits }
    ensures { result ≡ trailer_fits n.bits label.pair label.side label.number tape.now }
{
    let trailer = trailer_of(n, label);
    tape[tape.len() - TRAILER..] == trailer[..]
}

// How many words stand before the first block that has a word of p or more. A block is looked at as one, without an exit, so that several of its
// words are read at a time.
fn passed(n: Width, words: &[u32]) -> usize
    ensures within { result ≤ length words.now }
    ensures below { (k : ℕ) → k < result → get_or words.now k 0 < modulus n.bits }
{
    let mut passed = 0;
    for block in words.chunks(BLOCK) {
        if !n.contains_all(block) {
            break;
        }
        passed += block.len();
    }
    passed
}

// Whether every word of the body is below p. Reading ends at the first that is not, but for the rest of its block.
fn body_in_range(tape: &[u32], n: Width) -> bool
    requires { length tape.now ≡ tape_length n.bits }
    ensures { result ≡ body_in_range n.bits tape.now }
{
    let mut all = true;
    let mut from = 0;
    'sections: for section in SECTIONS {
        let end = from + section_words(n, section);
        let words = &tape[from..end];
        for &word in &words[passed(n, words)..] {
            if !n.contains(word) {
                all = false;
                break 'sections;
            }
        }
        from = end;
    }
    all
}

// Whether the tape is in order for this width, pair, side and number, which may be any: a state may have a width that is not listed, and a Width would ask
// more of callers.
pub fn in_order(tape: &[u32], n: u32, label: Label) -> bool
    ensures { result ≡ in_order n label.pair label.side label.number tape.now }
{
    let Some(n) = Width::new(n) else {
        return false;
    };
    if !shares::is_side(label.side) {
        return false;
    }
    if tape.len() != tape_words(n) {
        return false;
    }
    if !trailer_fits(tape, n, label) {
        return false;
    }
    body_in_range(tape, n)
}

// A section, as the part of the tape that the trailer's distance points back to.
pub fn section_of(tape: &[u32], n: Width, which: Section) -> &[u32]
    requires { Readable n.bits tape.now }
    ensures { result.now ≡ section n.bits (place which) tape.now }
{
    let trailer = tape.len() - TRAILER;
    let start = trailer - tape[trailer + place_of(which)] as usize;
    let end = start + section_words(n, which);
    &tape[start..end]
}
