// What a filling leaves in each place of out, against round 1's message.
ghost use Rattle.std.specs.Prelude.{◌≡◌, true, ◌≤◌, eqb, length};
ghost use Rattle.std.specs.List.{list_all};
ghost use Rattle.fills.specs.Due.{filler, blank, as_due};
ghost use Rattle.fills.specs.Fillings.{message_of, fill_agrees};

use compare::Party;

// What out holds at first: no word of a message.
const FILLER: u32 = 4294967295;

// The message, as speak puts it at the front of a buffer that has just its length: the first words of room for the longest.
#[tactic(auto, using(tape::proofs::Sizes::small, protocol::proofs::Lengths::words_most, crate::proofs::Fillings::spoken_whole))]
pub fn spoken<'a>(party: Party, room: &'a mut [u32; 2889]) -> &'a [u32]
    ensures { result.now ≡ message_of party.entry }
{
    let work = [0u32; 436];
    let words = &mut room[..compare::words::words_of(party.n, 1)];
    party.speak(1, &work, &mut *words);
    words
}

// Whether every place of out holds what it must once the last `count` words are filled in: those words in their places, and else the filler.
#[tactic(auto, using(crate::proofs::Parts::parts_due))]
fn as_due(out: &[u32], words: &[u32], count: usize) -> bool
    requires { (count ≤ length words.now) × (length words.now ≤ length out.now) }
    ensures { result ≡ as_due out.now words.now count }
{
    let from = words.len() - count;
    let (message, after) = out.split_at(words.len());
    let (before, filled) = message.split_at(from);
    is_blank(before) && filled == &words[from..] && is_blank(after)
}

// Whether nothing was written to these places.
fn is_blank(places: &[u32]) -> bool
    ensures { result ≡ list_all (λ word. eqb word filler) places.now }
{
    places.iter().all(|&word| word == FILLER)
}

// Room for the longest message and three words more, so that one put behind a message shows.
#[tactic(auto, unfolding(crate::specs::Due::blank))]
fn blank_words() -> [u32; 2892]
    ensures { (length result ≡ 2892) × (result ≡ blank 2892) }
{
    [FILLER; 2892]
}

// Whether a filling of that many words leaves every place of out so, none of which was written to before.
#[tactic(auto, using(protocol::proofs::Lengths::words_most, crate::proofs::Fillings::words_length, crate::proofs::Fillings::all_agree, crate::proofs::Due::blank_length, crate::proofs::Due::blank_cut), unfolding(crate::specs::Fillings::fill_agrees))]
pub fn agrees(party: Party, words: &[u32], count: usize) -> bool
    requires { (words.now ≡ message_of party) × (count ≤ length words.now) }
    ensures value { result ≡ fill_agrees party.entry count }
    ensures all { result ≡ true }
{
    let mut room = blank_words();
    let out = &mut room[..words.len() + 3];
    party.fill(count, &mut *out);
    as_due(out, words, count)
}
