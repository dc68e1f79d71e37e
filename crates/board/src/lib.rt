// A link board that spells every zero of a message as p (document 02, P3).
#![tactic(auto)]

ghost use Rattle.std.specs.Prelude.{◌≡◌, true};
ghost use Rattle.shares.specs.Reading.{delivered};
ghost use Rattle.board.specs.Zeros.{zeros_in};

use field::Width;

// The word that has a second spelling.
const ZERO: u32 = 0;

// Respells a message, and answers how many zeros it had.
pub fn respell(n: Width, words: &mut [u32]) -> usize
    ensures value { result ≡ zeros_in words.old }
    ensures respelled { words.new ≡ delivered n.bits (λ i. true) words.old }
{
    let p = n.modulus();
    let mut zeros = 0;
    for word in words.iter_mut() {
        if *word == ZERO {
            *word = p;
            zeros += 1;
        }
    }
    zeros
}
