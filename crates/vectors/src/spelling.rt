// How the words of a message come to the other box.
ghost use Rattle.std.specs.Prelude.{◌≡◌};
ghost use Rattle.shares.specs.Reading.{delivered};
ghost use Rattle.vectors.specs.Sent.{respells, respelled_in};

use field::Width;

// As they were sent, or with every zero spelled p by a board between the boxes (document 02, P3).
#[derive(Clone, Copy, Debug, PartialEq, Eq)]
pub enum Spelling {
    AsSent,
    Respelled,
}

// A message on its way. Answers how many zeros were respelled.
pub fn carry(n: Width, words: &mut [u32], spelling: Spelling) -> usize
    ensures value { result ≡ respelled_in spelling words.old }
    ensures carried { words.new ≡ delivered n.bits (λ i. respells spelling) words.old }
{
    match spelling {
        Spelling::AsSent => 0,
        Spelling::Respelled => board::respell(n, words),
    }
}
