// Marsaglia's 32-bit xorshift generator, and words drawn from it.
#![tactic(auto)]

ghost use Rattle.std.specs.Prelude.{◌≡◌, suc, length};
ghost use Rattle.lists.specs.Tabulate.{tabulate};
ghost use Rattle.draws.specs.Draws.{next, draw, word};

use field::Width;

// The next draw.
#[tactic(auto, unfolding(crate::specs::Draws::next))]
pub fn next(v: u32) -> u32
    ensures { result ≡ next v }
{
    let a = v ^ (v << 13);
    let b = a ^ (a >> 17);
    b ^ (b << 5)
}

// Fills a slice with the next draws, each modulo p. Answers the last draw.
pub fn fill(n: Width, v: u32, words: &mut [u32]) -> u32
    ensures value { result ≡ draw v (length words.old) }
    ensures filled { words.new ≡ tabulate (length words.old) (λ j. word n.bits v (suc j)) }
{
    let mut last = v;
    for word in words.iter_mut() {
        last = next(last);
        *word = n.reduce(last);
    }
    last
}
