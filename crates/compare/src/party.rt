// What one box has of a job, and the sections of its tape.
ghost use Rattle.std.specs.Prelude.{◌≡◌, true, ◌+◌, ◌*◌, ◌<◌, length};
ghost use Rattle.field.specs.Width.{modulus};
ghost use Rattle.shares.specs.Side.{is_side};
ghost use Rattle.tape.specs.Layout.{triple_count, section};
ghost use Rattle.tape.specs.Order.{Readable};

use field::Width;
use steps::levels::Powers;
use steps::products::Triples;
use steps::squares::Squares;
use tape::Section;

// A box in a job: its width, its side, its shares of x and y, its tape.
#[derive(Clone, Copy)]
pub struct Party<'a> {
    pub n: Width,
    pub side: u32,
    pub x: u32,
    pub y: u32,
    pub tape: &'a [u32],
    pub ghost sided: { is_side side ≡ true },
    pub ghost x_below: { x < modulus n.bits },
    pub ghost y_below: { y < modulus n.bits },
    pub ghost readable: { Readable n.bits tape.now },
}

impl<'a> Party<'a> {
    pub(crate) fn squares(self) -> Squares<'a>
        ensures width { result.n.bits ≡ self.entry.n.bits }
        ensures words { result.words.now ≡ section self.entry.n.bits 0 self.entry.tape.now }
    {
        Squares {
            n: self.n,
            words: tape::section_of(self.tape, self.n, Section::Squares),
        }
    }

    pub(crate) fn powers(self) -> Powers<'a>
        ensures width { result.n.bits ≡ self.entry.n.bits }
        ensures words { result.words.now ≡ section self.entry.n.bits 1 self.entry.tape.now }
    {
        Powers {
            n: self.n,
            words: tape::section_of(self.tape, self.n, Section::Powers),
        }
    }

    pub(crate) fn triples(self) -> Triples<'a>
        ensures width { result.n.bits ≡ self.entry.n.bits }
        ensures words { result.words.now ≡ section self.entry.n.bits 2 self.entry.tape.now }
        ensures long { length result.words.now ≡ triple_count self.entry.n.bits * 3 + 7 }
    {
        Triples {
            n: self.n,
            words: tape::section_of(self.tape, self.n, Section::Triples),
        }
    }
}
