// Tapes for programs that run both boxes in one memory: the trailer of any tape, and the plain tapes of document 01's plainrun.
#![tactic(auto)]

ghost use Rattle.std.specs.Prelude.{◌≡◌, ◌≤◌, length};
ghost use Rattle.std.proofs.lemmas.List.Edits.{sets};
ghost use Rattle.lists.specs.Tabulate.{tabulate};
ghost use Rattle.tape.specs.Layout.{body_length, tape_length, trailer as tail};
ghost use Rattle.tape.specs.Plain.{plain_word, plain_tape};

use field::Width;
use tape::{Label, Section};

// The box whose power words are 1 on a plain tape.
const ONES_AT: u32 = 1;

// The seven words after the body.
pub fn trailer(n: Width, label: Label, tape: &mut [u32])
    requires { tape_length n.bits ≤ length tape.old }
    ensures { tape.new ≡ sets tape.old (body_length n.bits) (tail n.bits label.pair label.side label.number) }
{
    let body = tape::body_words(n);
    let words = tape::trailer_of(n, label);
    tape[body..body + tape::TRAILER].copy_from_slice(&words);
}

// The body of a plain tape: box 1's power words are 1, all others 0.
fn plain_body(n: Width, side: u32, tape: &mut [u32])
    requires { tape_length n.bits ≤ length tape.old }
    ensures { tape.new ≡ sets tape.old 0 (tabulate (body_length n.bits) (plain_word n.bits side)) }
{
    let from = tape::section_start(n, Section::Powers);
    let to = tape::section_start(n, Section::Triples);
    let body = tape::body_words(n);
    tape[..body].fill(0);
    if side == ONES_AT {
        tape[from..to].fill(1);
    }
}

// The plain tape of a box.
pub fn plain(n: Width, label: Label, tape: &mut [u32])
    requires { length tape.old ≡ tape_length n.bits }
    ensures { tape.new ≡ plain_tape n.bits label.pair label.side label.number }
{
    plain_body(n, label.side, &mut *tape);
    trailer(n, label, tape);
}
