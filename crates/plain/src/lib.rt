// Document 01's plainrun, from a text to what it prints.
#![tactic(auto)]

ghost use Rattle.std.specs.Prelude.{◌≡◌, ◌+◌, ◌≤◌, length, take};
ghost use Rattle.lines.specs.Pages.{HasRoom, Puts};
ghost use Rattle.plain.specs.Printed.{answer_text, text_for, printed};

use exchange::Shares;
use field::Width;
use lines::writing::Page;
use refusals::Refusal;

mod job;

// Memory is set aside for no width above this.
const WIDEST: u32 = 13;

// The text's first line is n x1 x2 y1 y2.
#[tactic(auto, using(crate::proofs::Texts::texts, std::proofs::lemmas::Option::cond_some))]
fn put_printed(page: &mut Page<'_>, text: &[u8])
    requires { HasRoom page.old 78 }
    ensures puts { Puts page.old page.new (printed text.now) }
    ensures most { page.new.len ≤ page.old.len + 78 }
{
    let Some(numbers) = lines::reading::numbers_of::<5>(text) else {
        return page.put_refused(0);
    };
    let [n, x1, x2, y1, y2] = numbers;
    put_job(page, n, Shares { x: x1, y: y1 }, Shares { x: x2, y: y2 });
}

// The answer to a job of any width: one that is not listed, or too wide, is refused here.
#[tactic(auto, using(crate::proofs::Texts::texts))]
fn put_job(page: &mut Page<'_>, n: u32, box1: Shares, box2: Shares)
    requires { HasRoom page.old 78 }
    ensures puts { Puts page.old page.new (text_for n box1.x box2.x box1.y box2.y) }
    ensures most { page.new.len ≤ page.old.len + 78 }
{
    let Some(width) = Width::new(n).filter(|width| width.bits <= WIDEST) else {
        return page.put_refused(u32::from(Refusal::Width));
    };
    match job::less(width, box1, box2) {
        Ok(less) => put_answer(page, width, less),
        Err(refusal) => page.put_refused(u32::from(refusal)),
    }
}

// The words of each round of a job, and the answer.
fn put_answer(page: &mut Page<'_>, n: Width, less: u32)
    requires { HasRoom page.old 78 }
    ensures puts { Puts page.old page.new (answer_text n.bits less) }
    ensures most { page.new.len ≤ page.old.len + 78 }
{
    page.put_row(b"rounds", &needs::one_job(n).rounds);
    page.put_named(b"less ", less);
}

// What is printed for a text, put at the front of lent room: none is longer than 78 bytes.
// Its length is answered, and not the slice of it: then the clauses say what the room holds.
// As plan has it, but for the function and the room: one for both would take a closure, and say over it the clauses of put_printed.
#[tactic(auto, using(lines::proofs::Runs::read_back))]
pub fn answer(text: &[u8], out: &mut [u8]) -> usize
    requires { 78 ≤ length out.old }
    ensures out_after { take result out.new ≡ printed text.now }
    ensures long { result ≡ length (printed text.now) }
    ensures most { result ≤ 78 }
{
    let mut page = Page::new(out);
    put_printed(&mut page, text);
    page.len
}
