// The planner's work, from a text to what it prints: how much so many jobs need (document 02, P8).
#![tactic(auto)]

ghost use Rattle.std.specs.Prelude.{◌≡◌, ◌+◌, ◌≤◌, length, take};
ghost use Rattle.lines.specs.Pages.{HasRoom, Puts};
ghost use Rattle.needs.specs.Figures.{figures_of};
ghost use Rattle.plan.specs.Printed.{figures_text, printed};

use lines::writing::Page;

// The three lines of figures; all of them take 94 bytes at most.
fn put_figures(page: &mut Page<'_>, needs: needs::Needs)
    requires { HasRoom page.old 94 }
    ensures puts { Puts page.old page.new (figures_text (figures_of needs)) }
    ensures most { page.new.len ≤ page.old.len + 94 }
{
    page.put_named(b"tape ", needs.tape);
    page.put_row(b"rounds", &needs.rounds);
    page.put_named(b"work ", needs.work);
}

// The text's first line is a width and a count.
#[tactic(auto, using(crate::proofs::Texts::texts, std::proofs::lemmas::Option::cond_some))]
fn put_printed(page: &mut Page<'_>, text: &[u8])
    requires { HasRoom page.old 94 }
    ensures puts { Puts page.old page.new (printed text.now) }
    ensures most { page.new.len ≤ page.old.len + 94 }
{
    let Some(numbers) = lines::reading::numbers_of::<2>(text) else {
        return page.put_refused(0);
    };
    match needs::words_for(numbers[0], numbers[1]) {
        Ok(needs) => put_figures(page, needs),
        Err(refusal) => page.put_refused(u32::from(refusal)),
    }
}

// What is printed for a text, put at the front of lent room: none is longer than 94 bytes.
// Its length is answered, and not the slice of it: then the clauses say what the room holds.
// As plain has it, but for the function and the room: one for both would take a closure, and say over it the clauses of put_printed.
#[tactic(auto, using(lines::proofs::Runs::read_back))]
pub fn answer(text: &[u8], out: &mut [u8]) -> usize
    requires { 94 ≤ length out.old }
    ensures out_after { take result out.new ≡ printed text.now }
    ensures long { result ≡ length (printed text.now) }
    ensures most { result ≤ 94 }
{
    let mut page = Page::new(out);
    put_printed(&mut page, text);
    page.len
}
