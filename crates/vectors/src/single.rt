// The files of jobs of a single comparison.
ghost use Rattle.std.specs.Prelude.{◌≡◌, length, IfSome};
ghost use Rattle.vectors.specs.declared.head.Form.TheVariants.{Single};
ghost use Rattle.vectors.specs.Job.{name_of};
ghost use Rattle.vectors.specs.Sent.{Agreeing};

use crate::head::Form;
use crate::job::{self, Agreement};
use crate::spelling::Spelling;
use std::rt::Files;

// The file of a width's job: job-WW-K.txt.
fn name_of(w: u32, k: u8) -> [u8; 12]
    ensures { (length result ≡ 12) × (result ≡ name_of w k) }
{
    let mut name = *b"job-00-0.txt";
    name[4] += (w / 10 % 10) as u8;
    name[5] += (w % 10) as u8;
    name[7] += k % 10;
    name
}

// Of such a file whose text is of this width and agrees.
pub fn compared_with(rt: &impl Files, w: u32, k: u8, spelling: Spelling) -> Option<Agreement>
    ensures { IfSome result (λ told. Agreeing Single spelling told × (told.n ≡ w)) }
{
    let told = job::compared_with(rt, &name_of(w, k), Form::Single, spelling)?;
    if told.n != w {
        return None;
    }
    Some(told)
}
