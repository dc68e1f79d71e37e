// Speak's grounds: 1, 6, 11, 10, 12.

ghost use Rattle.lists.specs.Tabulate.{tabulate};
ghost use Rattle.rules.specs.Calls.{speak_rule};
ghost use Rattle.rules.specs.declared.state.Turn.TheVariants.{Speak};
ghost use Rattle.walk.specs.Walk.{job_state, filler, Answered};

use crate::calls::{FILLER, Tried, speak};
use crate::five::speak_on;
use crate::say::line;
use crate::{states, tapes};
use rules::state::FIRST;
use std::io;

fn turns(rt: &impl Print) -> io::Result<()> {
    line(rt, "speak, asleep: ", speak_on(FIRST, 0, 1))?;
    line(rt, "speak, idle: ", speak_on(states::idle(), 0, 1))?;
    line(rt, "speak, number 1: ", speak_on(states::opened(), 1, 1))?;
    line(rt, "speak, round 0: ", speak_on(states::opened(), 0, 0))?;
    line(rt, "speak, round 2: ", speak_on(states::opened(), 0, 2))?;
    line(rt, "speak, hear 1 due: ", speak_on(states::spoken(), 0, 1))
}

// The speak that is due, lent this tape.
fn on_tape(tape: &[u32]) -> Tried
    ensures { Answered result (job_state 16 (Speak 1)) (filler 33) (speak_rule (job_state 16 (Speak 1)) 0 1 tape.now (tabulate 100 (λ k. 0)) (filler 33)) }
{
    let mut out = [FILLER; 33];
    speak(states::opened(), 0, 1, tape, &[0; 100], &mut out)
}

// The call that is due, this one or a hear, lent tapes that it refuses.
pub fn tapes_lent<F: Fn(&[u32]) -> Tried>(rt: &impl Print, call: &str, on_tape: F) -> io::Result<()>
    requires { F.IsAlwaysCallable on_tape }
{
    let short = tapes::short();
    let other = tapes::plain(2, 0);
    let high = tapes::changed(141, 7);
    for (what, tape) in [
        ("tape of 148 words", &short[..]),
        ("the other box's tape", &other),
        ("last body word 7", &high),
    ] {
        print!(rt; "{call}, {what}")?;
        line(rt, ": ", on_tape(tape))?;
    }
    Ok(())
}

fn rooms(rt: &impl Print) -> io::Result<()> {
    let tape = tapes::plain(1, 0);
    let mut out = [FILLER; 33];
    let mut short = [FILLER; 32];
    line(
        rt,
        "speak, work of 99 words: ",
        speak(states::opened(), 0, 1, &tape, &[0; 99], &mut out),
    )?;
    line(
        rt,
        "speak, out of 32 words: ",
        speak(states::opened(), 0, 1, &tape, &[0; 100], &mut short),
    )
}

pub fn lines(rt: &impl Print) -> io::Result<()> {
    turns(rt)?;
    tapes_lent(rt, "speak", on_tape)?;
    rooms(rt)
}
