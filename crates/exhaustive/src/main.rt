// Runs every input of widths 3 and 5 as a whole job of both boxes, and every band, and counts the answers that an ordinary comparison gives too.
#![tactic(auto)]

ghost use Rattle.std.specs.Prelude.{◌≤◌};

mod bands;
mod inputs;
mod tapes;

use field::Width;
use output::Onward;
use std::io;
use tapes::Source;

fn run(rt: &impl Print, name: &str, n: Width, source: Source, all: u64) -> io::Result<()>
    requires { n.bits ≤ 5 }
{
    let right = inputs::count(n, source);
    println!(rt; "{name}: {right} of {all} right")
}

fn run_bands(rt: &impl Print, name: &str, n: Width, all: u64) -> io::Result<()>
    requires { n.bits ≤ 5 }
{
    let right = bands::count(n);
    println!(rt; "{name}: {right} of {all} right")
}

// The cases that the request for bands has.
fn cases(rt: &impl Print) -> io::Result<()> {
    for a in 2..6 {
        let inside = bands::case(a);
        println!(rt; "width 3, bounds 2 and 5: {a} gives {inside}")?;
    }
    Ok(())
}

#[tactic(auto, unfolding(field::specs::Width::listed))]
fn main(rt: HostRuntime) -> io::Result<()> {
    let rt = Onward { to: &rt };
    let three = Width { bits: 3 };
    let five = Width { bits: 5 };
    run(&rt, "width 3, plain tapes", three, Source::Plain, 2401)?;
    run(&rt, "width 3", three, Source::Dealt, 2401)?;
    run(&rt, "width 5", five, Source::Dealt, 923521)?;
    cases(&rt)?;
    run_bands(&rt, "width 3, bands", three, 1029)?;
    run_bands(&rt, "width 5, bands", five, 446865)
}
