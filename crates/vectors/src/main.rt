// Runs the jobs and test deals of data/, worked out by an independent model, and says which agree in every word: jobs of a single comparison by their tape
// numbers, jobs of several joined (document 02, P9), bands (P10) and deals by the numbers that their texts name. The jobs run twice: the second time every
// zero of a message comes to the other box as p (P3), and how many there were is said.
#![tactic(auto)]

ghost use Rattle.vectors.specs.Deal.{AgreeingDeal};
ghost use Rattle.vectors.specs.Sent.{Agreeing};

mod data;
mod deal;
mod head;
mod job;
mod numbers;
mod single;
mod spelling;

use crate::head::Form;
use crate::job::Agreement;
use crate::spelling::Spelling;
use field::Width;
use output::Onward;
use rules::state::Task;
use std::io;
use std::rt::Files;

// How the line of a width begins: what is tried.
fn tell_width(rt: &impl Print, n: Width, spelling: Spelling) -> io::Result<()> {
    print!(rt; "width {}", n.bits)?;
    if spelling == Spelling::Respelled {
        print!(rt; ", every zero spelled {}", n.modulus())?;
    }
    print!(rt; ": tapes")
}

// How a line ends: how many zeros were respelled, where they were to be.
fn tell_zeros(rt: &impl Print, spelling: Spelling, zeros: u64) -> io::Result<()> {
    if spelling == Spelling::Respelled {
        print!(rt; ", zeros respelled: {zeros}")?;
    }
    println!(rt)
}

fn run_width(
    files: &impl Files,
    rt: &impl Print,
    n: Width,
    count: u8,
    spelling: Spelling,
) -> io::Result<()> {
    tell_width(rt, n, spelling)?;
    let mut agreed: u64 = 0;
    let mut zeros: u64 = 0;
    for k in 0..count {
        if let Some(told) = single::compared_with(files, n.bits, k + 1, spelling) {
            print!(rt; " {}", told.first)?;
            agreed += 1;
            zeros += told.zeros as u64;
        }
    }
    print!(rt; ", {agreed} of {count} jobs agree")?;
    tell_zeros(rt, spelling, zeros)
}

// Every job of a single comparison: the words go from box to box as they are, or every zero spelled p.
fn run_widths(files: &impl Files, rt: &impl Print, spelling: Spelling) -> io::Result<()> {
    for (n, count) in Width::all().into_iter().zip([5, 4, 3, 2, 2, 2, 2]) {
        run_width(files, rt, n, count, spelling)?;
    }
    Ok(())
}

// What is asked of a job: how many comparisons, or a band's bounds.
fn tell_task(rt: &impl Print, task: Task) -> io::Result<()> {
    match task {
        Task::Compare(count) => print!(rt; "count {count}"),
        Task::Band(low, high) => print!(rt; "bounds {low} and {high}"),
    }
}

// Says that a job agrees, and which: only of one that does, in a text of that form.
fn tell_job(rt: &impl Print, form: Form, told: Agreement, spelling: Spelling) -> io::Result<()>
    requires { Agreeing form spelling told }
{
    print!(rt; ": width {}, tapes from {}, ", told.n, told.first)?;
    tell_task(rt, told.task)?;
    print!(rt; ": every word agrees")?;
    tell_zeros(rt, spelling, told.zeros as u64)
}

fn run_job(
    files: &impl Files,
    rt: &impl Print,
    name: &str,
    form: Form,
    spelling: Spelling,
) -> io::Result<()> {
    print!(rt; "{name}")?;
    match job::compared_with(files, name.as_bytes(), form, spelling) {
        Some(told) => tell_job(rt, form, told, spelling),
        None => println!(rt; ": does not agree"),
    }
}

// Every job of several comparisons joined, in the same two ways.
fn run_all_joined(files: &impl Files, rt: &impl Print, spelling: Spelling) -> io::Result<()> {
    for name in [
        "joined-03-1.txt",
        "joined-03-8.txt",
        "joined-05-3.txt",
        "joined-07-4.txt",
        "joined-13-2.txt",
        "joined-31-2.txt",
    ] {
        run_job(files, rt, name, Form::Joined, spelling)?;
    }
    Ok(())
}

// Every band, in the same two ways.
fn run_all_bands(files: &impl Files, rt: &impl Print, spelling: Spelling) -> io::Result<()> {
    for name in [
        "band-03-1.txt",
        "band-03-2.txt",
        "band-03-3.txt",
        "band-03-4.txt",
        "band-03-5.txt",
        "band-05-6.txt",
        "band-07-7.txt",
        "band-13-8.txt",
        "band-31-9.txt",
    ] {
        run_job(files, rt, name, Form::Band, spelling)?;
    }
    Ok(())
}

// Says that a deal agrees, and which: only of one that does.
fn tell_deal(rt: &impl Print, told: deal::Deal) -> io::Result<()>
    requires { AgreeingDeal told }
{
    println!(rt;
        ": width {}, seed {}, pair {}, tape {}: both tapes agree",
        told.width, told.seed, told.pair, told.number
    )
}

fn run_deal(files: &impl Files, rt: &impl Print, name: &str) -> io::Result<()> {
    print!(rt; "{name}")?;
    match deal::compared_with(files, name.as_bytes()) {
        Some(told) => tell_deal(rt, told),
        None => println!(rt; ": does not agree"),
    }
}

fn main(rt: HostRuntime) -> io::Result<()> {
    let files = &rt;
    let rt = Onward { to: files };
    run_widths(files, &rt, Spelling::AsSent)?;
    run_widths(files, &rt, Spelling::Respelled)?;
    run_all_joined(files, &rt, Spelling::AsSent)?;
    run_all_joined(files, &rt, Spelling::Respelled)?;
    run_all_bands(files, &rt, Spelling::AsSent)?;
    run_all_bands(files, &rt, Spelling::Respelled)?;
    run_deal(files, &rt, "deal-03-1.txt")?;
    run_deal(files, &rt, "deal-03-4294967295.txt")?;
    run_deal(files, &rt, "deal-05-2463534242.txt")?;
    run_deal(files, &rt, "deal-07-1984.txt")?;
    run_deal(files, &rt, "deal-13-3735928559.txt")?;
    run_deal(files, &rt, "deal-31-2.txt")
}
