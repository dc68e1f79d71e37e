// What is printed: a label, what a call answered, and whether a refusal left all as it was.
use crate::answers::Answer;
use crate::calls::Tried;
use refusals::Refusal;
use rules::state::{Batch, Task};
use std::fmt::Display;
use std::io;

// Each of the bytes, in decimal.
pub fn bytes(rt: &impl Print, list: &[u8]) -> io::Result<()> {
    for byte in list {
        print!(rt; " {byte}")?;
    }
    Ok(())
}

pub fn words(rt: &impl Print, list: &[u32]) -> io::Result<()> {
    for word in list {
        print!(rt; " {word}")?;
    }
    Ok(())
}

// What a state holds of a job.
pub fn batch(rt: &impl Print, batch: Batch) -> io::Result<()> {
    print!(rt; " first {}, ", batch.first)?;
    match batch.task {
        Task::Compare(count) => print!(rt; "count {count}, x")?,
        Task::Band(low, high) => print!(rt; "bounds {low} {high}, x")?,
    }
    words(rt, &batch.x)?;
    print!(rt; ", y")?;
    words(rt, &batch.y)
}

// What was answered, in words.
pub fn answer(rt: &impl Print, answer: Answer) -> io::Result<()> {
    match answer {
        Ok(said) => print!(rt; "{said}"),
        Err(refusal) => print!(rt; "refused {}", u32::from(refusal)),
    }
}

// A line of its own.
pub fn whole_line<T: Display + Drop>(
    rt: &impl Print,
    label: &str,
    answer: Result<T, Refusal>,
    kept: bool,
) -> io::Result<()> {
    match answer {
        Ok(said) => println!(rt; "{label}{said}"),
        Err(refusal) => {
            let left = if kept { "nothing changed" } else { "CHANGED" };
            println!(rt; "{label}refused {}, {left}", u32::from(refusal))
        }
    }
}

// In a line with others: a refusal is its number alone.
pub fn in_line<T: Display + Drop>(
    rt: &impl Print,
    answer: Result<T, Refusal>,
    kept: bool,
) -> io::Result<()> {
    match answer {
        Ok(said) => print!(rt; " {said}"),
        Err(refusal) => {
            let left = if kept { "" } else { "CHANGED " };
            print!(rt; " {left}{}", u32::from(refusal))
        }
    }
}

pub fn line(rt: &impl Print, label: &str, tried: Tried) -> io::Result<()> {
    whole_line(rt, label, tried.answer, tried.kept)
}

pub fn short(rt: &impl Print, tried: Tried) -> io::Result<()> {
    in_line(rt, tried.answer, tried.kept)
}
