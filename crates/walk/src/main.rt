// Walks one pair of boxes of width 3 through every refusal at each call that can give it, through cuts and drops at every
// point of a job, through a whole job, and through its hears with 7, which is p, for 0; then through the same of starts of
// several jobs, and of bands; then the test dealer through its refusals, and prints what was answered.
#![tactic(auto)]

mod answers;
mod band_cuts;
mod band_job;
mod band_order;
mod band_outside;
mod band_starts;
mod calls;
mod cuts;
mod dealing;
mod five;
mod hears;
mod job;
mod job_steps;
mod joined_cuts;
mod joined_drops;
mod joined_grounds;
mod joined_job;
mod joined_order;
mod joined_outside;
mod joined_starts;
mod joined_turns;
mod memory;
mod one_by_one;
mod order;
mod outside;
mod progress;
mod say;
mod speaks;
mod starts;
mod states;
mod sweeps;
mod tallies;
mod tapes;
mod wakes;
mod zeros;

use output::Onward;
use std::io;

fn main(rt: HostRuntime) -> io::Result<()> {
    let rt = Onward { to: &rt };
    wakes::lines(&rt)?;
    starts::lines(&rt)?;
    speaks::lines(&rt)?;
    hears::lines(&rt)?;
    sweeps::lines(&rt)?;
    order::lines(&rt)?;
    outside::lines(&rt)?;
    cuts::lines(&rt)?;
    job::lines(&rt)?;
    zeros::lines(&rt)?;
    joined_starts::lines(&rt)?;
    joined_grounds::lines(&rt)?;
    joined_turns::lines(&rt)?;
    joined_order::lines(&rt)?;
    joined_outside::lines(&rt)?;
    joined_cuts::lines(&rt)?;
    joined_drops::lines(&rt)?;
    joined_job::lines(&rt)?;
    one_by_one::lines(&rt)?;
    band_starts::lines(&rt)?;
    band_order::lines(&rt)?;
    joined_turns::of_jobs(&rt, "a band", states::band())?;
    band_outside::lines(&rt)?;
    band_cuts::lines(&rt)?;
    band_job::lines(&rt)?;
    dealing::lines(&rt)
}
