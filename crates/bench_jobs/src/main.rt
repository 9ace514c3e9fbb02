//! Measures the jobs that users wait for, each through the calls that the program makes of them: `bench_jobs JOB
//! SEED SIZE` makes its own input from the seed, about as much of it as the size says, and prints the job, the
//! seed, the size and a digest of all that was answered, the same at each run; the time is taken from outside
//! (bench/run). With no words it does a little of each.
//!
//! | Job | Its size |
//! |---|---|
//! | `search` | nodes that the searches visit |
//! | `certificates` | bytes of the certificates that are checked, explained and shown |
//! | `cooks` | nodes that the led searches visit |
//! | `lists` | games that are read |
//! | `counts` | positions whose games are counted |
//! | `journeys` | positions of games that are asked, with their children |
#![tactic(auto)]

mod certificates;
mod cooks;
mod counts;
mod dice;
mod digest;
mod fault;
mod games;
mod journeys;
mod lists;
mod searches;
mod settled;
mod texts;

use crate::dice::Dice;
use crate::digest::Digest;
use crate::fault::Fault;
use std::env;

// Does a job of this size, on input made from this seed.
fn print_job(rt: &HostRuntime, job: &str, seed: u64, size: u64) -> anyhow::Result<()> {
    let mut dice = Dice::new(seed);
    let mut digest = Digest::new();
    let alloc = rt.alloc();
    match job {
        "search" => searches::run(alloc, &mut dice, size, &mut digest)?,
        "certificates" => certificates::run(alloc, &mut dice, size, &mut digest)?,
        "cooks" => cooks::run(alloc, &mut dice, size, &mut digest)?,
        "lists" => lists::run(alloc, &mut dice, size, &mut digest)?,
        "counts" => counts::run(alloc, &mut dice, size, &mut digest)?,
        "journeys" => journeys::run(alloc, &mut dice, size, &mut digest)?,
        _ => return Err(Fault::Usage)?,
    }
    let (value, bytes) = digest.value();
    println!(rt; "{job} {seed} {size}: {value:016x} of {bytes} bytes")?;
    Ok(())
}

// The gate's run: a little of each job.
const SMALL: [(&str, u64); 6] = [
    ("search", 20_000),
    ("certificates", 4_000),
    ("cooks", 3_000),
    ("lists", 1),
    ("counts", 1),
    ("journeys", 16),
];

fn main(rt: HostRuntime) -> anyhow::Result<()> {
    let mut words = env::args(&rt)?.skip(1);
    let Some(job) = words.next() else {
        for (job, size) in SMALL {
            print_job(&rt, job, 1, size)?;
        }
        return Ok(());
    };
    let seed = words.next().and_then(|word| word.as_str().parse().ok());
    let size = words.next().and_then(|word| word.as_str().parse().ok());
    let (Some(seed), Some(size)) = (seed, size) else {
        return Err(Fault::Usage)?;
    };
    print_job(&rt, job.as_str(), seed, size)
}
