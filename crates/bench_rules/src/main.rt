//! Measures the rules of the game: `bench_rules CASE NUMBER` prints what it counted, which is the same at each run; the time
//! or the instructions are taken from outside. `attacked` and `play` ask NUMBER times for the attacked squares and the
//! moves of a position in the middle of a game; `count` counts the games of NUMBER plies from the initial array, or
//! from the position of a FEN behind it.
#![tactic(auto)]

mod attacks;
mod counts;
mod fault;

use crate::fault::Fault;
use std::alloc::Global;
use std::env;

// What a case counts.
fn measured(alloc: Global, case: &str, number: u64, fen: Option<&str>) -> Result<u64, Fault> {
    match case {
        "attacked" => Ok(attacks::attacked(number)),
        "play" => attacks::played(alloc, number),
        "count" => counts::games(alloc, number, fen),
        _ => Err(Fault::Usage),
    }
}

// The gate's run: each case once, a few rounds of it.
const SMALL: [(&str, u64); 3] = [("attacked", 1), ("play", 2), ("count", 3)];

fn print_small(rt: &HostRuntime) -> anyhow::Result<()> {
    for (case, number) in SMALL {
        let counted = measured(rt.alloc(), case, number, None)?;
        println!(rt; "{case} {number}: {counted}")?;
    }
    Ok(())
}

fn main(rt: HostRuntime) -> anyhow::Result<()> {
    let mut words = env::args(&rt)?.skip(1);
    let Some(case) = words.next() else {
        return print_small(&rt);
    };
    let number = words.next().and_then(|word| word.as_str().parse().ok());
    let fen = words.next();
    let fen = fen.as_ref().map(|word| word.as_str());
    let Some(number) = number else {
        return Err(Fault::Usage)?;
    };
    let counted = measured(rt.alloc(), case.as_str(), number, fen)?;
    println!(rt; "{case} {number}: {counted}")?;
    Ok(())
}
