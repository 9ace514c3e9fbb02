//! Measures what stands on the rules. `bench_checks CASE NUMBER` prints what NUMBER rounds of a case counted, which is
//! the same at each run; the time or the instructions are taken from outside. The cases are those of `measured`.
//! `bench_checks cooks GAME NODES [FOREIGN]` looks for another game to the diagram on which a game ends, and prints how
//! long it is, how many foreign moves it has at most, and how many nodes were visited.
//! `bench_checks chance SEED MOVES COUNT [SLACK]` prints COUNT problems, a diagram and a length each, on which games of
//! MOVES moves end that are drawn by that seed, mostly of men who have moved before, as in problems that somebody
//! composed. With SLACK the bound by journeys excludes after each ply all games that are shorter by more plies.
//! `bench_checks search DIAGRAM LENGTH NODES` searches for the games of a problem and prints their number and the
//! certificate's bytes and records; `journeys` behind it cuts by journeys too, and `check` has the certificate checked
//! first. `bench_checks table` does both for twelve problems, and for the last one by journeys too.
#![tactic(auto)]

mod bounds;
mod chance;
mod checking;
mod cooks;
mod fault;
mod needs;
mod records;
mod searching;
mod transposed;

use crate::chance::Wanted;
use crate::fault::Fault;
use crate::needs::Part;
use crate::searching::Asked;
use std::alloc::Global;
use std::env;

// What `number` rounds of a case count.
fn measured(alloc: Global, case: &str, number: u32) -> anyhow::Result<u64> {
    let rounds = u64::from(number);
    Ok(match case {
        "travel" => bounds::travel(alloc, rounds)?,
        "travel-prices" => bounds::travel_prices(alloc, rounds)?,
        "pawn-prices" => bounds::pawn_prices(rounds)?,
        "matrices" => needs::assignments(rounds, false),
        "assignments" => needs::assignments(rounds, true),
        "positions" => needs::needs(alloc, rounds, Part::Nothing)?,
        "first-needs" => needs::needs(alloc, rounds, Part::First)?,
        "needs" => needs::needs(alloc, rounds, Part::All)?,
        "records" => records::read(alloc, number)?,
        "price-records" => records::read_priced(alloc, number)?,
        "expansions" => checking::expansions(alloc, number)?,
        "full" => checking::full(alloc, number)?,
        "references" => checking::references(alloc, number)?,
        "near" => checking::near(number)?,
        _ => return Err(Fault::Usage)?,
    })
}

// The gate's run: cases with a few rounds each, the table, and two problems by chance.
const SMALL: [(&str, u32); 7] = [
    ("travel", 2),
    ("travel-prices", 2),
    ("pawn-prices", 2),
    ("assignments", 1_000),
    ("needs", 32),
    ("records", 1_000),
    ("expansions", 1),
];

fn print_small(rt: &HostRuntime) -> anyhow::Result<()> {
    for (case, number) in SMALL {
        let counted = measured(rt.alloc(), case, number)?;
        println!(rt; "{case} {number}: {counted}")?;
    }
    searching::print_table(rt)?;
    for slack in [None, Some(1)] {
        chance::print_problems(rt, 1, Wanted { plies: 16, slack }, 1)?;
    }
    Ok(())
}

fn print_search(rt: &HostRuntime, words: &[String]) -> anyhow::Result<()> {
    let (Some(diagram), Some(length), Some(nodes)) = (words.get(2), words.get(3), words.get(4))
    else {
        return Err(Fault::Usage)?;
    };
    let Ok(nodes) = nodes.as_str().parse::<u64>() else {
        return Err(Fault::Usage)?;
    };
    let asked = Asked {
        nodes,
        by_journeys: words.iter().any(|word| word.as_str() == "journeys"),
        is_checked: words.iter().any(|word| word.as_str() == "check"),
    };
    searching::print_one(rt, diagram.as_str(), length.as_str(), asked)
}

fn print_cooks(rt: &HostRuntime, words: &[String]) -> anyhow::Result<()> {
    let (Some(game), Some(nodes)) = (words.get(2), words.get(3)) else {
        return Err(Fault::Usage)?;
    };
    let Ok(nodes) = nodes.as_str().parse::<u64>() else {
        return Err(Fault::Usage)?;
    };
    let foreign = words.get(4).and_then(|word| word.as_str().parse().ok());
    cooks::print_one(rt, game.as_str(), nodes, foreign)
}

fn print_chance(rt: &HostRuntime, words: &[String]) -> anyhow::Result<()> {
    let seed = words.get(2).and_then(|word| word.as_str().parse().ok());
    let moves = words.get(3).and_then(|word| word.as_str().parse().ok());
    let count = words.get(4).and_then(|word| word.as_str().parse().ok());
    let (Some(seed), Some(moves), Some(count)) = (seed, moves, count) else {
        return Err(Fault::Usage)?;
    };
    let moves: u8 = moves;
    let wanted = Wanted {
        plies: moves.saturating_mul(2),
        slack: words.get(5).and_then(|word| word.as_str().parse().ok()),
    };
    chance::print_problems(rt, seed, wanted, count)
}

fn main(rt: HostRuntime) -> anyhow::Result<()> {
    let mut words = Vec::new(rt.alloc());
    for word in env::args(&rt)? {
        words.push(word)?;
    }
    let Some(case) = words.get(1) else {
        return print_small(&rt);
    };
    match case.as_str() {
        "table" => return searching::print_table(&rt),
        "search" => return print_search(&rt, words.as_slice()),
        "cooks" => return print_cooks(&rt, words.as_slice()),
        "chance" => return print_chance(&rt, words.as_slice()),
        _ => (),
    }
    let number = words.get(2).and_then(|word| word.as_str().parse().ok());
    let Some(number) = number else {
        return Err(Fault::Usage)?;
    };
    let counted = measured(rt.alloc(), case.as_str(), number)?;
    println!(rt; "{} {number}: {counted}", case.as_str())?;
    Ok(())
}
