//! Tries the checker with certificates, lists and limits that were made wrong by a fixed rule.
//! `trial_by_mutation NAME MUTANTS ..` reads the cases of these names, whose certificates must be
//! accepted, and makes MUTANTS mutants of each: bytes changed, put in or taken out, records left
//! out, put in twice, swapped, taken from another case or made references or cuts, certificates
//! spliced, all that is left cut, nodes named or not, games left out or added, another length,
//! lower limits. Each check must return. A yes must come with the list that is known to be exact
//! alone, and within the limits; a game that is told must be one that is missing. One byte a call
//! must give the same answer, and where a read fails, that answer or `Read`. Prints how often each
//! answer came, the same at each run; the answers where a read fails are counted apart. Anything
//! else ends with a line on standard error and status 1.
#![tactic(auto)]

mod case;
mod dice;
mod lists;
mod mutant;
mod refusal;
mod tally;
mod verdict;

use crate::case::{Case, read_case};
use crate::dice::Dice;
use crate::mutant::{Mutant, make_mutant};
use crate::refusal::Refusal;
use crate::tally::Tally;
use crate::verdict::{answer_at_once, answer_failing, is_same_by_bytes, judge};
use pg_captures::{Bound, Captures, Promotions};
use pg_checker::Fault;
use pg_pawns::PawnFiles;
use pg_travel::Travel;
use std::alloc::{AllocError, Global};
use std::env;

// A case and how many mutants are made of it.
#[derive(Drop)]
struct Task {
    case: Case,
    rounds: usize,
}

// How often each answer came, with all bytes to be had and where a read fails.
#[derive(Clone, Copy, Debug)]
struct Tallies {
    whole: Tally,
    failing: Tally,
}

// Whether a case's own certificate is accepted.
fn is_accepted(alloc: Global, case: &Case, bounds: &[Box<dyn Bound>]) -> Result<bool, AllocError> {
    let own = Mutant::of(case, Vec::from_slice(alloc, case.bytes.as_slice())?);
    Ok(answer_at_once(alloc, case, &own, bounds).is_ok())
}

// Tries one mutant: at once, by one byte a call, and one time in four with a read that fails.
fn try_mutant(
    alloc: Global,
    dice: &mut Dice,
    case: &Case,
    mutant: &Mutant,
    bounds: &[Box<dyn Bound>],
    at: (usize, usize),
    tallies: &mut Tallies,
) -> Result<(), Refusal> {
    let told = answer_at_once(alloc, case, mutant, bounds);
    judge(case, mutant, &told, at)?;
    tallies.whole.add(&told);
    if !is_same_by_bytes(alloc, case, mutant, bounds, &told) {
        return Err(Refusal::OneByte(at.0, at.1));
    }
    if dice.below(4) == 0 {
        let call = u64::try_from(dice.below(mutant.bytes.len())).unwrap_or(0);
        let failing = answer_failing(alloc, case, mutant, bounds, call);
        if failing != told && failing != Err(Fault::Read) {
            return Err(Refusal::FailedRead(at.0, at.1));
        }
        tallies.failing.add(&failing);
    }
    Ok(())
}

// Tries the mutants of one case.
fn try_case(
    alloc: Global,
    dice: &mut Dice,
    tasks: &[Task],
    number: usize,
    bounds: &[Box<dyn Bound>],
    tallies: &mut Tallies,
) -> anyhow::Result<()> {
    let Some(task) = tasks.get(number) else {
        return Ok(());
    };
    if !is_accepted(alloc, &task.case, bounds)? {
        return Err(Refusal::Own(number))?;
    }
    for round in 0..task.rounds {
        if let Some(other) = tasks.get(dice.below(tasks.len())) {
            let made = make_mutant(alloc, dice, &task.case, &other.case)?;
            try_mutant(
                alloc,
                dice,
                &task.case,
                &made,
                bounds,
                (number, round),
                tallies,
            )?;
        }
    }
    Ok(())
}

// The cases that the words name.
fn read_tasks(rt: &HostRuntime) -> anyhow::Result<Vec<Task>> {
    let mut tasks = Vec::new(rt.alloc());
    let mut words = env::args(rt)?.skip(1);
    for _ in 0..u64::MAX {
        let Some(name) = words.next() else {
            return Ok(tasks);
        };
        let Some(Ok(rounds)) = words.next().map(|word| word.as_str().parse::<usize>()) else {
            return Err(Refusal::Usage)?;
        };
        let case = read_case(rt, name.as_str())?;
        tasks.push(Task { case, rounds })?;
    }
    Ok(tasks)
}

// Tries the mutants of all cases, with the bounds that the checker has.
fn try_all(alloc: Global, tasks: &[Task], tallies: &mut Tallies) -> anyhow::Result<()> {
    let mut bounds: Vec<Box<dyn Bound>> = Vec::new(alloc);
    bounds.push(Box::new(alloc, Captures)?)?;
    bounds.push(Box::new(alloc, Promotions)?)?;
    bounds.push(Box::new(alloc, PawnFiles)?)?;
    bounds.push(Box::new(alloc, Travel)?)?;
    let mut dice = Dice::new(1);
    for number in 0..tasks.len() {
        try_case(alloc, &mut dice, tasks, number, bounds.as_slice(), tallies)?;
    }
    Ok(())
}

fn main(rt: HostRuntime) -> anyhow::Result<()> {
    let tasks = read_tasks(&rt)?;
    let mut tallies = Tallies {
        whole: Tally::new(),
        failing: Tally::new(),
    };
    try_all(rt.alloc(), tasks.as_slice(), &mut tallies)?;
    println!(rt; "with all bytes to be had")?;
    tallies.whole.print(&rt)?;
    println!(rt; "where a read fails")?;
    tallies.failing.print(&rt)
}
