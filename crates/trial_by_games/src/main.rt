//! Tries the bounds by journeys and by tolls with games: `trial_by_games GAMES PLIES` plays GAMES games of up to PLIES
//! plies from the initial array, each move drawn by a fixed rule, and asks each bound of each position of a game
//! with the plies that are left of it and the diagram of its end. None may be excluded. Captures, promotions and
//! castling are drawn more often than other moves. The bound by tolls is asked by two tariffs a game: a drawn one, and
//! one with tolls where the game captures alone. Prints how many positions were asked of each, and at how many the
//! cheapest plans by a tariff cost all that the plies pay for, the same at each run. Anything else ends with a line on
//! standard error and status 1.
//!
//! `trial_by_games trees FILE NODES` asks a tariff at the nodes of search trees. A line of the file has a placement, a
//! length such as `13.0`, and the two weights and 128 tolls of a tariff. The tree of games of that length is walked
//! depth first, up to NODES nodes, and not below those that a cheap bound or the tariff excludes. Prints for each
//! tree, and for all together, how many nodes there were, of how many the tariff was asked, how many it excluded, and
//! how many games to the placement were met. `trial_by_games GAMES PLIES FILE NODES` is the first trial and then that
//! last line.
#![tactic(auto)]

mod asking;
mod dice;
mod play;
mod problems;
mod refusal;
mod tariffs;
mod trees;

use crate::asking::{Tally, ask_journeys, ask_tariff};
use crate::dice::Dice;
use crate::play::{Game, play_game};
use crate::problems::problem_of;
use crate::refusal::Refusal;
use crate::tariffs::{drawn_tariff, tight_tariff};
use crate::trees::{Tree, walk};
use std::alloc::Global;
use std::{env, fs};

// Asks a drawn tariff of all positions of a game, and a tight one.
fn ask_tariffs(
    alloc: Global,
    dice: &mut Dice,
    game: &Game,
    number: u64,
    tally: &mut Tally,
) -> anyhow::Result<()> {
    let drawn = drawn_tariff(dice);
    ask_tariff(alloc, &drawn, game, number, tally)?;
    let tight = tight_tariff(dice, &game.captures);
    ask_tariff(alloc, &tight, game, number, tally)
}

// Plays `games` games and asks of all their positions. Tariffs are drawn apart from moves.
fn ask_games(alloc: Global, games: u64, plies: usize) -> anyhow::Result<Tally> {
    let mut dice = Dice::new(1);
    let mut tariff_dice = Dice::new(2);
    let mut tally = Tally::default();
    for number in 0..games {
        let most = dice.below(plies.saturating_add(1));
        let game = play_game(alloc, &mut dice, most)?;
        ask_journeys(&game, number, &mut tally)?;
        ask_tariffs(alloc, &mut tariff_dice, &game, number, &mut tally)?;
    }
    Ok(tally)
}

// Plays `games` games of up to `plies` plies, and prints what was asked of them.
fn print_games(rt: &HostRuntime, games: &str, plies: &str) -> anyhow::Result<()> {
    let (Ok(games), Ok(plies)) = (games.parse(), plies.parse()) else {
        return Err(Refusal::Usage)?;
    };
    let tally = ask_games(rt.alloc(), games, plies)?;
    println!(rt;
        "{games} games, {} positions, none excluded",
        tally.by_journeys
    )?;
    println!(rt;
        "{} positions by tariffs, none excluded, {} with nothing to spare",
        tally.by_tariffs, tally.without_spare
    )?;
    Ok(())
}

// Prints what a tree came to, or several trees.
fn print_tree(rt: &HostRuntime, tree: Tree) -> anyhow::Result<()> {
    println!(rt;
        "{} nodes, {} asked of the tariff, {} excluded, {} games",
        tree.nodes, tree.asked, tree.excluded, tree.games
    )?;
    Ok(())
}

// Walks the trees of a file's problems, and prints a line for each, where that is wanted, and one for all together.
fn print_trees(rt: &HostRuntime, file: &str, nodes: &str, each: bool) -> anyhow::Result<()> {
    let Ok(nodes) = nodes.parse() else {
        return Err(Refusal::Usage)?;
    };
    let text = fs::read_to_string(rt, file)?;
    let mut number = 0u64;
    let mut all = Tree::default();
    for line in text.as_str().lines() {
        number = number.saturating_add(1);
        let Some(problem) = problem_of(line) else {
            return Err(Refusal::Line(number))?;
        };
        let tree = walk(rt.alloc(), &problem, nodes)?;
        if each {
            print_tree(rt, tree)?;
        }
        all = all.plus(tree);
    }
    print_tree(rt, all)
}

fn main(rt: HostRuntime) -> anyhow::Result<()> {
    let words: Vec<String> = env::args(&rt)?.skip(1).collect(rt.alloc())?;
    match words.as_slice() {
        [games, plies] => print_games(&rt, games.as_str(), plies.as_str()),
        [trees, file, nodes] if trees.as_str() == "trees" => {
            print_trees(&rt, file.as_str(), nodes.as_str(), true)
        }
        [games, plies, file, nodes] => {
            print_games(&rt, games.as_str(), plies.as_str())?;
            print_trees(&rt, file.as_str(), nodes.as_str(), false)
        }
        _ => Err(Refusal::Usage)?,
    }
}
