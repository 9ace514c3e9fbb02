//! The led search: what its tests share.

mod found;
mod growths;
mod limits;
mod nodes;

use crate::shared::{Said, end_of, field, games_of, goal_of, halves, number, words};
use pg_fen::{Diagram, Length};
use pg_moves::Unwatched;
use pg_position::Move;
use pg_san::{Games, read_games};
use pg_searcher::*;
use std::alloc::Global;
use std::process::Abort;

// A diagram and a length, and games that lead.
#[derive(Drop)]
struct Asked {
    diagram: Diagram,
    length: Length,
    games: Games,
}

// The games of a text, and the diagram and the length at which the first of them ends.
fn asked_by<R: Abort + AllocGlobal>(rt: &R, text: &str) -> Asked {
    let games = games_of(rt, text);
    let first = games.game(0).expect(rt, text);
    let diagram = Diagram::of(&end_of(first).expect(rt, text));
    let plies = first.len().min(200) as u8;
    let length = Length::from_plies(plies).expect(rt, text);
    Asked {
        diagram,
        length,
        games,
    }
}

// Limits of `nodes` nodes, and of `foreign` foreign moves, where that is a number.
fn limits_of(nodes: u64, foreign: &str) -> LedLimits {
    LedLimits {
        max_nodes: nodes,
        foreign: foreign.parse().ok(),
    }
}

// A game that is found is legal, ends on the diagram, has no more plies than asked, and is not listed.
fn is_another(asked: &Asked, game: &[Move]) -> bool {
    let Some(end) = end_of(game) else {
        return false;
    };
    asked.diagram.matches(&end)
        && game.len() <= usize::from(asked.length.plies())
        && !asked.games.contains(game)
}

// How many plies the game has that is found, or with how many foreign moves at most none was met.
fn told(rt: &impl Abort, asked: &Asked, answer: &Result<Led, LedFault>) -> Said {
    match answer {
        Ok(Led::Found(game)) => {
            assert!(rt; is_another(asked, game.as_slice()));
            words(&format_args!("{} plies", game.len()))
        }
        Ok(
            Led::NotFound {
                foreign: Some(most),
                ..
            },
        ) => words(&format_args!("none with {most}")),
        Ok(Led::NotFound { foreign: None, .. }) => words(&"none met"),
        Err(fault) => words(fault),
    }
}

// What a search answers.
fn answer<P: LedProgress>(
    rt: &impl Abort,
    alloc: Global,
    asked: &Asked,
    limits: LedLimits,
    watch: &mut P,
) -> Said {
    let (diagram, length) = (&asked.diagram, asked.length);
    let answer = search_led(alloc, diagram, length, &asked.games, limits, watch);
    told(rt, asked, &answer)
}

// What is answered to games that lead, with `nodes` nodes and `foreign` foreign moves.
fn answered<R: Abort + AllocGlobal>(rt: &R, games: &str, nodes: u64, foreign: &str) -> Said {
    let asked = asked_by(rt, games);
    let limits = limits_of(nodes, foreign);
    answer(rt, rt.alloc(), &asked, limits, &mut Unwatched)
}

// A row of games, how many nodes and foreign moves are allowed, and what is answered.
fn check_row<R: Abort + AllocGlobal>(rt: &R, row: &str) {
    let (left, wanted) = halves(rt, row, " => ");
    let games = field(left, 0);
    let nodes = field(left, 1);
    let foreign = field(left, 2);
    let said = answered(rt, games, number(rt, nodes), foreign);
    assert_eq!(rt; said.as_str(), wanted, "{row}");
}

fn check_table<R: Abort + AllocGlobal>(rt: &R, table: &str) {
    for row in table.lines() {
        check_row(rt, row);
    }
}
