//! Problems by chance: the diagrams on which games end whose moves are drawn by a fixed rule, the same at each run.

use crate::fault::Fault;
use pg_board::SquareSet;
use pg_fen::{Diagram, Length};
use pg_journeys::journeys_hold;
use pg_moves::legal_moves;
use pg_position::{Move, Position};
use std::alloc::{AllocError, Global};

// How many moves are drawn for a ply at most. Where none suits, the last one is taken, or a game of little slack goes
// back.
const DRAWS: u8 = 40;

// By how many plies it goes back.
const BACK: usize = 4;

// How many plies are drawn at most for each problem.
const DRAWN: u32 = 40_000;

// How many times that is tried at most for each problem.
const TRIES: u64 = 100;

// What a game by chance is to be.
#[derive(Clone, Copy)]
pub(crate) struct Wanted {
    // How many plies it has.
    pub(crate) plies: u8,
    // By how many plies a game to where it has come may be shorter, as far as the bound by journeys knows.
    pub(crate) slack: Option<u8>,
}

// The next state of a chance.
pub(crate) fn next(state: u64) -> u64 {
    let state = state ^ (state << 13);
    let state = state ^ (state >> 7);
    state ^ (state << 17)
}

// The position after the legal move that a state draws; none where no move is legal.
pub(crate) fn moved(
    alloc: Global,
    position: &Position,
    state: u64,
) -> Result<Option<Position>, AllocError> {
    match drawn_move(alloc, position, state)? {
        Some(m) => Ok(position.play(m).ok()),
        None => Ok(None),
    }
}

// The legal move that a state draws; none where no move is legal.
fn drawn_move(alloc: Global, position: &Position, state: u64) -> Result<Option<Move>, AllocError> {
    let moves = legal_moves(alloc, position)?;
    let pick = (state >> 20).checked_rem(moves.len() as u64).unwrap_or(0);
    Ok(moves.get(pick as usize).copied())
}

// Whether no game to a position is shorter than the `plies` that have led to it by more than `most`.
fn is_tight(position: &Position, plies: u8, most: u8) -> bool {
    match plies.saturating_sub(most).checked_sub(1) {
        Some(fewer) => journeys_hold(&Diagram::of(position), &Position::array(), fewer),
        None => true,
    }
}

// Where a game by chance has come to: the state of the chance, the position, none where no move was legal or none
// suited, and the squares of the men who have moved.
#[derive(Clone, Copy)]
struct Drawn {
    state: u64,
    position: Option<Position>,
    men: SquareSet,
}

// Which moves are taken: those that leave at most `slack` plies to spare, if that is told; and where a man is to
// go on, those of men who have moved before.
#[derive(Clone, Copy)]
struct Rule {
    slack: Option<u8>,
    goes_on: bool,
}

// Whether a move that leads to a position, as the ply with this number, is taken where these men have moved before.
fn suits(m: &Move, next: &Position, ply: u8, men: SquareSet, rule: Rule) -> bool {
    if rule.goes_on && !men.contains(m.from) {
        return false;
    }
    match rule.slack {
        None => true,
        Some(most) => is_tight(next, ply, most),
    }
}

// The position after the first move that is taken of some that are drawn, as the ply with this number; after the last of
// them where none is, or none in a game of little slack; none where no move is legal. Four times of five a man is to
// make it who has moved before.
fn draw(alloc: Global, from: &Drawn, ply: u8, slack: Option<u8>) -> Result<Drawn, AllocError> {
    let mut to = Drawn {
        state: from.state,
        position: None,
        men: from.men,
    };
    let Some(position) = from.position else {
        return Ok(to);
    };
    to.state = next(to.state);
    let rule = Rule {
        slack,
        goes_on: (to.state >> 20) % 5 > 0,
    };
    for _ in 0..DRAWS {
        to.state = next(to.state);
        let Some(m) = drawn_move(alloc, &position, to.state)? else {
            break;
        };
        let Ok(after) = position.play(m) else {
            break;
        };
        to.position = Some(after);
        to.men = (from.men - SquareSet::single(m.from)) | SquareSet::single(m.to);
        if suits(&m, &after, ply, from.men, rule) {
            return Ok(to);
        }
    }
    if slack.is_some() {
        to.position = None;
    }
    Ok(to)
}

// How many positions of a game stay where it goes back from the ply with this number: the first one, or with little
// slack all but some.
fn kept(ply: usize, slack: Option<u8>) -> usize {
    match slack {
        Some(_) => ply.saturating_sub(BACK).max(1),
        None => 1,
    }
}

// Where a game ends whose moves are drawn; none where too many were drawn.
fn end_of(alloc: Global, state: u64, wanted: Wanted) -> Result<Drawn, AllocError> {
    let mut last = Drawn {
        state,
        position: Some(Position::array()),
        men: SquareSet::empty(),
    };
    let mut line = Vec::new(alloc);
    line.push(last)?;
    for _ in 0..DRAWN {
        let ply = line.len();
        if ply > usize::from(wanted.plies) {
            return Ok(last);
        }
        last = draw(alloc, &last, ply as u8, wanted.slack)?;
        if last.position.is_some() {
            line.push(last)?;
        } else {
            line.truncate(kept(ply, wanted.slack));
            last = Drawn {
                state: last.state,
                ..line.last().copied().unwrap_or(last)
            };
        }
    }
    last.position = None;
    Ok(last)
}

// Prints `count` problems, a diagram and a length each.
pub(crate) fn print_problems(
    rt: &HostRuntime,
    seed: u64,
    wanted: Wanted,
    count: u64,
) -> anyhow::Result<()> {
    let Some(length) = Length::from_plies(wanted.plies) else {
        return Err(Fault::Usage)?;
    };
    // No seed gives the state 0, which would stay.
    let mut state = seed
        .wrapping_add(1)
        .wrapping_mul(0x9e37_79b9_7f4a_7c15)
        .max(1);
    let mut printed = 0u64;
    for _ in 0..count.saturating_mul(TRIES) {
        if printed >= count {
            return Ok(());
        }
        let end = end_of(rt.alloc(), state, wanted)?;
        state = end.state;
        if let Some(position) = end.position {
            let diagram = Diagram::of(&position);
            println!(rt; "{} {}", diagram.write().as_str(), length.write().as_str())?;
            printed = printed.saturating_add(1);
        }
    }
    Ok(())
}
