//! Games whose moves are drawn.
use crate::dice::Dice;
use pg_board::SquareSet;
use pg_fen::{Diagram, Length};
use pg_moves::legal_moves;
use pg_position::{Move, Position};
use pg_report::{Bound, Travel};
use std::alloc::{AllocError, Global};

// A game from the initial array: its moves, the position before each, and the last one.
#[derive(Drop)]
pub(crate) struct Game {
    pub(crate) moves: Vec<Move>,
    pub(crate) before: Vec<Position>,
    pub(crate) end: Position,
}

impl Game {
    // The diagram on which it ends.
    pub(crate) fn diagram(&self) -> Diagram {
        Diagram::of(&self.end)
    }

    // How many plies it has, 128 at most.
    pub(crate) fn plies(&self) -> u8 {
        self.moves.len().min(128) as u8
    }

    // Its length.
    pub(crate) fn length(&self) -> Option<Length> {
        Length::from_plies(self.plies())
    }
}

// How the moves of a game are drawn.
#[derive(Clone, Copy, PartialEq, Eq)]
pub(crate) enum Manner {
    // Each legal move as often as another.
    Any,
    // Of two dozen that are drawn the first that takes its colour a move further from the array, so that few moves are
    // to spare in the end.
    Thrifty,
    // So too, and mostly by a man who has moved before, as in a composed problem: few men go far, and few games end as
    // this one.
    Composed,
}

// Whether the colour that has just moved, after `plies` plies, needed all of its moves to come from the array to
// where it stands.
fn is_thrifty(next: &Position, plies: u8) -> bool {
    Travel.excludes(
        &Diagram::of(next),
        &Position::array(),
        plies.saturating_sub(1),
    )
}

// A move and the position behind it.
#[derive(Clone, Copy)]
struct Step {
    m: Move,
    next: Position,
}

// One of the moves, as likely as another; none where there is none.
fn any_step(dice: &mut Dice, position: &Position, moves: &[Move]) -> Option<Step> {
    let m = moves.get(dice.below(moves.len()))?;
    match position.play(*m) {
        Ok(next) => Some(Step { m: *m, next }),
        Err(_) => None,
    }
}

// How well a move suits a manner, as the move of that ply, counted from 1; the men on these squares have moved
// before.
fn worth(step: &Step, manner: Manner, ply: u8, moved: SquareSet) -> u8 {
    let goes_on = manner == Manner::Thrifty || moved.contains(step.m.from);
    2 * u8::from(is_thrifty(&step.next, ply)) + u8::from(goes_on)
}

// One of the moves, drawn in this manner: the first of the most worth.
fn drawn(
    dice: &mut Dice,
    position: &Position,
    moves: &[Move],
    manner: Manner,
    ply: u8,
    moved: SquareSet,
) -> Option<Step> {
    let mut found = any_step(dice, position, moves)?;
    if manner == Manner::Any {
        return Some(found);
    }
    let mut most = worth(&found, manner, ply, moved);
    for _ in 0..23u8 {
        if most == 3 {
            break;
        }
        let other = any_step(dice, position, moves)?;
        let worth = worth(&other, manner, ply, moved);
        if worth > most {
            most = worth;
            found = other;
        }
    }
    Some(found)
}

// Plays `plies` plies, or fewer where no move is legal.
pub(crate) fn play(
    alloc: Global,
    dice: &mut Dice,
    manner: Manner,
    plies: u8,
) -> Result<Game, AllocError> {
    let mut played = Vec::new(alloc);
    let mut before = Vec::new(alloc);
    let mut end = Position::array();
    let mut moved = SquareSet::empty();
    for done in 0..plies {
        let moves = legal_moves(alloc, &end)?;
        let ply = done.saturating_add(1);
        let manner = if manner == Manner::Composed && dice.below(5) == 0 {
            Manner::Thrifty
        } else {
            manner
        };
        let Some(Step { m, next }) = drawn(dice, &end, moves.as_slice(), manner, ply, moved) else {
            break;
        };
        moved = (moved - SquareSet::single(m.from)) | SquareSet::single(m.to);
        played.push(m)?;
        before.push(end)?;
        end = next;
    }
    Ok(Game {
        moves: played,
        before,
        end,
    })
}

// A legal move of a position, as likely as another; none where there is none.
pub(crate) fn any_move(
    alloc: Global,
    dice: &mut Dice,
    position: &Position,
) -> Result<Option<(Move, Position)>, AllocError> {
    let moves = legal_moves(alloc, position)?;
    Ok(any_step(dice, position, moves.as_slice()).map(|step| (step.m, step.next)))
}
