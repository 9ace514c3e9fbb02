//! Lists of games that were made wrong.
use crate::case::Case;
use crate::dice::Dice;
use pg_position::Move;
use pg_san::Games;
use std::alloc::{AllocError, Global};

// Whether two lists hold the same games.
pub(crate) fn are_same(one: &Games, other: &Games) -> bool {
    for i in 0..one.len() {
        if one.game(i) != other.game(i) {
            return false;
        }
    }
    one.len() == other.len()
}

// The games of a list but for the one with this index.
fn without(alloc: Global, games: &Games, index: usize) -> Games {
    let mut rest = Games::new(alloc);
    for i in 0..games.len() {
        if let Some(game) = games.game(i)
            && i != index
        {
            let _ = rest.add(game);
        }
    }
    rest
}

// The front of a game, and behind it the moves of another from there on.
fn crossed(
    alloc: Global,
    one: &[Move],
    other: &[Move],
    at: usize,
) -> Result<Vec<Move>, AllocError> {
    let mut moves = Vec::new(alloc);
    if let (Some(front), Some(back)) = (one.get(..at), other.get(at..)) {
        moves.extend_from_slice(front)?;
        moves.extend_from_slice(back)?;
    }
    Ok(moves)
}

// A game with two of its plies in each other's place.
fn turned(alloc: Global, dice: &mut Dice, game: &[Move]) -> Result<Vec<Move>, AllocError> {
    let mut moves = Vec::from_slice(alloc, game)?;
    let (i, j) = (dice.below(game.len()), dice.below(game.len()));
    if let (Some(one), Some(other)) = (game.get(i), game.get(j)) {
        if let Some(place) = moves.get_mut(i) {
            *place = *other;
        }
        if let Some(place) = moves.get_mut(j) {
            *place = *one;
        }
    }
    Ok(moves)
}

// A list with a game left out or all, or with one added: of another list, cut short, with two plies in
// each other's place, or crossed with another game. A game that is not legal is not added.
pub(crate) fn changed(
    alloc: Global,
    dice: &mut Dice,
    case: &Case,
    other: &Case,
) -> Result<Games, AllocError> {
    let index = dice.below(case.games.len());
    let foreign = other.games.game(dice.below(other.games.len()));
    let (Some(own), Some(foreign)) = (case.games.game(index), foreign) else {
        return Ok(Games::new(alloc));
    };
    let added = match dice.below(9) {
        0..=2 => return Ok(without(alloc, &case.games, index)),
        3 | 4 => return Ok(Games::new(alloc)),
        5 => Vec::from_slice(alloc, foreign)?,
        6 => crossed(alloc, own, &[], dice.below(own.len()))?,
        7 => turned(alloc, dice, own)?,
        _ => crossed(alloc, own, foreign, dice.below(own.len()))?,
    };
    let left_out = if dice.below(2) == 0 {
        index
    } else {
        usize::MAX
    };
    let mut games = without(alloc, &case.games, left_out);
    let _ = games.add(added.as_slice());
    Ok(games)
}
