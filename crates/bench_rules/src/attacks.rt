//! Attacked squares, and moves played, in a position in the middle of a game.

use crate::fault::Fault;
use pg_board::{Color, Kind, Square};
use pg_position::{Move, Position};
use std::alloc::{AllocError, Global};

const PROMOTIONS: [Option<Kind>; 5] = [
    None,
    Some(Kind::Knight),
    Some(Kind::Bishop),
    Some(Kind::Rook),
    Some(Kind::Queen),
];

fn keep_legal(moves: &mut Vec<Move>, position: &Position, m: &Move) -> Result<(), AllocError> {
    if position.play(*m).is_ok() {
        moves.push(*m)?;
    }
    Ok(())
}

fn add_moves(moves: &mut Vec<Move>, position: &Position, from: Square) -> Result<(), AllocError> {
    for i in 0..64u8 {
        let to = Square::at(i);
        for promotion in PROMOTIONS {
            keep_legal(
                moves,
                position,
                &Move {
                    from,
                    to,
                    promotion,
                },
            )?;
        }
    }
    Ok(())
}

// The legal moves, by trying all.
fn all_moves(alloc: Global, position: &Position) -> Result<Vec<Move>, AllocError> {
    let mut moves = Vec::new(alloc);
    for i in 0..64u8 {
        add_moves(&mut moves, position, Square::at(i))?;
    }
    Ok(moves)
}

// A position in the middle of a game.
fn middle() -> Position {
    let mut position = Position::array();
    for (from, to) in [
        (12, 28),
        (52, 36),
        (6, 21),
        (57, 42),
        (5, 26),
        (61, 34),
        (11, 19),
        (62, 45),
        (1, 18),
    ] {
        let m = Move {
            from: Square::at(from),
            to: Square::at(to),
            promotion: None,
        };
        if let Ok(next) = position.play(m) {
            position = next;
        }
    }
    position
}

fn count_attacked(position: &Position) -> u64 {
    let mut count = 0u64;
    for i in 0..64u8 {
        for by in [Color::White, Color::Black] {
            if position.attacked(Square::at(i), by) {
                count = count.saturating_add(1);
            }
        }
    }
    count
}

fn count_played(position: &Position, moves: &[Move]) -> u64 {
    let mut count = 0u64;
    for m in moves {
        if let Ok(next) = position.play(*m) {
            if next.in_check() {
                count = count.saturating_add(1);
            }
            count = count.saturating_add(1);
        }
    }
    count
}

// How many squares are attacked, by either colour, in all rounds.
pub(crate) fn attacked(rounds: u64) -> u64 {
    let position = middle();
    let mut count = 0u64;
    for _ in 0..rounds {
        count = count.saturating_add(count_attacked(&position));
    }
    count
}

// How many legal moves are played, and how many of them give check, in all rounds.
pub(crate) fn played(alloc: Global, rounds: u64) -> Result<u64, Fault> {
    let position = middle();
    let Ok(moves) = all_moves(alloc, &position) else {
        return Err(Fault::Memory);
    };
    let mut count = 0u64;
    for _ in 0..rounds {
        count = count.saturating_add(count_played(&position, moves.as_slice()));
    }
    Ok(count)
}
