//! Positions: what the tests share.

mod games;
mod positions;

use crate::texts::{cells, check_all, check_row, check_shown, is_yes, move_of, position, square};
use pg_board::{Board, Color, Kind, Square};
use pg_fen::man_of;
use pg_position::{BadPosition, Illegal, Move, Position, Rights, is_enemy, is_vacant, stands};
use std::process::Abort;

// The board of a placement as a FEN writes it, from a8 to h1.
fn board(text: &str) -> Board {
    let mut board = Board::empty();
    let mut seen = 0u8;
    for byte in text.as_bytes() {
        if let Some(man) = man_of(*byte) {
            if seen < 64 {
                board.put(Square::at((7 - seen / 8) * 8 + seen % 8), man);
            }
            seen = seen.saturating_add(1);
        } else if *byte >= b'1' && *byte <= b'8' {
            seen = seen.saturating_add(*byte - b'0');
        }
    }
    board
}

fn rights(text: &str) -> Rights {
    let holds = |letter: u8| text.as_bytes().contains(&letter);
    Rights {
        white_king: holds(b'K'),
        white_queen: holds(b'Q'),
        black_king: holds(b'k'),
        black_queen: holds(b'q'),
    }
}

fn parts(
    rt: &impl Abort,
    placement: &str,
    side: Color,
    castling: &str,
    passed: &str,
) -> Result<Position, BadPosition> {
    let passed = if passed == "-" {
        None
    } else {
        Some(square(rt, passed))
    };
    Position::from_parts(board(placement), side, rights(castling), passed)
}

// Whether a move is legal and leads to a position, without the tests of `play`.
fn leads(here: &Position, m: &Move, next: &Position) -> bool {
    here.is_legal(m) && here.after(m) == *next
}

// The position after a game, which must be legal: moves with blanks between them.
fn after(rt: &impl Abort, start: &str, game: &str) -> Position {
    let mut reached = position(rt, start);
    for text in game.split(' ') {
        reached = played(rt, &reached, &move_of(rt, text));
    }
    reached
}

// The position after a move, which must be legal.
fn played(rt: &impl Abort, here: &Position, m: &Move) -> Position {
    let next = here.play(*m).expect(rt, "a legal move");
    assert!(rt; leads(here, m, &next));
    next
}
