//! Keys of 64 bits. Two things with one key are taken for the same: a searcher that is misled by that
//! writes a certificate that is refused, and nothing worse.

use crate::rows::KINDS;
use pg_board::{Board, Color, Kind, Man, Square, SquareSet};
use pg_position::{Rights, Wing};

// Spreads a number over 64 bits (the finalizer of the generator SplitMix64).
fn spread(number: u64) -> u64 {
    let sum = number.wrapping_mul(0x9e37_79b9_7f4a_7c15);
    let sum = (sum ^ (sum >> 30)).wrapping_mul(0xbf58_476d_1ce4_e5b9);
    let sum = (sum ^ (sum >> 27)).wrapping_mul(0x94d0_49bb_1331_11eb);
    sum ^ (sum >> 31)
}

// A colour's part of a number that is spread: 1 or 2, so that none is 0.
fn color_number(color: Color) -> u64 {
    match color {
        Color::White => 1,
        Color::Black => 2,
    }
}

// A kind's part of a number that is spread, from 1 to 6.
fn kind_number(kind: Kind) -> u64 {
    1 + u64::from(kind.number())
}

/// The key of a man on a square, by the square's index.
pub fn man_key(man: Man, square: u8) -> u64 {
    spread(u64::from(square) | kind_number(man.kind) << 6 | color_number(man.color) << 9)
}

/// The key of a right to castle, where it is held.
pub fn right_key(color: Color, wing: Wing) -> u64 {
    let wing = match wing {
        Wing::KingSide => 1,
        Wing::QueenSide => 2,
    };
    spread(wing << 12 | color_number(color) << 9)
}

// The keys of the men on a set of squares, put together.
fn men_key(man: Man, set: SquareSet) -> u64 {
    let mut set = set;
    let mut sum = 0u64;
    for _ in 0..64u8 {
        let Some(square) = set.pop_first() else {
            return sum;
        };
        sum ^= man_key(man, square.index());
    }
    sum
}

/// The key of the men and the rights of a colour: the keys of them all by exclusive or, so that a move
/// changes it by the keys of what it changes.
pub fn color_key(board: &Board, rights: Rights, color: Color) -> u64 {
    let mut sum = spread(color_number(color));
    for wing in [Wing::KingSide, Wing::QueenSide] {
        if rights.holds(color, wing) {
            sum ^= right_key(color, wing);
        }
    }
    sum ^ pieces_key(board, color)
}

// The keys of all men of a colour, put together.
fn pieces_key(board: &Board, color: Color) -> u64 {
    let mut sum = 0u64;
    for kind in KINDS {
        let man = Man::new(color, kind);
        sum ^= men_key(man, board.squares_of(man));
    }
    sum
}

/// The key of a colour's pawns.
pub fn pawn_key(board: &Board, color: Color) -> u64 {
    let man = Man::new(color, Kind::Pawn);
    spread(board.squares_of(man).bits() ^ color_number(color))
}

/// The key of a node: of both colours' men and rights by their keys, the side to move, the effective
/// passed square and the plies left. Never 0.
pub fn node_key(white: u64, black: u64, side: Color, passed: Option<Square>, plies: u8) -> u64 {
    let state = color_number(side) << 8 | u64::from(plies);
    let passed = match passed {
        Some(square) => SquareSet::single(square).bits(),
        None => 0,
    };
    let sum = spread(white ^ black.rotate_left(32)) ^ spread(state) ^ spread(passed);
    sum.max(1)
}
