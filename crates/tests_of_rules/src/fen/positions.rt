//! Positions as text.

use super::*;
use pg_board::{Color, Square};
use pg_position::{Move, Position};

// That a text of six fields is read as a position that is written so, or refused by a fault that is shown so.
fn check_position(rt: &impl Abort, text: &str, wanted: &str) {
    match read_position(text) {
        Ok(game) => check_text(rt, text, write_position(&game).as_str(), wanted),
        Err(fault) => check_case(rt, text, &fault, wanted),
    }
}

// Positions that are written as they were read.
const POSITIONS: &str = "rnbqkbnr/pppppppp/8/8/8/8/PPPPPPPP/RNBQKBNR w KQkq - 0 1
r3k2r/p1ppqpb1/bn2pnp1/3PN3/1p2P3/2N2Q1p/PPPBBPPP/R3K2R w KQkq - 0 1
8/2p5/3p4/KP5r/1R3p1k/8/4P1P1/8 w - - 0 1
4k3/8/8/8/1b6/2N5/8/4K1N1 w - - 0 1
4k3/8/8/3R4/8/8/8/R3K3 w - - 0 1
8/7k/8/8/8/Q7/8/Q1Q4K w - - 0 1
4k3/8/8/8/8/8/8/R3K2R w KQ - 0 1
8/4P3/8/8/8/8/k7/4K3 w - - 0 1
4k3/8/8/8/4P3/8/8/4K3 b - e3 0 1
r3k2r/8/8/3pP3/8/8/8/R3K2R w Kq d6 17 65535
4k3/8/8/8/8/8/8/4K3 b - - 65535 0";

#[test]
fn positions_read_and_written(rt: HostRuntime) {
    for text in POSITIONS.lines() {
        check_position(&rt, text, text);
    }
}

#[test]
fn other_spellings(rt: HostRuntime) {
    let text = " 4k3/8/8/8/8/8/8/R3K2R\tw QK  - 007 1\r\n";
    check_position(&rt, text, "4k3/8/8/8/8/8/8/R3K2R w KQ - 7 1");
}

const NO_POSITIONS: &str = "4k3/8/8/8/8/8/8/4K3 => wrong number of fields
4k3/8/8/8/8/8/8/4K3 w - - 0 => wrong number of fields
8/8/8/8/8/8/8/8 x KK e4 x x => each side must have one king
4k3/8/8/8/8/8/8/4K3 x - - 0 1 => bad side to move
4k3/8/8/8/8/8/8/4K3 w KK - 0 1 => bad castling rights
4k3/8/8/8/8/8/8/4K3 w - e4 0 1 => bad en passant square
4k3/8/8/8/8/8/8/4K3 w - - 0 x => bad move number
4k3/8/8/8/8/8/8/4K3 w - - 65536 1 => bad move number
4k3/8/8/8/8/8/8/4K3 w K - 0 1 => impossible position: a castling right without its king and rook at home
4k3/8/8/8/8/8/8/4K3 w - e6 0 1 => impossible position: an en passant square that fits no two-square advance
4k3/8/8/8/8/8/8/4R1K1 w - - 0 1 => impossible position: the side that is not to move is in check";

#[test]
fn refused_positions(rt: HostRuntime) {
    for row in NO_POSITIONS.lines() {
        let (text, wanted) = halves(&rt, row);
        check_position(&rt, text, wanted);
    }
}

#[test]
fn after_e4(rt: HostRuntime) {
    let e4 = Move {
        from: Square::at(12),
        to: Square::at(28),
        promotion: None,
    };
    let position = Position::array().play(e4).expect(&rt, "e4");
    let game = FenGame {
        position,
        half: 0,
        full: 1,
    };
    let text = "rnbqkbnr/pppppppp/8/8/4P3/8/PPPP1PPP/RNBQKBNR b KQkq e3 0 1";
    check_text(&rt, "e4", write_position(&game).as_str(), text);
    let wanted = diagram(&rt, "rnbqkbnr/pppppppp/8/8/4P3/8/PPPP1PPP/RNBQKBNR");
    check_all(
        &rt,
        &[
            wanted.matches(&position),
            Diagram::of(&position) == wanted,
            !wanted.matches(&Position::array()),
            position.side() == Color::Black,
        ],
    );
}
