//! Parts that are a position or none, attack, and packed positions.

use super::*;

// The first clause that parts are to break.
fn bad(rt: &impl Abort, wanted: &str) -> BadPosition {
    match wanted {
        "Kings" => BadPosition::Kings,
        "PawnRank" => BadPosition::PawnRank,
        "Rights" => BadPosition::Rights,
        "EnPassant" => BadPosition::EnPassant,
        "Check" => BadPosition::Check,
        name => panic!(rt; "{name}"),
    }
}

// A placement, the rights and the passed square, with White to move, and the clause that they break.
const PARTS: &str = "8/8/8/8/8/8/8/8 | - - => Kings
4k3/8/8/8/8/8/8/4K2K | - - => Kings
P3k3/8/8/8/8/8/8/4K3 | - - => PawnRank
4k3/8/8/8/8/8/8/4K2p | - - => PawnRank
4k3/8/8/8/8/8/8/4K3 | K - => Rights
4k3/8/8/8/8/8/8/4K2R | Q - => Rights
4k3/8/8/8/8/8/8/4K3 | - e6 => EnPassant
4k3/8/8/8/4P3/8/8/4K3 | - e3 => EnPassant
4k3/8/8/8/8/8/8/4R1K1 | - - => Check";

#[test]
fn refused_parts(rt: HostRuntime) {
    for row in PARTS.lines() {
        let (placement, rest, wanted) = cells(&rt, row);
        let (castling, passed) = rest.split_once(' ').expect(&rt, row);
        let found = parts(&rt, placement, Color::White, castling, passed).err();
        check_row(&rt, row, found == Some(bad(&rt, wanted)));
    }
}

#[test]
fn parts_are_read_back(rt: HostRuntime) {
    let placement = "r3k2r/8/8/3pP3/8/8/8/R3K2R";
    let position = parts(&rt, placement, Color::White, "Kq", "d6").expect(&rt, placement);
    let other = parts(&rt, placement, Color::White, "Kq", "-").expect(&rt, placement);
    let packed = position.packed();
    let kept = packed;
    check_all(
        &rt,
        &[
            position.board() == board(placement),
            position.side() == Color::White,
            position.rights() == rights("Kq"),
            position.passed() == Some(square(&rt, "d6")),
            position == position,
            position != other,
            kept == position.packed(),
            packed != other.packed(),
            packed.position() == position,
        ],
    );
}

#[test]
fn the_array(rt: HostRuntime) {
    let array = Position::array();
    let placement = "rnbqkbnr/pppppppp/8/8/8/8/PPPPPPPP/RNBQKBNR";
    let read = parts(&rt, placement, Color::White, "KQkq", "-").expect(&rt, placement);
    assert!(rt; array == read && !array.in_check());
}

// A position, a colour and squares, and whether the colour attacks each of them.
const ATTACKS: &str = "rnbqkbnr/pppppppp/8/8/8/8/PPPPPPPP/RNBQKBNR w KQkq - 0 1 | White f3 => yes
rnbqkbnr/pppppppp/8/8/8/8/PPPPPPPP/RNBQKBNR w KQkq - 0 1 | Black d8 => yes
rnbqkbnr/pppppppp/8/8/8/8/PPPPPPPP/RNBQKBNR w KQkq - 0 1 | White e4 => no
4k3/8/2n5/8/3pB1q1/8/5P2/R3K3 w - - 0 1 | White d5 c6 f3 h7 b1 a8 e3 g3 d1 e2 h1 f2 => yes
4k3/8/2n5/8/3pB1q1/8/5P2/R3K3 w - - 0 1 | Black e5 b4 e3 c3 e4 d7 f5 d1 h5 g8 d4 => yes
4k3/8/2n5/8/3pB1q1/8/5P2/R3K3 w - - 0 1 | White b7 g1 a1 b2 b4 => no
4k3/8/2n5/8/3pB1q1/8/5P2/R3K3 w - - 0 1 | Black a4 => no";

#[test]
fn attack_by_each_kind(rt: HostRuntime) {
    for row in ATTACKS.lines() {
        let (start, rest, wanted) = cells(&rt, row);
        let (color, names) = rest.split_once(' ').expect(&rt, row);
        let by = if color == "White" {
            Color::White
        } else {
            Color::Black
        };
        for name in names.split(' ') {
            let hit = position(&rt, start).attacked(square(&rt, name), by);
            assert!(rt; hit == is_yes(&rt, wanted), "{name} of {row}");
        }
    }
}

// A position of Black's with a passed square, the same with none, and whether they have the same future.
const FUTURES: &str = "4k3/8/8/8/4P3/8/8/4K3 b - e3 0 1 | 4k3/8/8/8/4P3/8/8/4K3 b - - 0 1 => yes
4k3/8/8/8/3pP3/8/8/4K3 b - e3 0 1 | 4k3/8/8/8/3pP3/8/8/4K3 b - - 0 1 => no
8/8/8/8/k2pP2R/8/8/4K3 b - e3 0 1 | 8/8/8/8/k2pP2R/8/8/4K3 b - - 0 1 => no";

#[test]
fn same_futures(rt: HostRuntime) {
    for row in FUTURES.lines() {
        let (with, without, wanted) = cells(&rt, row);
        let passed = position(&rt, with);
        let idle = position(&rt, without);
        let is_same = is_yes(&rt, wanted);
        let is_so = passed.same_future(&idle) == is_same;
        check_row(&rt, row, is_so && idle.same_future(&passed) == is_same);
    }
}

#[test]
fn texts(rt: HostRuntime) {
    check_shown(&rt, &BadPosition::Kings, "each side must have one king");
    check_shown(&rt, &BadPosition::PawnRank, "a pawn stands on rank 1 or 8");
    let rights = "a castling right without its king and rook at home";
    check_shown(&rt, &BadPosition::Rights, rights);
    let passed = "an en passant square that fits no two-square advance";
    check_shown(&rt, &BadPosition::EnPassant, passed);
    let check = "the side that is not to move is in check";
    check_shown(&rt, &BadPosition::Check, check);
}

#[test]
fn men_on_squares(rt: HostRuntime) {
    let board = Position::array().board();
    let (e1, e4, e7) = (square(&rt, "e1"), square(&rt, "e4"), square(&rt, "e7"));
    check_all(
        &rt,
        &[
            stands(&board, Color::White, Kind::King, e1),
            !stands(&board, Color::Black, Kind::King, e1),
            is_enemy(&board, Color::White, e7),
            !is_enemy(&board, Color::Black, e7),
            is_vacant(&board, e4),
            !is_enemy(&board, Color::White, e4),
        ],
    );
}

#[test]
fn order_of_moves(rt: HostRuntime) {
    let mut last = move_of(&rt, "b7b8");
    for text in "b7b8p b7b8n b7b8b b7b8r b7b8q b7b8k b7c8 c7a1".split(' ') {
        let next = move_of(&rt, text);
        check_row(&rt, text, last < next);
        last = next;
    }
}
