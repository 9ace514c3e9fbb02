//! Moves that are played or refused, move by move.

use super::*;

// Why a position is to refuse a move, or nothing where it is legal.
fn illegal(rt: &impl Abort, wanted: &str) -> Option<Illegal> {
    match wanted {
        "legal" => None,
        "EmptyFrom" => Some(Illegal::EmptyFrom),
        "OtherSide" => Some(Illegal::OtherSide),
        "NotAMove" => Some(Illegal::NotAMove),
        "LeavesCheck" => Some(Illegal::LeavesCheck),
        name => panic!(rt; "{name}"),
    }
}

// That each row's game from its position is legal up to its last move, which is refused so, or legal too.
fn check_last(rt: &impl Abort, table: &str) {
    for row in table.lines() {
        let (start, game, wanted) = cells(rt, row);
        let (here, m) = before_last(rt, start, game);
        let is_refused_so = here.play(m).err() == illegal(rt, wanted);
        let is_legal_so = here.is_legal(&m) == (wanted == "legal");
        check_row(rt, row, is_refused_so && is_legal_so);
    }
}

// The position before the last move of a game, and that move.
fn before_last(rt: &impl Abort, start: &str, game: &str) -> (Position, Move) {
    let mut here = position(rt, start);
    let mut last = None;
    for text in game.split(' ') {
        if let Some(m) = &last {
            here = played(rt, &here, m);
        }
        last = Some(move_of(rt, text));
    }
    (here, last.expect(rt, game))
}

// That each row's game from its position leads to a position.
fn check_games(rt: &impl Abort, table: &str) {
    for row in table.lines() {
        let (start, game, wanted) = cells(rt, row);
        check_row(rt, row, after(rt, start, game) == position(rt, wanted));
    }
}

const REFUSED: &str = "rnbqkbnr/pppppppp/8/8/8/8/PPPPPPPP/RNBQKBNR w KQkq - 0 1 | e3e4 => EmptyFrom
rnbqkbnr/pppppppp/8/8/8/8/PPPPPPPP/RNBQKBNR w KQkq - 0 1 | e7e5 => OtherSide
rnbqkbnr/pppppppp/8/8/8/8/PPPPPPPP/RNBQKBNR w KQkq - 0 1 | e2e5 => NotAMove
rnbqkbnr/pppppppp/8/8/8/8/PPPPPPPP/RNBQKBNR w KQkq - 0 1 | e1e2 => NotAMove
rnbqkbnr/pppppppp/8/8/8/8/PPPPPPPP/RNBQKBNR w KQkq - 0 1 | a1a3 => NotAMove
rnbqkbnr/pppppppp/8/8/8/8/PPPPPPPP/RNBQKBNR w KQkq - 0 1 | e2e4q => NotAMove
4k3/8/8/8/1b6/2N5/8/4K1N1 w - - 0 1 | c3e2 => LeavesCheck
4k3/8/8/8/1b6/2N5/8/4K1N1 w - - 0 1 | g1e2 => legal";

#[test]
fn refused_moves(rt: HostRuntime) {
    check_last(&rt, REFUSED);
}

const CASTLED: &str = "4k3/8/8/8/8/8/8/R3K2R w K - 0 1 | e1g1 => 4k3/8/8/8/8/8/8/R4RK1 b - - 0 1
4k3/8/8/8/8/8/8/R3K2R w KQ - 0 1 | e1c1 => 4k3/8/8/8/8/8/8/2KR3R b - - 0 1";

const REFUSED_CASTLINGS: &str = "4k3/8/8/8/8/8/8/R3K2R w - - 0 1 | e1g1 => NotAMove
4k3/8/8/8/8/8/8/R3K2R w K - 0 1 | e1c1 => NotAMove
4kr2/8/8/8/8/8/8/4K2R w K - 0 1 | e1g1 => NotAMove
4k3/8/8/8/8/4r3/8/4K2R w K - 0 1 | e1g1 => NotAMove
4k1r1/8/8/8/8/8/8/4K2R w K - 0 1 | e1g1 => NotAMove
4k3/8/8/8/8/8/8/4K1NR w K - 0 1 | e1g1 => NotAMove
4k3/8/8/8/8/8/8/RN2K3 w Q - 0 1 | e1c1 => NotAMove
1r2k3/8/8/8/8/8/8/R3K3 w Q - 0 1 | e1c1 => legal";

#[test]
fn castling(rt: HostRuntime) {
    check_games(&rt, CASTLED);
    check_last(&rt, REFUSED_CASTLINGS);
}

// A captured rook ends its right, and so do rooks that have come back.
const ROOKS: &str = "4k3/8/8/8/8/8/6b1/R3K2R b KQ - 0 1 | g2h1 => 4k3/8/8/8/8/8/8/R3K2b w Q - 0 1
rnbqkbnr/pppppppp/8/8/8/8/PPPPPPPP/RNBQKBNR w KQkq - 0 1 | g1f3 g8f6 h1g1 h8g8 g1h1 g8h8 f3g1 f6g8 => \
    rnbqkbnr/pppppppp/8/8/8/8/PPPPPPPP/RNBQKBNR w Qq - 0 1";

#[test]
fn rooks_that_end_rights(rt: HostRuntime) {
    check_games(&rt, ROOKS);
}

const PASSED: &str =
    "rnbqkbnr/pppppppp/8/8/8/8/PPPPPPPP/RNBQKBNR w KQkq - 0 1 | e2e4 => rnbqkbnr/pppppppp/8/8/4P3/8/PPPP1PPP/RNBQKBNR b KQkq e3 0 1
rnbqkbnr/pppppppp/8/8/8/8/PPPPPPPP/RNBQKBNR w KQkq - 0 1 | e2e4 a7a6 e4e5 d7d5 e5d6 => \
    rnbqkbnr/1pp1pppp/p2P4/8/8/8/PPPP1PPP/RNBQKBNR b KQkq - 0 1";

// A capture in passing that comes too late, and one that would leave the king in check.
const REFUSED_IN_PASSING: &str =
    "rnbqkbnr/pppppppp/8/8/8/8/PPPPPPPP/RNBQKBNR w KQkq - 0 1 | e2e4 d7d5 e4e5 a7a6 e5d6 => NotAMove
8/8/8/8/k2pP2R/8/8/4K3 b - e3 0 1 | d4e3 => LeavesCheck";

#[test]
fn en_passant(rt: HostRuntime) {
    check_games(&rt, PASSED);
    check_last(&rt, REFUSED_IN_PASSING);
}

const PROMOTED: &str = "3r4/4P3/8/8/8/8/k7/4K3 w - - 0 1 | e7e8n => 3rN3/8/8/8/8/8/k7/4K3 b - - 0 1
3r4/4P3/8/8/8/8/k7/4K3 w - - 0 1 | e7e8b => 3rB3/8/8/8/8/8/k7/4K3 b - - 0 1
3r4/4P3/8/8/8/8/k7/4K3 w - - 0 1 | e7e8r => 3rR3/8/8/8/8/8/k7/4K3 b - - 0 1
3r4/4P3/8/8/8/8/k7/4K3 w - - 0 1 | e7d8q => 3Q4/8/8/8/8/8/k7/4K3 b - - 0 1";

const REFUSED_PROMOTIONS: &str = "3r4/4P3/8/8/8/8/k7/4K3 w - - 0 1 | e7e8 => NotAMove
3r4/4P3/8/8/8/8/k7/4K3 w - - 0 1 | e7e8p => NotAMove
3r4/4P3/8/8/8/8/k7/4K3 w - - 0 1 | e7e8k => NotAMove
3r4/4P3/8/8/8/8/k7/4K3 w - - 0 1 | e7d8 => NotAMove
3r4/4P3/8/8/8/8/k7/4K3 w - - 0 1 | e1d1q => NotAMove";

#[test]
fn promotions(rt: HostRuntime) {
    check_games(&rt, PROMOTED);
    check_last(&rt, REFUSED_PROMOTIONS);
}
