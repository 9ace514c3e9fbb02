//! Moves as they are written.
ghost use Rattle.pg_position.specs.Step.{IsLegal};

use super::*;
use pg_moves::next_legal;
use pg_san::{San, read, write};

// Writes a legal move of a row's position, and reads its text again.
fn check_both(rt: &impl Abort, row: &str, position: &Position, m: &Move, wanted: &str)
    requires { IsLegal position.now m.now }
{
    check_text(rt, row, write(position, *m).as_str(), wanted);
    assert!(rt; read(position, wanted) == Ok(*m), "{wanted} of {row}");
}

// Writes each legal move of a row's position in canonical order, and reads each text again.
fn check_all(rt: &impl Abort, row: &str) {
    let (start, texts) = halves(rt, row);
    let position = position(rt, start);
    let mut last = None;
    for wanted in texts.split(' ') {
        let Some(m) = next_legal(&position, last) else {
            panic!(rt; "no {wanted} in {row}")
        };
        check_both(rt, row, &position, &m, wanted);
        last = Some(m);
    }
    check_row(rt, row, next_legal(&position, last).is_none());
}

// The text of a move; none where it is not legal.
fn written(position: &Position, m: &Move) -> Option<San> {
    if position.is_legal(m) {
        Some(write(position, *m))
    } else {
        None
    }
}

// That each row's move is written so.
fn check(rt: &impl Abort, table: &str) {
    for row in table.lines() {
        let (start, text, wanted) = cells(rt, row);
        let found = written(&position(rt, start), &move_of(rt, text)).expect(rt, row);
        check_text(rt, row, found.as_str(), wanted);
    }
}

// The texts of all legal moves of a position, in canonical order.
const ALL: &str =
    "rnbqkbnr/pppppppp/8/8/8/8/PPPPPPPP/RNBQKBNR w KQkq - 0 1 => Na3 Nc3 Nf3 Nh3 a3 a4 b3 b4 c3 c4 d3 d4 e3 e4 f3 f4 g3 g4 h3 h4
8/2p5/3p4/KP5r/1R3p1k/8/4P1P1/8 w - - 0 1 => e3 e4 g3+ g4 Rb1 Rb2 Rb3 Ra4 Rc4 Rd4 Re4 Rxf4+ Ka4 Ka6
3r2k1/4P3/8/8/8/8/8/4K3 w - - 0 1 => Kf1 Ke2 Kf2 exd8=N exd8=B exd8=R+ exd8=Q+ e8=N e8=B e8=R+ e8=Q+";

#[test]
fn writes_each_move(rt: HostRuntime) {
    for row in ALL.lines() {
        check_all(&rt, row);
    }
}

const PROMOTIONS: &str = "6k1/4Pppp/8/8/8/8/8/4K3 w - - 0 1 | e7e8q => e8=Q#
6k1/4Pppp/8/8/8/8/8/4K3 w - - 0 1 | e7e8r => e8=R#
6k1/4Pppp/8/8/8/8/8/4K3 w - - 0 1 | e7e8b => e8=B
8/4P3/8/8/8/8/k7/4K3 w - - 0 1 | e7e8q => e8=Q
8/4P3/8/8/8/8/k7/4K3 w - - 0 1 | e7e8n => e8=N";

#[test]
fn writes_promotions(rt: HostRuntime) {
    check(&rt, PROMOTIONS);
}

const MATE: &str = "rnbqkbnr/pppp1ppp/8/4p3/6P1/5P2/PPPPP2P/RNBQKBNR b KQkq g3 0 2 | d8h4 => Qh4#
rnbqkbnr/pppp1ppp/8/4p3/6P1/5P2/PPPPP2P/RNBQKBNR b KQkq g3 0 2 | d8g5 => Qg5
rnbqkbnr/pppp1ppp/8/4p3/6P1/5P2/PPPPP2P/RNBQKBNR b KQkq g3 0 2 | e8e7 => Ke7";

#[test]
fn writes_mate(rt: HostRuntime) {
    check(&rt, MATE);
}

const MEN_APART: &str = "rnbqkbnr/pppppppp/8/8/8/8/PPPPPPPP/RNBQKBNR w KQkq - 0 1 | g1f3 => Nf3
4k3/8/8/8/1b6/2N5/8/4K1N1 w - - 0 1 | g1e2 => Ne2
4k3/8/8/8/8/2N5/8/4K1N1 w - - 0 1 | g1e2 => Nge2
4k3/8/8/8/8/2N5/8/4K1N1 w - - 0 1 | c3e2 => Nce2
4k3/8/8/8/8/2N5/8/4K1N1 w - - 0 1 | g1f3 => Nf3
4k3/8/8/R7/8/8/8/R3K3 w - - 0 1 | a1a3 => R1a3
4k3/8/8/R7/8/8/8/R3K3 w - - 0 1 | a5a3 => R5a3
4k3/8/8/R7/8/8/8/R3K3 w - - 0 1 | a1b1 => Rb1
8/7k/8/8/8/Q7/8/Q1Q4K w - - 0 1 | a1c3 => Qa1c3
8/7k/8/8/8/Q7/8/Q1Q4K w - - 0 1 | a3c3 => Q3c3
8/7k/8/8/8/Q7/8/Q1Q4K w - - 0 1 | c1c3 => Qcc3
8/1k6/8/8/8/Q1r5/8/Q1Q4K w - - 0 1 | a1c3 => Qa1xc3";

#[test]
fn tells_men_apart(rt: HostRuntime) {
    check(&rt, MEN_APART);
}

const CASTLINGS: &str = "4k3/8/8/8/8/8/8/R3K2R w KQ - 0 1 | e1g1 => O-O
4k3/8/8/8/8/8/8/R3K2R w KQ - 0 1 | e1c1 => O-O-O
4k3/8/8/8/8/8/8/R3K2R w KQ - 0 1 | e1f1 => Kf1
5k2/8/8/8/8/8/8/4K2R w K - 0 1 | e1g1 => O-O+
3k4/8/8/8/8/8/8/R3K3 w Q - 0 1 | e1c1 => O-O-O+
r3k2r/8/8/8/8/8/8/4K3 b kq - 0 1 | e8g8 => O-O
r3k2r/8/8/8/8/8/8/4K3 b kq - 0 1 | e8c8 => O-O-O";

#[test]
fn writes_castling(rt: HostRuntime) {
    check(&rt, CASTLINGS);
}

const CAPTURES: &str = "4k3/8/8/3pP3/8/8/8/4K3 w - d6 0 1 | e5d6 => exd6
4k3/8/8/3pP3/8/8/8/4K3 w - d6 0 1 | e5e6 => e6
4k3/8/8/3p4/2P1P3/8/8/4K3 w - - 0 1 | e4d5 => exd5
4k3/8/8/3p4/2P1P3/8/8/4K3 w - - 0 1 | c4d5 => cxd5";

#[test]
fn writes_captures(rt: HostRuntime) {
    check(&rt, CAPTURES);
}
