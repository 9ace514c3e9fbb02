//! Numbers of games from positions, as others count them.

use super::*;
use pg_fen::text::digits;
use pg_moves::{CountFault, LegalMoves, count, count_legal, legal_moves};
use std::alloc::{AllocError, Global};

// That each row's position has the row's numbers of games of 0 plies, 1 ply and so on.
fn check(rt: &impl Abort, alloc: Global, table: &str) {
    for row in table.lines() {
        check_counts(rt, alloc, row);
    }
}

fn check_counts(rt: &impl Abort, alloc: Global, row: &str) {
    let (start, wanted) = halves(rt, row);
    let start = position(rt, start);
    let mut plies = 0u8;
    for games in wanted.split(' ') {
        let found = count(alloc, &start, plies).expect(rt, row);
        check_text(rt, row, digits(found as usize).as_str(), games);
        plies = plies.saturating_add(1);
    }
}

const ARRAY: &str =
    "rnbqkbnr/pppppppp/8/8/8/8/PPPPPPPP/RNBQKBNR w KQkq - 0 1 => 1 20 400 8902 197281";

#[test]
fn array(rt: HostRuntime) {
    check(&rt, rt.alloc(), ARRAY);
}

const MANY_GAMES: &str =
    "r3k2r/p1ppqpb1/bn2pnp1/3PN3/1p2P3/2N2Q1p/PPPBBPPP/R3K2R w KQkq - 0 1 => 1 48 2039 97862 4085603";

#[test]
fn many_moves(rt: HostRuntime) {
    check(&rt, rt.alloc(), MANY_GAMES);
}

const FEW_GAMES: &str = "8/2p5/3p4/KP5r/1R3p1k/8/4P1P1/8 w - - 0 1 => 1 14 191 2812 43238";

#[test]
fn few_moves(rt: HostRuntime) {
    check(&rt, rt.alloc(), FEW_GAMES);
}

const MATED_GAMES: &str =
    "rnb1kbnr/pppp1ppp/8/4p3/6Pq/5P2/PPPPP2P/RNBQKBNR w KQkq - 1 3 => 1 0 0 0 0 0 0 0 0";

#[test]
fn mated(rt: HostRuntime) {
    check(&rt, rt.alloc(), MATED_GAMES);
}

const CASTLING: &str = "r3k2r/8/8/8/8/8/8/R3K2R w KQkq - 0 1 => 1 26 568 13744 314346
r3k2r/8/3Q4/8/8/5q2/8/R3K2R b KQkq - 0 1 => 1 44 1494 50509 1720476
r3k2r/1b4bq/8/8/8/8/7B/R3K2R w KQkq - 0 1 => 1 26 1141 27826 1274206
4k3/8/8/8/1b6/3n4/8/R3K2R w KQ - 0 1 => 1 3 63 1442 27051";

#[test]
fn castling(rt: HostRuntime) {
    check(&rt, rt.alloc(), CASTLING);
}

const EN_PASSANT: &str = "8/8/8/8/k2Pp2Q/8/8/3K4 b - d3 0 1 => 1 6 136 863 20471
8/8/1k6/2b5/2pP4/8/5K2/8 b - d3 0 1 => 1 15 126 1928 13931
3k4/3p4/8/K1P4r/8/8/8/8 b - - 0 1 => 1 18 92 1670 10138
4k2r/8/8/8/3Pp3/8/1B6/R3K3 b Qk d3 0 1 => 1 17 317 5407 99694";

#[test]
fn en_passant(rt: HostRuntime) {
    check(&rt, rt.alloc(), EN_PASSANT);
}

const PROMOTIONS: &str = "2K2r2/4P3/8/8/8/8/8/3k4 w - - 0 1 => 1 11 133 1442 19174
n1n5/PPPk4/8/8/8/8/4Kppp/5N1N b - - 0 1 => 1 24 496 9483 182838
r3k2r/Pppp1ppp/1b3nbN/nP6/BBP1P3/q4N2/Pp1P2PP/R2Q1RK1 w kq - 0 1 => 1 6 264 9467 422333
rnbq1k1r/pp1Pbppp/2p5/8/2B5/8/PPP1NnPP/RNBQK2R w KQ - 0 1 => 1 44 1486 62379 2103487";

#[test]
fn promotions(rt: HostRuntime) {
    check(&rt, rt.alloc(), PROMOTIONS);
}

// Whether games of `plies` plies are refused as too deep.
fn is_too_deep(alloc: Global, start: &Position, plies: u8) -> bool {
    count(alloc, start, plies) == Err(CountFault::TooDeep)
}

#[test]
fn too_deep(rt: HostRuntime) {
    check_all(
        &rt,
        &[
            is_too_deep(rt.alloc(), &Position::array(), 9),
            is_too_deep(rt.alloc(), &position(&rt, MATED), 255),
        ],
    );
}

#[test]
fn texts(rt: HostRuntime) {
    check_shown(&rt, &CountFault::TooDeep, "more than 8 plies");
    check_shown(&rt, &CountFault::Overflow, "count too large");
    check_shown(&rt, &CountFault::Memory, "out of memory");
}

// That these are the legal moves of the array.
fn check_first_moves(rt: &impl Abort, moves: &[Move]) {
    check_all(
        rt,
        &[
            moves.len() == 20,
            moves.first() == Some(&move_of(rt, "b1a3")),
            moves.last() == Some(&move_of(rt, "h2h4")),
        ],
    );
}

// How many of two calls, one for the legal moves of the array and one for its games of 3 plies, are
// refused memory; a call that is not answers rightly.
fn refusals(rt: &impl Abort, alloc: Global) -> u8 {
    let array = Position::array();
    let mut refused = 0u8;
    match legal_moves(alloc, &array) {
        Ok(moves) => check_first_moves(rt, moves.as_slice()),
        Err(AllocError) => refused = 1,
    }
    match count(alloc, &array, 3) {
        Ok(games) => assert!(rt; games == 8902),
        Err(fault) => {
            assert!(rt; fault == CountFault::Memory);
            refused = refused.saturating_add(1);
        }
    }
    refused
}

// Passes too where `rt try --test --fail-alloc N` refuses the N-th growth: then one call of all
// answers that memory was refused, and the others answer as ever.
#[test]
fn refused_growths_of_moves_and_counts(rt: HostRuntime) {
    let mut refused = 0u8;
    for _ in 0..3u8 {
        refused = refused.saturating_add(refusals(&rt, rt.alloc()));
    }
    assert!(rt; refused <= 1);
}

// How many legal moves there are: a man's first is handed out, and his further ones are counted as a set
// where he has one.
fn moves_by_men(position: &Position) -> u64 {
    let mut total = 0u64;
    let mut left = LegalMoves::new(position);
    for _ in 0..u16::MAX {
        match left.next() {
            Some(_) => total = total.saturating_add(1),
            None => return total,
        }
        if let Some(rest) = left.rest_of_man() {
            total = total.saturating_add(rest.len() as u64);
            left.skip_rest(rest);
        }
    }
    total
}

fn check_men(rt: &impl Abort, table: &str) {
    for row in table.lines() {
        let (start, _) = halves(rt, row);
        let start = position(rt, start);
        check_row(rt, row, moves_by_men(&start) == count_legal(&start));
    }
}

#[test]
fn man_by_man(rt: HostRuntime) {
    check_men(&rt, ARRAY);
    check_men(&rt, MANY_GAMES);
    check_men(&rt, FEW_GAMES);
    check_men(&rt, MATED_GAMES);
    check_men(&rt, CASTLING);
    check_men(&rt, EN_PASSANT);
    check_men(&rt, PROMOTIONS);
}
