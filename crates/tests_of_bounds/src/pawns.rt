//! The bound by pawn files, and its prices: worked examples.

use crate::texts::{
    NumberList, Row, check_bound, check_line, color, diagram, is_yes, numbers, position, row_of,
};
use pg_board::Color;
use pg_captures::Bound;
use pg_pawns::*;
use std::process::Abort;

// A diagram, a position and a colour, and how many captures its pawns need to come to their files.
const SHIFTS: &str =
    "rnbqkbnr/pppppppp/8/8/8/3P4/PPPP1PPP/RNBQKBNR | rnbqkbnr/pppppppp/8/8/8/8/PPPPPPPP/RNBQKBNR w KQkq - 0 1 | White => 1
rnbqkbnr/pppppppp/8/8/8/3P4/PPPP1PPP/RNBQKBNR | rnbqkbnr/pppppppp/8/8/8/8/PPPPPPPP/RNBQKBNR w KQkq - 0 1 | Black => 0
rnbqkbnr/pppp1ppp/8/4p3/4P3/8/PPPP1PPP/RNBQKBNR | rnbqkbnr/pppppppp/8/8/8/8/PPPPPPPP/RNBQKBNR w KQkq - 0 1 | White => 0
rnbqkbnr/pppppppp/8/8/8/3B4/PPPPPPPP/RN1QKBNR | rnbqkbnr/pppppppp/8/8/8/8/PPPPPPPP/RNBQKBNR w KQkq - 0 1 | White => 0
rnb1kbnr/ppp1pppp/8/3q4/8/8/PPPP1PPP/RNBQKBNR | rnbqkbnr/pppppppp/8/8/8/8/PPPPPPPP/RNBQKBNR w KQkq - 0 1 | White => 0
rnbqkbnr/pppp1ppp/8/8/8/2P5/PPPP1PPP/RNBQKBNR | rnbqkbnr/pppppppp/8/8/8/8/PPPPPPPP/RNBQKBNR w KQkq - 0 1 | White => 2";

#[test]
fn shifts(rt: HostRuntime) {
    for line in SHIFTS.lines() {
        let row = row_of(&rt, line);
        let by = color(&rt, row.asked);
        let found = shift_need(by, &diagram(&rt, row.diagram), &position(&rt, row.position));
        check_line(&rt, line, row.wanted.parse::<u16>() == Ok(found));
    }
}

const FILES: &str =
    "rnbqkbnr/pppppppp/8/8/8/3P4/PPPP1PPP/RNBQKBNR | rnbqkbnr/pppppppp/8/8/8/8/PPPPPPPP/RNBQKBNR w KQkq - 0 1 | 4 => yes
rnbqkbnr/pppp1ppp/8/4p3/4P3/8/PPPP1PPP/RNBQKBNR | rnbqkbnr/pppppppp/8/8/8/8/PPPPPPPP/RNBQKBNR w KQkq - 0 1 | 4 => no
rnbqkbnr/pppppppp/8/8/8/3B4/PPPPPPPP/RN1QKBNR | rnbqkbnr/pppppppp/8/8/8/8/PPPPPPPP/RNBQKBNR w KQkq - 0 1 | 4 => no
rnb1kbnr/ppp1pppp/8/3q4/8/8/PPPP1PPP/RNBQKBNR | rnbqkbnr/pppppppp/8/8/8/8/PPPPPPPP/RNBQKBNR w KQkq - 0 1 | 4 => no
rnbqkbnr/pppp1ppp/8/8/8/2P5/PPPP1PPP/RNBQKBNR | rnbqkbnr/pppppppp/8/8/8/8/PPPPPPPP/RNBQKBNR w KQkq - 0 1 | 40 => yes";

#[test]
fn pawn_files(rt: HostRuntime) {
    check_bound(&rt, &PawnFiles, FILES);
    assert!(rt; PawnFiles.code() == 3);
}

// That in each row the prices of a colour, those of its pawns and those of their targets, exclude the
// diagram from the position, or do not.
fn check_prices(rt: &impl Abort, table: &str) {
    for line in table.lines() {
        let row = row_of(rt, line);
        let (by, prices) = row.asked.split_once(' ').expect(rt, line);
        let (pawns, targets) = prices.split_once(" : ").expect(rt, line);
        let found = is_cut(
            rt,
            &row,
            color(rt, by),
            &numbers(rt, pawns),
            &numbers(rt, targets),
        );
        check_line(rt, line, found == is_yes(rt, row.wanted));
    }
}

fn is_cut(
    rt: &impl Abort,
    row: &Row<'_>,
    by: Color,
    pawns: &NumberList,
    targets: &NumberList,
) -> bool {
    let wanted = diagram(rt, row.diagram);
    let start = position(rt, row.position);
    prices_exclude(&wanted, &start, by, pawns.as_slice(), targets.as_slice())
}

// A pawn came from the e-file to d3: one capture, and White owes none. The pawn of d2 pays one, d2 and d3 get
// one each.
const E_PAWN: &str =
    "rnbqkbnr/pppppppp/8/8/8/3P4/PPPP1PPP/RNBQKBNR | rnbqkbnr/pppppppp/8/8/8/8/PPPPPPPP/RNBQKBNR w KQkq - 0 1 | \
    White 0 0 0 1 0 0 0 0 : 0 0 0 1 0 0 0 1 => yes
rnbqkbnr/pppppppp/8/8/8/3P4/PPPP1PPP/RNBQKBNR | rnbqkbnr/pppppppp/8/8/8/8/PPPPPPPP/RNBQKBNR w KQkq - 0 1 | \
    Black 0 0 0 1 0 0 0 0 : 0 0 0 1 0 0 0 1 => no
rnbqkbnr/pppppppp/8/8/8/3P4/PPPP1PPP/RNBQKBNR | rnbqkbnr/pppppppp/8/8/8/8/PPPPPPPP/RNBQKBNR w KQkq - 0 1 | \
    White 0 0 0 1 0 0 0 1 : 0 0 0 1 0 0 0 0 => no
rnbqkbnr/pppppppp/8/8/8/3P4/PPPP1PPP/RNBQKBNR | rnbqkbnr/pppppppp/8/8/8/8/PPPPPPPP/RNBQKBNR w KQkq - 0 1 | White 0*8 : 0 0 0 1 0 0 0 1 => no
rnbqkbnr/pppppppp/8/8/8/3P4/PPPP1PPP/RNBQKBNR | rnbqkbnr/pppppppp/8/8/8/8/PPPPPPPP/RNBQKBNR w KQkq - 0 1 | \
    White 0 0 0 1 0 0 0 1 : 0 0 0 1 0 0 0 1 => no
rnbqkbnr/pppppppp/8/8/8/3P4/PPPP1PPP/RNBQKBNR | rnbqkbnr/pppppppp/8/8/8/8/PPPPPPPP/RNBQKBNR w KQkq - 0 1 | \
    White 0 0 0 1 0 0 0 0 : 0 0 0 1 0 0 0 2 => no
rnbqkbnr/pppppppp/8/8/8/3P4/PPPP1PPP/RNBQKBNR | rnbqkbnr/pppppppp/8/8/8/8/PPPPPPPP/RNBQKBNR w KQkq - 0 1 | White 0*8 : 0*8 => no
rnbqkbnr/pppppppp/8/8/8/3P4/PPPP1PPP/RNBQKBNR | rnbqkbnr/pppppppp/8/8/8/8/PPPPPPPP/RNBQKBNR w KQkq - 0 1 | White 0*8 : 255*8 => no
rnbqkbnr/pppppppp/8/8/8/3P4/PPPP1PPP/RNBQKBNR | rnbqkbnr/pppppppp/8/8/8/8/PPPPPPPP/RNBQKBNR w KQkq - 0 1 | White 255*8 : 255*8 => no";

#[test]
fn prices_of_the_e_pawn(rt: HostRuntime) {
    check_prices(&rt, E_PAWN);
}

const OTHER_PAWNS: &str =
    "rnbqkbnr/pppppppp/8/8/8/3P4/PPPP1PPP/RNBQKBNR | rnbqkbnr/pppppppp/8/8/8/8/PPPPPPPP/RNBQKBNR w KQkq - 0 1 | \
    White 0 0 0 1 0 0 0 0 : 255*0 => no
rnbqkbnr/pppppppp/8/8/8/3P4/PPPP1PPP/RNBQKBNR | rnbqkbnr/pppppppp/8/8/8/8/PPPPPPPP/RNBQKBNR w KQkq - 0 1 | White 0*0 : 0 0 0 1 0 0 0 1 => no
rnbqkbnr/pppppppp/8/8/8/3P4/PPPP1PPP/RNBQKBNR | rnbqkbnr/pppppppp/8/8/8/8/PPPPPPPP/RNBQKBNR w KQkq - 0 1 | White 0*0 : 255*0 => no
rnbqkbnr/pppppppp/8/8/8/3P4/PPPP1PPP/RNBQKBNR | rnbqkbnr/pppppppp/8/8/8/8/PPPPPPPP/RNBQKBNR w KQkq - 0 1 | \
    White 0 0 0 1 0 0 0 0 : 255*7 => no
rnbqkbnr/pppppppp/8/8/8/3P4/PPPP1PPP/RNBQKBNR | rnbqkbnr/pppppppp/8/8/8/8/PPPPPPPP/RNBQKBNR w KQkq - 0 1 | White 0*7 : 0 0 0 1 0 0 0 1 => no
rnbqkbnr/pppppppp/8/8/8/3P4/PPPP1PPP/RNBQKBNR | rnbqkbnr/pppppppp/8/8/8/8/PPPPPPPP/RNBQKBNR w KQkq - 0 1 | White 0*7 : 255*7 => no
rnbqkbnr/pppppppp/8/8/8/3P4/PPPP1PPP/RNBQKBNR | rnbqkbnr/pppppppp/8/8/8/8/PPPPPPPP/RNBQKBNR w KQkq - 0 1 | \
    White 0 0 0 1 0 0 0 0 : 255*9 => no
rnbqkbnr/pppppppp/8/8/8/3P4/PPPP1PPP/RNBQKBNR | rnbqkbnr/pppppppp/8/8/8/8/PPPPPPPP/RNBQKBNR w KQkq - 0 1 | White 0*9 : 0 0 0 1 0 0 0 1 => no
rnbqkbnr/pppppppp/8/8/8/3P4/PPPP1PPP/RNBQKBNR | rnbqkbnr/pppppppp/8/8/8/8/PPPPPPPP/RNBQKBNR w KQkq - 0 1 | White 0*9 : 255*9 => no
rnbqkbnr/pppppppp/8/8/8/3P4/PPPP1PPP/RNBQKBNR | rnbqkbnr/pppppppp/8/8/8/8/PPPPPPPP/RNBQKBNR w KQkq - 0 1 | \
    White 0 0 0 1 0 0 0 0 : 255*63 => no
rnbqkbnr/pppppppp/8/8/8/3P4/PPPP1PPP/RNBQKBNR | rnbqkbnr/pppppppp/8/8/8/8/PPPPPPPP/RNBQKBNR w KQkq - 0 1 | \
    White 0*63 : 0 0 0 1 0 0 0 1 => no
rnbqkbnr/pppppppp/8/8/8/3P4/PPPP1PPP/RNBQKBNR | rnbqkbnr/pppppppp/8/8/8/8/PPPPPPPP/RNBQKBNR w KQkq - 0 1 | White 0*63 : 255*63 => no
rnbqkbnr/pppppppp/8/8/8/3P4/PPPP1PPP/RNBQKBNR | rnbqkbnr/pppppppp/8/8/8/8/PPPPPPPP/RNBQKBNR w KQkq - 0 1 | \
    White 0 0 0 1 0 0 0 0 : 255*64 => no
rnbqkbnr/pppppppp/8/8/8/3P4/PPPP1PPP/RNBQKBNR | rnbqkbnr/pppppppp/8/8/8/8/PPPPPPPP/RNBQKBNR w KQkq - 0 1 | \
    White 0*64 : 0 0 0 1 0 0 0 1 => no
rnbqkbnr/pppppppp/8/8/8/3P4/PPPP1PPP/RNBQKBNR | rnbqkbnr/pppppppp/8/8/8/8/PPPPPPPP/RNBQKBNR w KQkq - 0 1 | White 0*64 : 255*64 => no
rnbqkbnr/pppppppp/8/8/8/3P4/PPPP1PPP/RNBQKBNR | rnbqkbnr/pppppppp/8/8/8/8/PPPPPPPP/RNBQKBNR w KQkq - 0 1 | \
    White 0 0 0 1 0 0 0 0 : 255*65 => no
rnbqkbnr/pppppppp/8/8/8/3P4/PPPP1PPP/RNBQKBNR | rnbqkbnr/pppppppp/8/8/8/8/PPPPPPPP/RNBQKBNR w KQkq - 0 1 | \
    White 0*65 : 0 0 0 1 0 0 0 1 => no
rnbqkbnr/pppppppp/8/8/8/3P4/PPPP1PPP/RNBQKBNR | rnbqkbnr/pppppppp/8/8/8/8/PPPPPPPP/RNBQKBNR w KQkq - 0 1 | White 0*65 : 255*65 => no";

#[test]
fn prices_for_other_pawns(rt: HostRuntime) {
    check_prices(&rt, OTHER_PAWNS);
}

// A pawn that would have to go back has no cost, so its target may pay anything.
const GOES_BACK: &str =
    "4k3/8/8/8/8/3P4/8/4K3 w - - 0 1 | 4k3/8/8/8/4P3/8/8/4K3 w - - 0 1 | White 0 : 255 => yes
4k3/8/8/8/4P3/8/8/4K3 w - - 0 1 | 4k3/8/8/8/8/3P4/8/4K3 w - - 0 1 | White 0 : 1 => yes
4k3/8/8/8/4P3/8/8/4K3 w - - 0 1 | 4k3/8/8/8/8/3P4/8/4K3 w - - 0 1 | White 0 : 2 => no
4k3/8/8/8/4P3/8/8/4K3 w - - 0 1 | 4k3/8/8/8/8/3P4/8/4K3 w - - 0 1 | White 0 : 0 => no
4k3/8/8/8/4P3/8/8/4K3 w - - 0 1 | 4k3/8/8/8/8/3P4/8/4K3 w - - 0 1 | Black 0*0 : 0*0 => no
4k3/8/3p4/8/8/8/8/4K3 w - - 0 1 | 4k3/8/8/4p3/8/8/8/4K3 w - - 0 1 | Black 0 : 255 => yes
4k3/8/8/4p3/8/8/8/4K3 w - - 0 1 | 4k3/8/3p4/8/8/8/8/4K3 w - - 0 1 | Black 0 : 1 => yes
4k3/8/8/4p3/8/8/8/4K3 w - - 0 1 | 4k3/8/3p4/8/8/8/8/4K3 w - - 0 1 | Black 0 : 2 => no
4k3/8/8/4p3/8/8/8/4K3 w - - 0 1 | 4k3/8/3p4/8/8/8/8/4K3 w - - 0 1 | Black 0 : 0 => no
4k3/8/8/4p3/8/8/8/4K3 w - - 0 1 | 4k3/8/3p4/8/8/8/8/4K3 w - - 0 1 | White 0*0 : 0*0 => no";

#[test]
fn prices_of_a_pawn_that_goes_back(rt: HostRuntime) {
    check_prices(&rt, GOES_BACK);
}

// Two files in one rank are no way of a pawn: they have no cost.
const TOO_NEAR: &str =
    "4k3/8/8/8/8/2P5/8/4K3 | 4k3/8/8/8/8/8/4P3/4K3 w - - 0 1 | White 0 : 255 => yes
4k3/8/8/8/2P5/8/8/4K3 | 4k3/8/8/8/8/8/4P3/4K3 w - - 0 1 | White 0 : 255 => no
4k3/8/8/8/2P5/8/8/4K3 | 4k3/8/8/8/8/8/4P3/4K3 w - - 0 1 | White 0 : 2 => yes
4k3/8/8/8/2P5/8/8/4K3 | 4k3/8/8/8/8/8/4P3/4K3 w - - 0 1 | White 0 : 3 => no";

#[test]
fn prices_of_a_pawn_too_near(rt: HostRuntime) {
    check_prices(&rt, TOO_NEAR);
}
