//! Tariffs as a search uses them: that what excludes a node is a tariff by which the bound excludes it, that none is
//! missed, and that no position of a game is excluded.

use crate::texts::{check_line, diagram};
use pg_board::Color;
use pg_captures::Bound;
use pg_fen::Diagram;
use pg_moves::legal_moves;
use pg_position::Position;
use pg_prices::color_key;
use pg_tariffs::{Keys, Tariffs};
use pg_tolls::{Tariff, Tolls};
use std::alloc::Global;
use std::process::Abort;

// The keys of a position.
fn keys_of(position: &Position) -> Keys {
    let (board, rights) = (position.board(), position.rights());
    Keys {
        white: color_key(&board, rights, Color::White),
        black: color_key(&board, rights, Color::Black),
    }
}

// Whether the bound by a tariff excludes a node.
fn is_excluded(
    rt: &impl Abort,
    alloc: Global,
    goal: &Diagram,
    tariff: &Tariff,
    position: &Position,
    left: u8,
) -> bool {
    let bound = Tolls::new(alloc, goal, tariff, Tolls::FIRST_CODE).expect(rt, "tables");
    bound.excludes(goal, position, left)
}

// That for each line, a placement and a number of plies, a tariff is found that excludes the array with that many left,
// and that it is then the one that excludes it.
fn check_found(rt: &impl Abort, alloc: Global, table: &str) {
    let array = Position::array();
    for line in table.lines() {
        let (placement, plies) = line.split_once(' ').expect(rt, line);
        let left = plies.parse::<u8>().expect(rt, line);
        let goal = diagram(rt, placement);
        let mut tariffs = Tariffs::new(alloc, &goal).expect(rt, line);
        let found = tariffs.find(&array, left).expect(rt, line).expect(rt, line);
        check_line(
            rt,
            line,
            is_excluded(rt, alloc, &goal, &found, &array, left),
        );
        let before = tariffs
            .quick(&array, keys_of(&array), left)
            .expect(rt, line);
        let number = tariffs.add(&found).expect(rt, line);
        let quick = tariffs
            .quick(&array, keys_of(&array), left)
            .expect(rt, line);
        let all = tariffs.all(&array, keys_of(&array), left).expect(rt, line);
        check_line(rt, line, before.is_none() && number == Some(0));
        check_line(rt, line, quick == Some(0) && all == Some(0));
        check_line(
            rt,
            line,
            tariffs.get(0) == Some((found, 2)) && tariffs.len() == 1,
        );
    }
}

// Diagrams, each with a number of plies: no game of that many from the array reaches it.
const DEAD: &str = "2kr2nr/1pp1b1p1/p3Pp1p/1b6/P1P4P/2K1P3/2n3P1/RNB2BNR 23
2kr2n1/ppp1p3/3P1bpr/P3N2p/3p2b1/3PN1p1/2P1PP1P/R2QKB1R 29
2k1b1nr/pp5p/5Pp1/2n1b3/1pP1P1P1/N6P/PR3KBR/2Br2N1 29
6qr/1bp2k1n/rp1p3p/1n1NpPQ1/2P1P1p1/P2P1PBP/8/R4KNR 35
1n1r2k1/r2p1p1p/ppp5/P2n4/1P3p2/Rb1pPKPN/1P4RP/2B2B2 35";

#[test]
fn dead_trees(rt: HostRuntime) {
    check_found(&rt, rt.alloc(), DEAD);
}

// Tariffs beside the bounds by the same tariffs, and what they said so far of nodes.
#[derive(Drop)]
struct Trial {
    goal: Diagram,
    tariffs: Tariffs,
    bounds: Vec<Tolls>,
    excluded: u64,
    open: u64,
}

impl Trial {
    // Adds a tariff with other weights.
    fn add(&mut self, rt: &impl Abort, alloc: Global, tariff: &Tariff, weights: [u8; 2]) {
        let other = Tariff {
            weights,
            tolls: tariff.tolls,
        };
        let bound = Tolls::new(alloc, &self.goal, &other, Tolls::FIRST_CODE).expect(rt, "tables");
        let number = self.tariffs.add(&other).expect(rt, "memory");
        assert!(rt; number == Some(self.bounds.len()));
        self.bounds.push(bound).expect(rt, "memory");
    }

    // Whether the bound of a number excludes a node, if there is a number.
    fn is_right(&self, number: Option<usize>, position: &Position, left: u8) -> bool {
        match number {
            None => true,
            Some(number) => match self.bounds.get(number) {
                None => false,
                Some(bound) => bound.excludes(&self.goal, position, left),
            },
        }
    }

    // Whether some bound excludes a node by what plans are charged.
    fn some_excludes(&self, position: &Position, left: u8) -> bool {
        for bound in self.bounds.as_slice() {
            if bound.leasts(position).is_some() && bound.excludes(&self.goal, position, left) {
                return true;
            }
        }
        false
    }

    // That all tariffs say what the bounds do of a node, and few of them no more.
    fn ask(&mut self, rt: &impl Abort, position: &Position, left: u8) {
        let keys = keys_of(position);
        let quick = self
            .tariffs
            .quick(position, keys, left)
            .expect(rt, "memory");
        assert!(rt; self.is_right(quick, position, left));
        let all = self.tariffs.all(position, keys, left).expect(rt, "memory");
        assert!(rt; self.is_right(all, position, left));
        assert!(rt; all.is_some() == self.some_excludes(position, left));
        if all.is_some() {
            self.excluded = self.excluded.saturating_add(1);
        } else {
            self.open = self.open.saturating_add(1);
        }
    }

    // Asks of the nodes behind a position, with few plies left and with more.
    fn ask_behind(&mut self, rt: &impl Abort, alloc: Global, position: &Position, left: u8) {
        let moves = legal_moves(alloc, position).expect(rt, "memory");
        for m in moves.as_slice() {
            let next = position.play(*m).expect(rt, "a move");
            self.ask(rt, &next, left.saturating_sub(1));
            self.ask(rt, &next, left.saturating_add(1));
        }
    }
}

// A number below another one, by a linear congruence of 64 bits.
fn drawn(dice: &mut u64, bound: usize) -> usize {
    *dice = dice
        .wrapping_mul(6_364_136_223_846_793_005)
        .wrapping_add(1_442_695_040_888_963_407);
    let number = usize::try_from(*dice >> 33).unwrap_or(0);
    number.checked_rem(bound).unwrap_or(0)
}

// A position that a drawn move leads to; the same where no move is legal.
fn drawn_next(rt: &impl Abort, alloc: Global, dice: &mut u64, position: &Position) -> Position {
    let moves = legal_moves(alloc, position).expect(rt, "memory");
    let at = drawn(dice, moves.len());
    match moves.get(at) {
        Some(m) => position.play(*m).expect(rt, "a move"),
        None => *position,
    }
}

// A trial by twenty tariffs, with the tolls of one that is found for the array and other weights.
fn trial_of(rt: &impl Abort, alloc: Global, placement: &str, left: u8) -> Trial {
    let goal = diagram(rt, placement);
    let mut trial = Trial {
        goal,
        tariffs: Tariffs::new(alloc, &goal).expect(rt, "memory"),
        bounds: Vec::new(alloc),
        excluded: 0,
        open: 0,
    };
    let found = trial
        .tariffs
        .find(&Position::array(), left)
        .expect(rt, "memory");
    let tariff = found.expect(rt, placement);
    for i in 0..20u8 {
        let white = tariff.weights[0].saturating_add(i % 5);
        let black = tariff.weights[1].saturating_add(i / 5);
        trial.add(
            rt,
            alloc,
            &tariff,
            [white.saturating_sub(2), black.saturating_sub(2)],
        );
    }
    trial
}

// That tariffs say what the bounds say along a line of drawn moves, and that there are nodes of either kind.
fn check_line_of(rt: &impl Abort, alloc: Global, placement: &str, plies: u8) {
    let mut trial = trial_of(rt, alloc, placement, plies);
    let mut dice = 1u64;
    let mut position = Position::array();
    for ply in 0..6u8 {
        trial.ask_behind(rt, alloc, &position, plies.saturating_sub(ply));
        position = drawn_next(rt, alloc, &mut dice, &position);
    }
    assert!(rt;
        trial.excluded > 20 && trial.open > 20,
        "{} {}",
        trial.excluded,
        trial.open
    );
}

#[test]
fn nodes(rt: HostRuntime) {
    check_line_of(
        &rt,
        rt.alloc(),
        "2kr2nr/1pp1b1p1/p3Pp1p/1b6/P1P4P/2K1P3/2n3P1/RNB2BNR",
        23,
    );
    check_line_of(
        &rt,
        rt.alloc(),
        "6qr/1bp2k1n/rp1p3p/1n1NpPQ1/2P1P1p1/P2P1PBP/8/R4KNR",
        35,
    );
}

// The positions of a game of drawn moves.
fn drawn_game(rt: &impl Abort, alloc: Global, dice: &mut u64, plies: usize) -> Vec<Position> {
    let mut positions = Vec::new(alloc);
    let mut position = Position::array();
    positions.push(position).expect(rt, "memory");
    for _ in 0..plies {
        position = drawn_next(rt, alloc, dice, &position);
        positions.push(position).expect(rt, "memory");
    }
    positions
}

// Adds tariffs that are found for the array with fewer plies than a game has.
fn add_found(rt: &impl Abort, tariffs: &mut Tariffs, plies: u8) {
    for less in 1..4u8 {
        let left = plies.saturating_sub(less.saturating_mul(2));
        if let Some(found) = tariffs.find(&Position::array(), left).expect(rt, "memory") {
            tariffs.add(&found).expect(rt, "memory");
        }
    }
}

// That no tariff is found that excludes a position of a drawn game, and none that was found for fewer plies does. The
// answer is how many these are.
fn check_game(rt: &impl Abort, alloc: Global, dice: &mut u64, plies: u8) -> usize {
    let positions = drawn_game(rt, alloc, dice, usize::from(plies));
    let end = positions.last().expect(rt, "a position");
    let mut tariffs = Tariffs::new(alloc, &Diagram::of(end)).expect(rt, "memory");
    add_found(rt, &mut tariffs, plies);
    let mut left = plies;
    for position in positions.as_slice() {
        let keys = keys_of(position);
        assert!(rt;
            tariffs
                .quick(position, keys, left)
                .expect(rt, "memory")
                .is_none()
        );
        assert!(rt;
            tariffs
                .all(position, keys, left)
                .expect(rt, "memory")
                .is_none()
        );
        assert!(rt; tariffs.find(position, left).expect(rt, "memory").is_none());
        left = left.saturating_sub(1);
    }
    tariffs.len()
}

// That no position of some drawn games is excluded, though there are tariffs that exclude with fewer plies.
fn check_games(rt: &impl Abort, alloc: Global) {
    let mut dice = 7u64;
    let mut count = 0usize;
    for plies in 8..12u8 {
        count = count.saturating_add(check_game(rt, alloc, &mut dice, plies));
    }
    assert!(rt; count > 4, "{count}");
}

#[test]
fn games(rt: HostRuntime) {
    check_games(&rt, rt.alloc());
}
