//! Whether two moves may lead to a diagram, held against all pairs of legal moves.

use crate::shared::{chosen, field, next};
use pg_board::{Kind, Man};
use pg_fen::{Diagram, read_position};
use pg_moves::legal_moves;
use pg_position::{Move, Position, home_rank};
use pg_searcher::may_lead;
use std::alloc::Global;
use std::process::Abort;

// Positions with captures and recaptures, castling on both wings, captures en passant at once and after a move, and
// promotions of either side.
const STARTS: &str = "rnbqkbnr/pppppppp/8/8/8/8/PPPPPPPP/RNBQKBNR w KQkq - 0 1
r3k2r/p1ppqpb1/bn2pnp1/3PN3/1p2P3/2N2Q1p/PPPBBPPP/R3K2R w KQkq - 0 1
r3k2r/p1ppqpb1/bn2pnp1/3PN3/1p2P3/2N2Q1p/PPPBBPPP/R3K2R b KQkq - 0 1
r3k2r/8/8/8/8/8/8/R3K2R w KQkq - 0 1
rnbqkbnr/ppp1p1pp/8/3pPp2/8/8/PPPP1PPP/RNBQKBNR w KQkq f6 0 3
rnbqkbnr/ppp2ppp/4p3/8/2Pp4/4P3/PP1P1PPP/RNBQKBNR b KQkq c3 0 3
rnbqkbnr/ppp1pppp/8/8/3p4/8/PPPPPPPP/RNBQKBNR w KQkq - 0 1
rnbqkbnr/pppppppp/8/4P3/8/8/PPPP1PPP/RNBQKBNR b KQkq - 0 1
n1n5/PPPk4/8/8/8/8/4Kppp/5N1N w - - 0 1
n1n5/PPPk4/8/8/8/8/4Kppp/5N1N b - - 0 1
4k3/8/3n4/8/R7/8/3N1b2/4K3 w - - 0 1";

// The position after a legal move.
fn after(position: &Position, m: &Move) -> Position {
    position.play(*m).unwrap_or(*position)
}

// Whether a legal move leads to the diagram.
fn leads(rt: &impl Abort, alloc: Global, diagram: &Diagram, position: &Position) -> bool {
    for m in &legal_moves(alloc, position).expect(rt, "memory") {
        if diagram.matches(&after(position, m)) {
            return true;
        }
    }
    false
}

// Whether a legal move may be followed by one that leads to the diagram.
fn two_lead(rt: &impl Abort, alloc: Global, diagram: &Diagram, position: &Position) -> bool {
    for m in &legal_moves(alloc, position).expect(rt, "memory") {
        if leads(rt, alloc, diagram, &after(position, m)) {
            return true;
        }
    }
    false
}

// Whether a pawn of the side to move stands before its last rank, so that it may promote.
fn is_before_promotion(position: &Position) -> bool {
    let side = position.side();
    let mut pawns = position.board().squares_of(Man::new(side, Kind::Pawn));
    for _ in 0..64u8 {
        let Some(square) = pawns.pop_first() else {
            return false;
        };
        if square.rank() == home_rank(side.other()) {
            return true;
        }
    }
    false
}

// The position after `plies` moves by chance.
fn wander(
    rt: &impl Abort,
    alloc: Global,
    start: &Position,
    plies: u8,
    state: &mut u64,
) -> Position {
    let mut position = *start;
    for _ in 0..plies {
        *state = next(*state);
        if let Some(m) = chosen(rt, alloc, &position, *state >> 33) {
            position = position.play(m).unwrap_or(position);
        }
    }
    position
}

// How often two moves led to a diagram, and how often that was denied.
#[derive(Clone, Copy)]
struct Told {
    led: u32,
    denied: u32,
}

// What is told of a position and a diagram is right: where no pawn is about to promote, it is whether two moves lead
// there.
fn check_one(
    rt: &impl Abort,
    alloc: Global,
    diagram: &Diagram,
    position: &Position,
    told: &mut Told,
) {
    let said = may_lead(diagram, position);
    if two_lead(rt, alloc, diagram, position) {
        assert!(rt; said);
        told.led = told.led.saturating_add(1);
    } else {
        assert!(rt; !said || is_before_promotion(position));
    }
    told.denied = told.denied.saturating_add(u32::from(!said));
}

// Of a position, and of those that come of it by two moves and by four, diagrams that are two moves away from the
// first.
#[test]
fn two_moves_lead_or_not(rt: HostRuntime) {
    let mut told = Told { led: 0, denied: 0 };
    let mut state = 0x1234_5678_9abc_def1u64;
    for row in STARTS.lines() {
        let start = read_position(field(row, 0)).expect(&rt, row).position;
        for _ in 0..16u8 {
            let end = wander(&rt, rt.alloc(), &start, 2, &mut state);
            let cousin = wander(&rt, rt.alloc(), &start, 2, &mut state);
            let farther = wander(&rt, rt.alloc(), &start, 4, &mut state);
            let diagram = Diagram::of(&end);
            check_one(&rt, rt.alloc(), &diagram, &start, &mut told);
            check_one(&rt, rt.alloc(), &diagram, &cousin, &mut told);
            check_one(&rt, rt.alloc(), &diagram, &farther, &mut told);
        }
    }
    assert!(rt;
        told.led >= 176 && told.denied > 300,
        "{} {}",
        told.led,
        told.denied
    );
}

// Positions from which two moves lead to a diagram: a pawn that goes two squares is taken en passant; both castle; a
// man is taken and avenged, so that its square is as before; a king takes and is not taken; a pawn goes two squares and
// is taken, since to go one leaves its king attacked.
const LED: &str =
    "rnbqkbnr/ppp1pppp/8/8/3p4/8/PPPPPPPP/RNBQKBNR w KQkq - 0 1 | rnbqkbnr/ppp1pppp/8/8/8/2p5/PP1PPPPP/RNBQKBNR
r3k2r/8/8/8/8/8/8/R3K2R w KQkq - 0 1 | 2kr3r/8/8/8/8/8/8/R4RK1
4k3/8/1n6/3n4/8/4N3/8/4K3 w - - 0 1 | 4k3/8/8/3n4/8/8/8/4K3
4k3/8/8/8/8/8/3n4/4K3 w - - 0 1 | 8/3k4/8/8/8/8/3K4/8
4k3/8/b7/8/3p4/8/2P5/5K2 w - - 0 1 | 4k3/8/b7/8/8/2p5/8/5K2";

#[test]
fn two_moves_lead(rt: HostRuntime) {
    for row in LED.lines() {
        let start = read_position(field(row, 0)).expect(&rt, row).position;
        let diagram = Diagram::read(field(row, 1)).expect(&rt, row);
        assert!(rt; two_lead(&rt, rt.alloc(), &diagram, &start));
        assert!(rt; may_lead(&diagram, &start));
    }
}

// Two, three and four squares differ after the first move, and no move changes them so.
const NOT_LED: &str = "4k3/8/8/8/8/8/7P/4K3 w - - 0 1 | 8/8/8/4k3/8/7P/8/4K3
rnbqkbnr/ppp1pppp/8/8/2Pp4/8/PP1PPPPP/RNBQKBNR w KQkq - 0 1 | rnbqkbnr/ppp1pppp/8/8/8/2p4P/PP1PPPP1/RNBQKBNR
4k3/8/8/8/2Pn4/8/7P/4K3 w - - 0 1 | 4k3/8/8/8/8/2n4P/8/4K3
r3k2r/8/8/8/8/8/7P/4K3 w q - 0 1 | r4rk1/8/8/8/8/7P/8/4K3
r3k2r/8/8/8/8/8/7P/4K3 w k - 0 1 | 2kr3r/8/8/8/8/7P/8/4K3";

#[test]
fn two_moves_do_not_lead(rt: HostRuntime) {
    for row in NOT_LED.lines() {
        let start = read_position(field(row, 0)).expect(&rt, row).position;
        let diagram = Diagram::read(field(row, 1)).expect(&rt, row);
        assert!(rt; !two_lead(&rt, rt.alloc(), &diagram, &start));
        assert!(rt; !may_lead(&diagram, &start), "{row}");
    }
}
