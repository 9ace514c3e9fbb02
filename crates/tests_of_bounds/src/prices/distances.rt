//! Needs and price lists, held against the bounds after random games.

use super::*;
use crate::texts::{check_all, diagram, position};
use pg_captures::{Bound, Promotions};
use pg_moves::legal_moves;
use pg_pawns::shift_need;
use pg_position::{Move, Rights};
use pg_travel::prices_exclude_by;
use std::alloc::Global;

// The position after `plies` moves by chance, and the next state of the chance.
fn wander(
    rt: &impl Abort,
    alloc: Global,
    start: &Position,
    plies: u8,
    state: u64,
) -> (Position, u64) {
    let mut position = *start;
    let mut state = state;
    for _ in 0..plies {
        state = next(state);
        position = stepped(rt, alloc, &position, state >> 20);
    }
    (position, state)
}

// The position after the legal move with this number, counted round; the same where there is none.
fn stepped(rt: &impl Abort, alloc: Global, position: &Position, number: u64) -> Position {
    let moves = legal_moves(alloc, position).expect(rt, "memory");
    let pick = if moves.is_empty() {
        0
    } else {
        number % moves.len() as u64
    };
    match moves.get(pick as usize) {
        Some(m) => position.play(*m).unwrap_or(*position),
        None => *position,
    }
}

// Whether the price lists of travel exclude up to their value and no further.
fn travel_is_priced(rows: &Rows, diagram: &Diagram, position: &Position, need: u8) -> bool {
    let (value, lists) = travel_lists(rows, position);
    let Some(prices) = prices_of(lists.as_slice()) else {
        return false;
    };
    let fewer = value.saturating_sub(1).min(64) * 2;
    let color = rows.color();
    let by = pg_travel::Rows::new(diagram);
    let beyond = prices_exclude_by(&by, diagram, position, fewer, color, &prices);
    let within = prices_exclude_by(&by, diagram, position, value.min(64) * 2, color, &prices);
    value >= need.min(65) && beyond == (value > 0) && within == (value > 64)
}

// Whether the price list of pawns excludes where its value is above the captures that are owed.
fn pawns_are_priced(rows: &Rows, diagram: &Diagram, position: &Position, shift: u8) -> bool {
    let (value, lists) = pawn_lists(rows, position);
    let Some(prices) = prices_of(lists.as_slice()) else {
        return false;
    };
    let color = rows.color();
    let owed = pg_captures::owed(color, diagram, position);
    let excludes = pg_pawns::prices_exclude(diagram, position, color, prices.u(0), prices.v(0));
    prices.ways() == 1 && value >= shift.min(17) && excludes == (i16::from(value) > owed)
}

// What the rows give of a position for a diagram is what the checked functions give.
fn agrees(rt: &impl Abort, alloc: Global, diagram: &Diagram, position: &Position) -> bool {
    let mut short = false;
    for color in [Color::White, Color::Black] {
        let rows = Rows::new(alloc, color, diagram).expect(rt, "memory");
        if first_needs(&rows, diagram, position).need == NEVER {
            short = true;
        }
        if !rows_agree(&rows, diagram, position) {
            return false;
        }
    }
    short == Promotions.excludes(diagram, position, 1)
}

fn rows_agree(rows: &Rows, diagram: &Diagram, position: &Position) -> bool {
    let color = rows.color();
    let least = match pg_travel::need(color, diagram, position) {
        Some(need) => need.min(250) as u8,
        None => 200,
    };
    let shift = shift_need(color, diagram, position).min(250) as u8;
    let need = need_by_rows(rows, position);
    let needs = first_needs(rows, diagram, position);
    (need == least || (need >= 200 && least >= 200))
        && (needs.need == NEVER || (needs.need == need && needs.shift == shift))
        && travel_is_priced(rows, diagram, position, need)
        && pawns_are_priced(rows, diagram, position, shift)
}

// Positions and diagrams along random games: as many plies between them as before them.
#[test]
fn needs_are_those_of_the_bounds(rt: HostRuntime) {
    let mut state = 0x9e37_79b9_7f4a_7c15u64;
    for round in 0..60u8 {
        let plies = round % 30;
        let (position, after) = wander(&rt, rt.alloc(), &Position::array(), plies, state);
        let (end, after) = wander(&rt, rt.alloc(), &position, plies, after);
        state = after;
        assert!(rt;
            agrees(&rt, rt.alloc(), &Diagram::of(&end), &position),
            "{round}"
        );
        assert!(rt;
            agrees(&rt, rt.alloc(), &Diagram::of(&position), &end),
            "{round}"
        );
    }
}

// After 1. e4 e5 2. Nf3: from the array White has two steps to make.
#[test]
fn a_board_is_priced(rt: HostRuntime) {
    let diagram = diagram(&rt, "rnbqkbnr/pppp1ppp/8/4p3/4P3/5N2/PPPP1PPP/RNBQKB1R");
    let rows = Rows::new(rt.alloc(), Color::White, &diagram).expect(&rt, "memory");
    let array = Position::array();
    check_all(
        &rt,
        &[
            rows.targets() == 16,
            rows.pawn_targets() == 8,
            need_by_rows(&rows, &array) == 2,
            travel_lists(&rows, &array).0 == 2,
            pawn_lists(&rows, &array).0 == 0,
        ],
    );
}

// Whether a legal move takes nothing, and is neither castling nor a promotion.
fn is_plain(position: &Position, after: &Position, m: &Move) -> bool {
    let board = position.board();
    let is_quiet = board.get(m.to).is_none() && m.promotion.is_none();
    is_quiet && board.differing(&after.board()).len() == 2
}

// The need after a plain move, by the least distances of the other men and the mover's from his new square.
fn need_by_leasts(rows: &Rows, leasts: &Leasts, position: &Position, m: &Move) -> u8 {
    match position.board().get(m.from) {
        Some(man) => leasts
            .without(rows, man.kind, m.from)
            .need(rows.distances(man.kind, m.to)),
        None => NEVER,
    }
}

// What the need is not below once the man of a move has moved, whatever his move: with each of his distances less by
// one.
fn need_once_moved(rows: &Rows, leasts: &Leasts, position: &Position, m: &Move) -> u8 {
    let Some(man) = position.board().get(m.from) else {
        return NEVER;
    };
    let mut row = rows.distances(man.kind, m.from);
    for t in 0..MOST_MEN {
        row[t] = row[t].saturating_sub(1);
    }
    leasts.without(rows, man.kind, m.from).need(row)
}

// For each number of plies up to 60 the men that are cut off.
fn cut_off_sets(rows: &Rows, leasts: &Leasts, position: &Position) -> [SquareSet; 61] {
    let board = position.board();
    let mut sets = [SquareSet::empty(); 61];
    for plies in 0..61u8 {
        sets[usize::from(plies)] = leasts.cut_off(rows, &board, plies);
    }
    sets
}

// Whether, for each number of plies, the man of a move is among those that are cut off just where the need is above it
// whatever his move.
fn is_cut_off_rightly(sets: &[SquareSet; 61], from: Square, need: u8) -> bool {
    for plies in 0..61u8 {
        if sets[usize::from(plies)].contains(from) != (need > plies) {
            return false;
        }
    }
    true
}

// How many plain moves a position has; none where least distances give another need after one of them, or tell wrongly
// of its man that he is cut off.
fn agreeing_moves(rt: &impl Abort, alloc: Global, rows: &Rows, position: &Position) -> Option<u32> {
    let leasts = Leasts::new(rows, &position.board(), position.rights());
    let sets = cut_off_sets(rows, &leasts, position);
    let mut count = 0u32;
    for m in &legal_moves(alloc, position).expect(rt, "memory") {
        let after = position.play(*m).unwrap_or(*position);
        if is_plain(position, &after, m) {
            let need = need_by_leasts(rows, &leasts, position, m);
            let least = need_once_moved(rows, &leasts, position, m);
            if need != need_by_rows(rows, &after)
                || least > need
                || !is_cut_off_rightly(&sets, m.from, least)
            {
                return None;
            }
            count = count.saturating_add(1);
        }
    }
    Some(count)
}

// Positions along random games, with castling still to come in the first ones.
#[test]
fn least_distances_give_the_need_after_a_move(rt: HostRuntime) {
    let mut state = 0x2545_f491_4f6c_dd1du64;
    let mut moves = 0u32;
    for round in 0..60u8 {
        let plies = round % 30;
        let (position, after) = wander(&rt, rt.alloc(), &Position::array(), plies, state);
        let (end, after) = wander(&rt, rt.alloc(), &position, plies, after);
        state = after;
        let color = position.side();
        let rows = Rows::new(rt.alloc(), color, &Diagram::of(&end)).expect(&rt, "memory");
        match agreeing_moves(&rt, rt.alloc(), &rows, &position) {
            Some(count) => moves = moves.saturating_add(count),
            None => assert!(rt; false, "{round}"),
        }
    }
    assert!(rt; moves > 1000, "{moves}");
    assert!(rt; Rest::none().need([1; MOST_MEN]) == 0);
}

// Ends of sixteen games that were played, from Morphy's at the opera to Kasparov's with Topalov. Kings of both colours
// have castled in them, to both wings, and stand there or have gone on.
const CASTLED: &str = "\
1n1Rkb1r/p4ppp/4q3/4p1B1/4P3/8/PPP2PPP/2K5
1r3kr1/pbpBBp1p/1b3P2/8/8/2P2q2/P4PPP/3R2K1
1Q6/5pk1/2p3p1/1p2N2p/1b5P/1bn5/2r3P1/2K5
8/Q6p/6p1/5p2/5P2/2p3P1/3r3P/2K1k3
4q2k/2r1r3/4PR1p/p1p5/P1Bp1Q1P/1P6/6P1/6K1
rnbB1b1r/ppk2ppp/2p5/4q3/4n3/8/PPP2PPP/2KR1BNR
6k1/5ppp/pb2p3/1p2P3/1P2bPnP/P6r/1B4QP/R4R1K
8/8/1p1rk3/8/7P/1P1Q4/P1PP2P1/6K1
4Rr1k/1b3Qpp/p7/2qP2P1/7P/1PP5/1P1K4/8
4rk1Q/pp3p2/3p1pp1/q2b4/5N2/5P2/PPP5/2K4R
2kr2nr/p2n1ppp/B1p1p3/8/1P1P1B2/2N4P/1PPK1PP1/7q
2k1r2r/ppp3pp/2n5/3B1b2/5P2/b1P1BQ2/P2N1P1P/2KR3R
5rk1/1P3Bp1/R6p/8/6P1/2B1rQ2/2K3P1/6q1
r1k4r/p2nb1p1/2b4p/1p1n1p2/2PP4/3Q1NB1/1P3PPP/R5K1
6k1/p1p2ppp/2p4r/8/1P1P4/2P1b3/4r2P/R1B2R1K
r1r4k/pp1q3R/5pp1/3p2N1/6Q1/8/PP3PPP/2R3K1";

// After 1. e4 e5 2. Nf3 Nc6 3. Bc4 Bc5 4. d3 d6 5. Nc3 Nf6 6. Be3 Be6 7. Qd2 Qd7 each colour may castle to either
// wing, and its king and rooks have other moves too.
const OPEN: &str = "r3k2r/pppq1ppp/2npbn2/2b1p3/2B1P3/2NPBN2/PPPQ1PPP/R3K2R w KQkq - 4 8";

// The need of travel without castling.
fn need_on_foot(rt: &impl Abort, rows: &Rows, position: &Position) -> u8 {
    let rights = Rights {
        white_king: false,
        white_queen: false,
        black_king: false,
        black_queen: false,
    };
    let (board, side) = (position.board(), position.side());
    let on_foot = Position::from_parts(board, side, rights, position.passed());
    need_by_rows(rows, &on_foot.expect(rt, "a position"))
}

// Positions along random games, with White to move and with Black. In more than fifty of them a way with castling is
// the least.
#[test]
fn least_distances_give_the_need_of_castled_kings(rt: HostRuntime) {
    let mut state = 0x9e6c_63d0_876a_3f6bu64;
    let mut moves = 0u32;
    let mut castled = 0u32;
    let start = position(&rt, OPEN);
    for line in CASTLED.lines() {
        for plies in 0..8u8 {
            let (position, after) = wander(&rt, rt.alloc(), &start, plies, state);
            state = after;
            let rows = Rows::new(rt.alloc(), position.side(), &diagram(&rt, line));
            let rows = rows.expect(&rt, "memory");
            if need_by_rows(&rows, &position) < need_on_foot(&rt, &rows, &position) {
                castled = castled.saturating_add(1);
            }
            match agreeing_moves(&rt, rt.alloc(), &rows, &position) {
                Some(count) => moves = moves.saturating_add(count),
                None => assert!(rt; false, "{line} {plies}"),
            }
        }
    }
    assert!(rt; moves > 4000 && castled > 50, "{moves} {castled}");
}
