//! Problems that are judged by tolls.
ghost use Rattle.pg_judge.specs.Ruling.{IsFindingOf};

use super::*;
use crate::shared::{add, boxed, halves};
use pg_captures::Bound;
use pg_certificate::FromRead;
use pg_moves::Unwatched;
use pg_san::Games;
use pg_tolls::{Tariff, Tolls};

// How a problem is judged by tolls: what stands before its certificate, and how many nodes are visited at most, first
// for tariffs and then by them.
#[derive(Clone, Copy)]
pub(super) struct Orders<'a> {
    pub(super) lead: &'a [u8],
    pub(super) first: u64,
    pub(super) second: u64,
}

const ORDERS: Orders<'static> = Orders {
    lead: b"in front",
    first: 5000,
    second: 1500,
};

// The five bounds, and one by each of the tariffs.
fn with_tolls<R: Abort + AllocGlobal>(
    rt: &R,
    entry: &Entry<'_>,
    tariffs: &[Tariff],
) -> Vec<Box<dyn Bound>> {
    let mut bounds = five_bounds(rt);
    let mut code = Tolls::FIRST_CODE;
    for tariff in tariffs {
        let tolls = Tolls::new(rt.alloc(), &entry.problem.diagram, tariff, code);
        add(rt, &mut bounds, boxed(rt, tolls.expect(rt, "memory")));
        code = code.saturating_add(1);
    }
    bounds
}

// What is found by the tariffs that are prepared.
fn judged<R: Abort + AllocGlobal, S: Scratch, P: JudgeProgress>(
    rt: &R,
    entry: &Entry<'_>,
    prepared: Prepared,
    orders: Orders<'_>,
    scratch: &mut S,
    watch: &mut P,
) -> Ruling
    ensures { IsFindingOf entry.now result.finding }
{
    let bounds = with_tolls(rt, entry, &prepared.tariffs);
    judge_by_tolls(
        rt.alloc(),
        entry,
        bounds.as_slice(),
        prepared,
        orders.lead,
        nodes(orders.second),
        scratch,
        watch,
    )
}

// The author's games, as games that are known.
fn known_of<R: Abort + AllocGlobal>(rt: &R, entry: &Entry<'_>) -> Games {
    let mut games = Games::new(rt.alloc());
    if let Some(game) = entry.games.game(0) {
        assert!(rt; games.add(game).is_ok());
    }
    games
}

// The row of a problem that is judged by tolls, as if the search for cooks had gone through all games with no foreign
// move.
pub(super) fn row_by_tolls<R: Abort + AllocGlobal, S: Scratch, P: JudgeProgress>(
    rt: &R,
    line: &str,
    orders: Orders<'_>,
    scratch: &mut S,
    watch: &mut P,
) -> String {
    let entry = entry_of(rt, line);
    let bounds = five_bounds(rt);
    let pending = Pending::new(known_of(rt, &entry), Some(0));
    match prepare_tolls(
        rt.alloc(),
        &entry,
        &bounds,
        pending,
        nodes(orders.first),
        watch,
    ) {
        Ok(prepared) => {
            let ruling = judged(rt, &entry, prepared, orders, scratch, watch);
            row_of(rt, &entry, &ruling, Old::Absent)
        }
        Err(ruling) => row_of(rt, &entry, &ruling, Old::Absent),
    }
}

// That the row of a problem which is judged so is this one.
fn check_row<R: Abort + AllocGlobal>(rt: &R, line: &str, orders: Orders<'_>, wanted: &str) {
    let mut scratch = Cursor::new(Vec::new(rt.alloc()));
    let row = row_by_tolls(rt, line, orders, &mut scratch, &mut Unwatched);
    assert_eq!(rt; row.as_str(), wanted);
}

const LONG: &str = "long 2bqr1k1/2p1ppbp/1pp4p/7n/r2P3P/8/P1P1PPP1/RNB1KBNR 9.5";

// As many nodes are too few by journeys.
#[test]
fn tolls_settle_what_journeys_do_not(rt: HostRuntime) {
    let limits = nodes(ORDERS.second);
    let mut scratch = Cursor::new(Vec::new(rt.alloc()));
    let row = ruled(&rt, LONG, limits, &mut scratch, &mut Unwatched);
    assert_eq!(rt;
        row.as_str(),
        "long|9.5|not settled|-|journeys, 1476 nodes|1 game met; none below 9.5; limit reached\n"
    );
    check_row(
        &rt,
        LONG,
        ORDERS,
        "long|9.5|sound|-|tolls, 1106 nodes|1. d4 Nf6 2. Qd2 Nh5 3. Qh6 gxh6 4. b4 Bg7 5. b5 O-O 6. b6 Re8 \
7. bxa7 b6 8. axb8=N Ra4 9. Nc6 dxc6 10. h4\n",
    );
}

// What stands in the scratch of a problem that is settled: what is to stand in front, and a certificate that is right
// by the same bounds.
#[test]
fn a_certificate_stands_behind_its_lead(rt: HostRuntime) {
    let entry = entry_of(&rt, LONG);
    let bounds = five_bounds(&rt);
    let Ok(prepared) = prepare_tolls(
        rt.alloc(),
        &entry,
        &bounds,
        Pending::new(Games::new(rt.alloc()), None),
        nodes(ORDERS.first),
        &mut Unwatched,
    ) else {
        panic!(rt; "no tariffs");
    };
    assert_eq!(rt; prepared.tariffs.len(), 2);
    let bounds = with_tolls(&rt, &entry, &prepared.tariffs);
    let mut scratch = Cursor::new(Vec::new(rt.alloc()));
    judged(&rt, &entry, prepared, ORDERS, &mut scratch, &mut Unwatched);
    let bytes = scratch.into_inner();
    let front = ORDERS.lead.len();
    let lead = bytes.as_slice().get(..front).unwrap_or(b"");
    let certificate = bytes.as_slice().get(front..).unwrap_or(b"");
    assert!(rt; lead == ORDERS.lead);
    let mut source = FromRead::new(certificate);
    match recheck(rt.alloc(), &entry, &bounds, &mut source, 10_000) {
        Ok(ruling) => assert!(rt; is_sound(&ruling)),
        Err(fault) => panic!(rt; "{fault}"),
    }
}

// Games are known that are met while tariffs are looked for, also where a search by tolls has too few nodes to meet
// one; and a shorter game is met again.
const FEW: &str =
    "100 1000 four rnbqkbnr/1pp1pppp/p2P4/8/8/8/PPPP1PPP/RNBQKBNR 2.5 => four|2.5|not sound|-|tariffs, 74 nodes|\
2 games met: 1. e4 a6 2. e5 d5 3. exd6; 1. e4 a6 2. e5 d6 3. exd6; they part at move 2 of Black
1000 20 four rnbqkbnr/1pp1pppp/p2P4/8/8/8/PPPP1PPP/RNBQKBNR 2.5 => four|2.5|not sound|-|tolls, 19 nodes|\
4 games met: 1. e4 a6 2. e5 d5 3. exd6; 1. e4 a6 2. e5 d6 3. exd6; they part at move 2 of Black
1000 1000 four rnbqkbnr/1pp1pppp/p2P4/8/8/8/PPPP1PPP/RNBQKBNR 2.5 => four|2.5|cooked|-|tolls, 209 nodes|\
4 games: 1. e4 a6 2. e5 d5 3. exd6; 1. e4 a6 2. e5 d6 3. exd6; they part at move 2 of Black
50 1000 four rnbqkbnr/1pp1pppp/p2P4/8/8/8/PPPP1PPP/RNBQKBNR 2.5 1. e4 a6 2. e5 d5 3. exd6 => four|2.5|not settled|\
solves|tariffs, 21 nodes|1 game met; none below 2.5; no cook with at most 0 foreign moves; limit reached
1000 1000 short rnbqkbnr/pppp1ppp/8/4p3/4P3/8/PPPP1PPP/RNBQKBNR 2.0 => short|2.0|not sound|-|tariffs, 0 nodes|\
a game of 2 plies: 1. e4 e5";

#[test]
fn games_that_are_met_are_known(rt: HostRuntime) {
    for row in FEW.lines() {
        let (asked, wanted) = halves(&rt, row, " => ");
        let (first, rest) = halves(&rt, asked, " ");
        let (second, line) = halves(&rt, rest, " ");
        let orders = Orders {
            lead: b"",
            first: first.parse::<u64>().expect(&rt, row),
            second: second.parse::<u64>().expect(&rt, row),
        };
        let wanted = format!(in rt.alloc(); "{wanted}\n").expect(&rt, "memory");
        check_row(&rt, line, orders, wanted.as_str());
    }
}

// With no tariffs and no games known, a search by tolls finds what one by journeys does.
#[test]
fn no_tariffs_are_journeys(rt: HostRuntime) {
    let entry = entry_of(
        &rt,
        "short rnbqkbnr/pppp1ppp/8/4p3/4P3/8/PPPP1PPP/RNBQKBNR 2.0",
    );
    let prepared = Prepared {
        tariffs: Vec::new(rt.alloc()),
        pending: Pending::new(Games::new(rt.alloc()), None),
    };
    let mut scratch = Cursor::new(Vec::new(rt.alloc()));
    let ruling = judged(&rt, &entry, prepared, ORDERS, &mut scratch, &mut Unwatched);
    let row = row_of(&rt, &entry, &ruling, Old::Absent);
    assert_eq!(rt;
        row.as_str(),
        "short|2.0|not sound|-|tolls, 0 nodes|a game of 2 plies: 1. e4 e5\n"
    );
}
