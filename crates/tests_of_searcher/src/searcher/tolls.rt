//! Searches that cut by tariffs too: they find the games of those that do not, in a certificate that is checked by
//! these tariffs, and so does a search by those that are found.

use super::found_games::are_same;
use super::journeys::{five_bounds, searched_by_journeys};
use super::*;
use pg_board::Square;
use pg_moves::Unwatched;
use pg_position::Move;
use pg_tolls::{Tariff, Tolls};

// The tolls of a colour with the one that a word such as `We4=-9` spells.
fn with_toll(rt: &impl Abort, tolls: [i8; 64], word: &str) -> [i8; 64] {
    let (place, toll) = halves(rt, word, "=");
    let name = place.as_bytes();
    assert!(rt; name.len() == 3, "{word}");
    let (file, rank) = (name[1].wrapping_sub(b'`'), name[2].wrapping_sub(b'0'));
    let square = Square::new(file, rank).expect(rt, word);
    let mut all = tolls;
    all[usize::from(square.index())] = toll.parse::<i8>().expect(rt, word);
    all
}

// The tariff of a text such as `14 12 We4=-9 Bd5=7`: the weights of White and of Black, and tolls; others are 0.
fn tariff_of(rt: &impl Abort, text: &str) -> Tariff {
    let mut words = text.split(' ');
    let white_weight = words.next().expect(rt, text);
    let black_weight = words.next().expect(rt, text);
    let mut white = [0i8; 64];
    let mut black = [0i8; 64];
    for word in words {
        if word.starts_with('W') {
            let next = with_toll(rt, white, word);
            white = next;
        } else {
            let next = with_toll(rt, black, word);
            black = next;
        }
    }
    Tariff {
        weights: [
            white_weight.parse::<u8>().expect(rt, text),
            black_weight.parse::<u8>().expect(rt, text),
        ],
        tolls: [white, black],
    }
}

// The tariffs of a text, parted by semicolons; none where it is empty.
fn tariffs_of<R: Abort + AllocGlobal>(rt: &R, text: &str) -> Vec<Tariff> {
    let mut tariffs = Vec::new(rt.alloc());
    for part in text.split("; ") {
        if !part.is_empty() {
            tariffs.push(tariff_of(rt, part)).expect(rt, "memory");
        }
    }
    tariffs
}

// These bounds and those by tariffs, named by the codes from 6 on.
fn with_tolls<R: Abort + AllocGlobal>(
    rt: &R,
    goal: &Goal,
    bounds: Vec<Box<dyn Bound>>,
    tariffs: &[Tariff],
) -> Vec<Box<dyn Bound>> {
    let mut all = bounds;
    let mut code = Tolls::FIRST_CODE;
    for tariff in tariffs {
        let tolls = Tolls::new(rt.alloc(), &goal.diagram, tariff, code).expect(rt, "memory");
        add(&mut all, Box::new(rt.alloc(), tolls).expect(rt, "memory"));
        code = code.saturating_add(1);
    }
    all
}

// What a search by tariffs of `nodes` nodes finds.
fn searched_by_tolls<W: Sink>(
    alloc: Global,
    goal: &Goal,
    nodes: u64,
    bounds: &[Box<dyn Bound>],
    tariffs: &[Tariff],
    sink: &mut W,
) -> Result<Games, SearchFault> {
    search_by_tolls(
        alloc,
        &goal.diagram,
        goal.length,
        nodes,
        bounds,
        tariffs,
        sink,
        &mut Unwatched,
    )
}

// How many nodes a search by tariffs visits, as a check of its certificate says, which wants the games of a search
// without them.
fn nodes_by_tolls<R: Abort + AllocGlobal>(
    rt: &R,
    goal: &Goal,
    by_journeys: bool,
    tariffs: &[Tariff],
    wanted: &Games,
) -> u64 {
    let mut sink = ToWrite::new(Vec::new(rt.alloc()));
    let bounds = lent(rt, goal, by_journeys);
    let games = searched_by_tolls(rt.alloc(), goal, NODES, &bounds, tariffs, &mut sink);
    let games = games.expect(rt, "found");
    assert!(rt; are_same(&games, wanted));
    let bytes = sink.into_inner();
    let bounds = with_tolls(rt, goal, lent(rt, goal, by_journeys), tariffs);
    let said = checked_by(rt.alloc(), goal, &games, &bounds, bytes.as_slice());
    number(rt, said.as_str())
}

// What a search without tariffs finds, and how many nodes it visits.
#[derive(Drop)]
struct Without {
    games: Games,
    nodes: u64,
}

fn settled_without<R: Abort + AllocGlobal>(
    rt: &R,
    goal: &Goal,
    bounds: &[Box<dyn Bound>],
) -> Without {
    let mut sink = ToWrite::new(Vec::new(rt.alloc()));
    let games = searched_by_journeys(rt.alloc(), goal, NODES, bounds, &mut sink);
    let games = games.expect(rt, "found");
    let bytes = sink.into_inner();
    let said = checked_by(rt.alloc(), goal, &games, bounds, bytes.as_slice());
    let nodes = number(rt, said.as_str());
    Without { games, nodes }
}

// The bounds that a search is lent: with journeys or without.
fn lent<R: Abort + AllocGlobal>(rt: &R, goal: &Goal, by_journeys: bool) -> Vec<Box<dyn Bound>> {
    if by_journeys {
        five_bounds(rt, &goal.diagram)
    } else {
        four_bounds(rt.alloc())
    }
}

// How many nodes a search visits without tariffs, and how many with them.
fn both<R: Abort + AllocGlobal>(
    rt: &R,
    goal: &Goal,
    by_journeys: bool,
    tariffs: &[Tariff],
) -> (u64, u64) {
    let bounds = lent(rt, goal, by_journeys);
    let without = settled_without(rt, goal, &bounds);
    let with = nodes_by_tolls(rt, goal, by_journeys, tariffs, &without.games);
    (without.nodes, with)
}

// Problems of five to seven moves: a diagram and a length, and tariffs that exclude nodes there.
const SHORT: &str =
    "Rnb1kbnr/p1p1pppp/8/3p4/8/8/1PPPPP2/RNBQ1KNR | 5.5 | 16 11 Wb5=-7 Wb7=7 Wd8=-7 Bf1=-7 Bg2=-7 Bh2=-7
rnb1kb1r/ppppqppp/8/8/8/5P2/PPPP1KPP/RNB2BNn | 5.0 | 14 16 Wf3=5 We7=-11 Bd1=-11 Bh1=-2 Be2=-4 Bf2=-1 Be3=-2; \
    13 16 Wf3=5 We7=-14 Bd1=-11 Bh1=-2 Be2=-4 Bf2=1 Be3=-5 Bf3=-3
rnbq1bnr/ppppp1p1/8/8/2k4p/2NPP3/PPP2PPP/RNBQ1RK1 | 6.5 | 13 16 Wf7=-11 Bf1=-11";

// The same of nine to twelve moves, which journeys settle.
const LONG: &str =
    "2bqr1k1/2pNppbp/1p5p/7n/1r1P4/8/P1P1PPPP/RNB1KBNR | 9.0 | 16 16 Wa7=-2 Wd7=-2 Wb8=-2 Bd1=-2 Bh6=2; \
    14 16 Wa7=-2 Wd7=-2 Wb8=-2 Bd1=-12 Bh6=12
2bqr1k1/2p1ppbp/1pp4p/7n/r2P3P/8/P1P1PPP1/RNB1KBNR | 9.5 | 11 16 Wa7=-7 Wb8=-7 Bd1=-7 Bb2=-7 Bc6=7 Bh6=7; \
    8 16 Wa7=-9 Wb8=-9 Bd1=-9 Bb2=-9 Bc6=9 Bh6=9
4r1k1/2p1ppbp/1p5p/2N2b1n/2rP4/q3P3/P1P1BPPP/RNB1K1NR | 12.0 | 16 16 Wa7=-2 Wd7=-2 Wb8=-2 Bd1=-2 Bh6=2; \
    14 16 Wa7=-2 Wd7=-2 Wb8=-2 Bd1=-12 Bh6=12";

// The goal of a row.
fn goal_in(rt: &impl Abort, row: &str) -> Goal {
    goal_of(rt, field(row, 0), field(row, 1))
}

// Tariffs cut, and the certificate is checked.
#[test]
fn tariffs_cut_and_the_games_are_the_same(rt: HostRuntime) {
    for row in SHORT.lines() {
        let tariffs = tariffs_of(&rt, field(row, 2));
        let (without, with) = both(&rt, &goal_in(&rt, row), false, &tariffs);
        assert!(rt; with < without, "{row}: {with} of {without}");
    }
}

// The same beside journeys, which may leave tariffs nothing to cut.
#[test]
fn the_games_by_journeys_and_tariffs_are_the_same(rt: HostRuntime) {
    for row in LONG.lines() {
        let tariffs = tariffs_of(&rt, field(row, 2));
        let (without, with) = both(&rt, &goal_in(&rt, row), true, &tariffs);
        assert!(rt; with <= without, "{row}: {with} of {without}");
    }
}

// Tariffs that fit no diagram well: those of others, without weights or tolls, and at the ends of their range.
const STRANGE: &str =
    "13 16 Wf7=-11 Bf1=-11; 0 0; 255 255; 0 255 Wa1=-128 Wh8=127; 16 16 Ba8=127 Bh1=-128 We4=127";

// Any tariff is sound, so none cuts a game away.
#[test]
fn no_tariff_cuts_a_game_away(rt: HostRuntime) {
    let tariffs = tariffs_of(&rt, STRANGE);
    for row in SHORT.lines() {
        let (without, with) = both(&rt, &goal_in(&rt, row), false, &tariffs);
        assert!(rt; with <= without, "{row}");
    }
}

// The bytes of a certificate that is written by tariffs.
fn bytes_by_tolls<R: Abort + AllocGlobal>(
    rt: &R,
    goal: &Goal,
    bounds: &[Box<dyn Bound>],
    tariffs: &[Tariff],
) -> Vec<u8> {
    let mut sink = ToWrite::new(Vec::new(rt.alloc()));
    let found = searched_by_tolls(rt.alloc(), goal, NODES, bounds, tariffs, &mut sink);
    assert!(rt; found.is_ok());
    sink.into_inner()
}

#[test]
fn without_tariffs_the_bytes_are_those_by_journeys(rt: HostRuntime) {
    for row in LONG.lines() {
        let goal = goal_in(&rt, row);
        let bounds = five_bounds(&rt, &goal.diagram);
        let mut sink = ToWrite::new(Vec::new(rt.alloc()));
        let found = searched_by_journeys(rt.alloc(), &goal, NODES, &bounds, &mut sink);
        assert!(rt; found.is_ok());
        let wanted = sink.into_inner();
        let bytes = bytes_by_tolls(&rt, &goal, &bounds, &tariffs_of(&rt, ""));
        assert!(rt; bytes.as_slice() == wanted.as_slice(), "{row}");
    }
}

// What a search by tariffs of `nodes` nodes answers.
fn said_by_tolls<R: Abort + AllocGlobal>(
    rt: &R,
    goal: &Goal,
    nodes: u64,
    tariffs: &[Tariff],
) -> Said {
    let mut sink = ToWrite::new(Vec::new(rt.alloc()));
    let bounds = five_bounds(rt, &goal.diagram);
    count_of(&searched_by_tolls(rt.alloc(), goal, nodes, &bounds, tariffs, &mut sink))
}

// As many nodes as there are records suffice, and one less does not.
#[test]
fn nodes_by_tariffs_are_limited(rt: HostRuntime) {
    for row in SHORT.lines() {
        let goal = goal_in(&rt, row);
        let tariffs = tariffs_of(&rt, field(row, 2));
        let (_, nodes) = both(&rt, &goal, true, &tariffs);
        let said = said_by_tolls(&rt, &goal, nodes, &tariffs);
        assert!(rt; said.as_str() != "Budget", "{row}");
        let said = said_by_tolls(&rt, &goal, nodes.saturating_sub(1), &tariffs);
        assert_eq!(rt; said.as_str(), "Budget", "{row}");
    }
}

// Hears how many games are told, and ends a walk when it has been told `more` times how far it is.
#[derive(Drop)]
struct Hearing {
    games: usize,
    more: u64,
}

impl SearchProgress for Hearing {
    fn reached(&mut self, _plies: u8, _left: u64) {
        self.more = self.more.saturating_sub(1);
    }

    fn met(&mut self, _game: &[Move]) {
        self.games = self.games.saturating_add(1);
    }

    fn goes_on(&mut self) -> bool {
        self.more > 0
    }
}

// What is found by `nodes` nodes and the turns of `watch` at most.
fn found_by<R: Abort + AllocGlobal>(
    rt: &R,
    goal: &Goal,
    by_journeys: bool,
    nodes: u64,
    watch: &mut Hearing,
) -> Result<FoundTariffs, SearchFault> {
    let bounds = lent(rt, goal, by_journeys);
    find_tariffs(
        rt.alloc(),
        &goal.diagram,
        goal.length,
        nodes,
        &bounds,
        watch,
    )
}

// A watch that hears all.
fn hearing_for(more: u64) -> Hearing {
    Hearing { games: 0, more }
}

// What is found, in numbers: the tariffs, the nodes, and the games that were told; or the fault.
fn said_found<R: Abort + AllocGlobal>(rt: &R, goal: &Goal, nodes: u64, turns: u64) -> Said {
    let mut watch = hearing_for(turns);
    match found_by(rt, goal, false, nodes, &mut watch) {
        Ok(found) => {
            words(&format_args!("{} {} {}", found.tariffs.len(), found.nodes, watch.games))
        }
        Err(fault) => words(&format_args!("{fault:?}")),
    }
}

// That a search by the tariffs that are found has the games of one without them, and visits no more nodes; whether it
// visits fewer.
fn helps<R: Abort + AllocGlobal>(rt: &R, goal: &Goal, by_journeys: bool) -> bool {
    let found = found_by(rt, goal, by_journeys, NODES, &mut hearing_for(u64::MAX));
    let found = found.expect(rt, "found");
    assert!(rt; found.tariffs.len() <= 64);
    let (without, with) = both(rt, goal, by_journeys, &found.tariffs);
    assert!(rt; with <= without);
    with < without
}

#[test]
fn tariffs_that_are_found_cut(rt: HostRuntime) {
    for row in SHORT.lines() {
        assert!(rt; helps(&rt, &goal_in(&rt, row), false), "{row}");
    }
}

#[test]
fn tariffs_are_found_by_journeys(rt: HostRuntime) {
    for row in LONG.lines() {
        helps(&rt, &goal_in(&rt, row), true);
    }
}

// What is found is the same each time; as many nodes as it took suffice, and one less does not. Each game is told once.
#[test]
fn nodes_and_turns_of_finding_are_limited(rt: HostRuntime) {
    let goal = goal_of(
        &rt,
        "2bqr1k1/2pNppbp/1p5p/7n/1r1P4/8/P1P1PPPP/RNB1KBNR",
        "9.0",
    );
    let said = said_found(&rt, &goal, NODES, u64::MAX);
    let (_, rest) = halves(&rt, said.as_str(), " ");
    let (nodes, games) = halves(&rt, rest, " ");
    let nodes = number(&rt, nodes);
    assert_eq!(rt; games, "1");
    assert_eq!(rt;
        said_found(&rt, &goal, nodes, u64::MAX).as_str(),
        said.as_str()
    );
    let fewer = nodes.saturating_sub(1);
    assert_eq!(rt; said_found(&rt, &goal, fewer, u64::MAX).as_str(), "Budget");
    assert_eq!(rt; said_found(&rt, &goal, nodes, 20).as_str(), "Budget");
}

// Why none are found: a shorter game, too many games.
const FAULTS: &str = "after-e4 | 2.0 => Shorter(1)
rnbqkbnr/5ppp/ppppp3/8/8/PPPPP3/5PPP/RNBQKBNR | 5.0 => TooManyGames
array | 0 => 0 0 1
after-e4 | 0.5 => 0 1 1";

#[test]
fn faults_of_finding_are_told(rt: HostRuntime) {
    for row in FAULTS.lines() {
        let (asked, wanted) = halves(&rt, row, " => ");
        let said = said_found(&rt, &goal_in(&rt, asked), NODES, u64::MAX);
        assert_eq!(rt; said.as_str(), wanted, "{asked}");
    }
}
