//! Sound problems, and limits of nodes and of foreign moves.

use super::*;

// A game, how many nodes are allowed, how many foreign moves, and what is answered: with too few nodes not even the
// games without foreign moves are gone through. The last two plies may be any moves.
const LIMITS: &str = "1. Nc3 d6 2. Nd5 Nd7 3. Nxe7 Ndf6 4. Nxg8 Nxg8 | 0 => none met
1. Nc3 d6 2. Nd5 Nd7 3. Nxe7 Ndf6 4. Nxg8 Nxg8 | 20 => none met
1. Nc3 d6 2. Nd5 Nd7 3. Nxe7 Ndf6 4. Nxg8 Nxg8 | 20000 | 0 => none with 0
1. Nc3 d6 2. Nd5 Nd7 3. Nxe7 Ndf6 4. Nxg8 Nxg8 | 100000 | 1 => none with 1
1. e3 e6 | 1000 | 0 => none with 0
- | 0 => none with 0";

#[test]
fn limits(rt: HostRuntime) {
    check_table(&rt, LIMITS);
}

// How a search ends that finds no game.
fn ended<R: Abort + AllocGlobal>(rt: &R, games: &str, nodes: u64, foreign: &str) -> Said {
    let asked = asked_by(rt, games);
    let limits = limits_of(nodes, foreign);
    let (diagram, length) = (&asked.diagram, asked.length);
    let alloc = rt.alloc();
    match search_led(alloc, diagram, length, &asked.games, limits, &mut Unwatched) {
        Ok(Led::NotFound { end, .. }) => words(&format_args!("{end:?}")),
        Ok(Led::Found(_)) => words(&"a game"),
        Err(fault) => words(&fault),
    }
}

// Games, how many nodes are allowed, how many foreign moves, and how the search ends. With both games of the diagram
// all are gone through; with one it has to allow a foreign move. Of two plies or fewer no move is foreign.
const ENDS: &str =
    "1. e3 b5 2. Bc4 bxc4 3. d3 cxd3 4. Qxd3/1. e3 b5 2. Bc4 bxc4 3. d4 cxd3 4. Qxd3 | 1000000 => All
1. e3 b5 2. Bc4 bxc4 3. d3 cxd3 4. Qxd3/1. e3 b5 2. Bc4 bxc4 3. d4 cxd3 4. Qxd3 | 1000000 | 9 => All
1. e3 b5 2. Bc4 bxc4 3. d3 cxd3 4. Qxd3/1. e3 b5 2. Bc4 bxc4 3. d4 cxd3 4. Qxd3 | 20 => Nodes
1. e3 b5 2. Bc4 bxc4 3. d3 cxd3 4. Qxd3/1. e3 b5 2. Bc4 bxc4 3. d4 cxd3 4. Qxd3 | 20 | 0 => Nodes
1. e3 b5 2. Bc4 bxc4 3. d3 cxd3 4. Qxd3 | 1000000 | 0 => Foreign
1. e3 b5 2. Bc4 bxc4 3. d3 cxd3 4. Qxd3 | 1000000 | 1 => a game
1. e3 b5 2. Bc4 bxc4 3. d3 cxd3 4. Qxd3 | 0 | 0 => Nodes
1. e3 e6 | 1000 | 0 => All
1. e3 | 0 | 0 => All
- | 0 => All";

#[test]
fn how_a_led_search_ends(rt: HostRuntime) {
    for row in ENDS.lines() {
        let (left, wanted) = halves(&rt, row, " => ");
        let nodes = number(&rt, field(left, 1));
        let said = ended(&rt, field(left, 0), nodes, field(left, 2));
        assert_eq!(rt; said.as_str(), wanted, "{left}");
    }
}

// With all games in the list none is found, and without the first of them it is: a diagram's games, of which a slash
// parts the lines.
const LISTS: &str = "1. f3 e5 2. g4 Qh4#/1. g4 e5 2. f3 Qh4#
1. e4 a6 2. e5 d5 3. exd6/1. e4 a6 2. e5 d6 3. exd6/1. e4 d5 2. exd5 a6 3. d6/1. e4 d6 2. e5 a6 3. exd6
1. e4 Nf6 2. Qe2 Nxe4 3. f3 Ng3 4. Qxe7+ Qxe7+ 5. Kf2 Nxh1#/1. e4 Nf6 2. f3 Nxe4 3. Qe2 Ng3 4. Qxe7+ Qxe7+ 5. Kf2 \
    Nxh1#/1. f3 Nf6 2. e4 Nxe4 3. Qe2 Ng3 4. Qxe7+ Qxe7+ 5. Kf2 Nxh1#
1. e3 b5 2. Bc4 bxc4 3. d3 cxd3 4. Qxd3/1. e3 b5 2. Bc4 bxc4 3. d4 cxd3 4. Qxd3";

// Whether another game is found with these in the list.
fn finds<R: Abort + AllocGlobal>(rt: &R, text: &str) -> bool {
    answered(rt, text, 1_000_000, "3")
        .as_str()
        .ends_with("plies")
}

#[test]
fn listed_games_are_passed_over(rt: HostRuntime) {
    for games in LISTS.lines() {
        assert!(rt; !finds(&rt, games), "{games}");
        let (_, others) = halves(&rt, games, "/");
        assert!(rt; finds(&rt, others), "{others}");
    }
}

// What is told of a search: whether the rounds came in order, from the stated length down in each, and the nodes
// that are left became no more.
#[derive(Drop)]
struct Told {
    foreign: u8,
    plies: u8,
    left: u64,
    in_order: bool,
    times: u32,
}

impl LedProgress for Told {
    fn reached(&mut self, foreign: u8, plies: u8, left: u64) {
        let goes_on = self.foreign < foreign || self.foreign == foreign && plies <= self.plies;
        self.in_order = self.in_order && goes_on && left <= self.left;
        self.foreign = foreign;
        self.plies = plies;
        self.left = left;
        self.times = self.times.saturating_add(1);
    }
}

#[test]
fn a_led_search_is_watched(rt: HostRuntime) {
    let asked = asked_by(&rt, "1. Nc3 d6 2. Nd5 Nd7 3. Nxe7 Ndf6 4. Nxg8 Nxg8");
    let mut watch = Told {
        foreign: 0,
        plies: 8,
        left: 100_000,
        in_order: true,
        times: 0,
    };
    let said = answer(&rt, rt.alloc(), &asked, limits_of(100_000, "1"), &mut watch);
    assert_eq!(rt; said.as_str(), "none with 1");
    assert!(rt; watch.in_order && watch.foreign == 1 && watch.times > 2);
}

#[test]
fn the_fault_has_its_text(rt: HostRuntime) {
    assert_eq!(rt; words(&LedFault::Memory).as_str(), "out of memory");
}
