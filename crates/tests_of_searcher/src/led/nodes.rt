//! How many nodes a led search visits until it answers: without the cut by journeys as many as a walk that goes from
//! node to node, and with it fewer.

use super::*;

// What is answered without the cut by journeys, or with it, and how many nodes were visited where no game is found.
fn visited<R: Abort + AllocGlobal, P: LedProgress>(
    rt: &R,
    asked: &Asked,
    limits: LedLimits,
    by_journeys: bool,
    watch: &mut P,
) -> Said {
    let (diagram, length, games) = (&asked.diagram, asked.length, &asked.games);
    let answer = if by_journeys {
        search_led(rt.alloc(), diagram, length, games, limits, watch)
    } else {
        search_led_without_journeys(rt.alloc(), diagram, length, games, limits, watch)
    };
    let said = told(rt, asked, &answer);
    match answer {
        Ok(Led::NotFound { nodes, .. }) => words(&format_args!("{} {nodes}", said.as_str())),
        _ => said,
    }
}

// A row of games, how many nodes and foreign moves are allowed; what is answered, and the nodes that were visited.
fn check_visited<R: Abort + AllocGlobal>(rt: &R, row: &str, by_journeys: bool) {
    let (asked, wanted) = halves(rt, row, " => ");
    let limits = limits_of(number(rt, field(asked, 1)), field(asked, 2));
    let games = asked_by(rt, field(asked, 0));
    assert_eq!(rt;
        visited(rt, &games, limits, by_journeys, &mut Unwatched).as_str(),
        wanted,
        "{asked}"
    );
}

// With the row's number of nodes a game is found, or a round ends, and with a node less it is not. Familiar moves are
// castlings, captures en passant and promotions too, to a knight and a queen on one square, to a bishop and a rook with
// more than two plies left and as the move before the last. Six men that leave their squares are tried one by one,
// seven and more are not. The numbers are those of a walk that went through all moves.
const VISITED: &str =
    "1. Nc3 d6 2. Nd5 Nd7 3. Nxe7 Ndf6 4. Nxg8 Nxg8 | 20000 | 1 => none with 1 2545
1. Nc3 d6 2. Nd5 Nd7 3. Nxe7 Ndf6 4. Nxg8 Nxg8 | 2545 | 1 => none with 1 2545
1. Nc3 d6 2. Nd5 Nd7 3. Nxe7 Ndf6 4. Nxg8 Nxg8 | 2544 | 1 => none with 0 2544
1. Nc3 d6 2. Nd5 Nd7 3. Nxe7 Ndf6 4. Nxg8 Nxg8 | 185 | 1 => none with 0 185
1. Nc3 d6 2. Nd5 Nd7 3. Nxe7 Ndf6 4. Nxg8 Nxg8 | 184 | 1 => none met 184
1. e4 g6 2. Ba6 Nxa6 3. Nf3 Nb8 4. O-O | 1351 | 1 => none with 1 1351
1. e4 g6 2. Ba6 Nxa6 3. Nf3 Nb8 4. O-O | 1350 | 1 => none with 0 1350
1. e4 g6 2. Ba6 Nxa6 3. Nf3 Nb8 4. O-O | 173 | 1 => none with 0 173
1. e4 g6 2. Ba6 Nxa6 3. Nf3 Nb8 4. O-O | 172 | 1 => none met 172
1. f3 e5 2. g4 Qh4#/1. g4 e5 2. f3 Qh4# | 20000 => none with 1 152
1. f3 e5 2. g4 Qh4#/1. g4 e5 2. f3 Qh4# | 152 => none with 1 152
1. f3 e5 2. g4 Qh4#/1. g4 e5 2. f3 Qh4# | 151 => none with 0 151
1. f3 e5 2. g4 Qh4# | 42 | 0 => 4 plies
1. f3 e5 2. g4 Qh4# | 41 | 0 => none met 41
1. e3 b5 2. Bc4 bxc4 3. d3 cxd3 4. Qxd3 | 292 | 1 => 7 plies
1. e3 b5 2. Bc4 bxc4 3. d3 cxd3 4. Qxd3 | 291 | 1 => none with 0 291
1. a3 h5 2. b3 h4 3. c3 h3 4. d3 hxg2 5. e3 gxh1=N | 75 | 0 => 10 plies
1. a3 h5 2. b3 h4 3. c3 h3 4. d3 hxg2 5. e3 gxh1=N | 74 | 0 => none met 74
1. e4 e6 2. Bb5 Ke7 3. Bxd7 c6 4. Be8 Kxe8 | 92 => 6 plies
1. e4 e6 2. Bb5 Ke7 3. Bxd7 c6 4. Be8 Kxe8 | 91 => none met 91
1. d3 c6 2. Bf4 Qa5+ 3. Nd2 Qxd2+ 4. Qxd2 f6 5. O-O-O | 3167 | 1 => none with 1 3167
1. d3 c6 2. Bf4 Qa5+ 3. Nd2 Qxd2+ 4. Qxd2 f6 5. O-O-O | 3166 | 1 => none with 0 3166
1. d3 c6 2. Bf4 Qa5+ 3. Nd2 Qxd2+ 4. Qxd2 f6 5. O-O-O | 196 | 0 => none met 196
1. e4 d5 2. exd5 Kd7 3. Qg4+ Kd6 4. Qb4+ c5 5. dxc6+ | 1532 | 2 => none with 2 1532
1. e4 d5 2. exd5 Kd7 3. Qg4+ Kd6 4. Qb4+ c5 5. dxc6+ | 1531 | 2 => none with 1 1531
1. h4 d5 2. h5 Nd7 3. h6 Ndf6 4. hxg7 Kd7 5. Rh6 Ne8 6. gxf8=N# | 767 | 2 => none with 2 767
1. h4 d5 2. h5 Nd7 3. h6 Ndf6 4. hxg7 Kd7 5. Rh6 Ne8 6. gxf8=N# | 766 | 2 => none with 1 766
1. a4 h5 2. a5 h4 3. a6 h3 4. axb7 hxg2 5. bxa8=N gxh1=N 6. Nb6 Ng3 | 693 | 2 => none with 2 693
1. a4 h5 2. a5 h4 3. a6 h3 4. axb7 hxg2 5. bxa8=N gxh1=N 6. Nb6 Ng3 | 692 | 2 => none with 1 692
1. a4 h5 2. a5 h4 3. a6 h3 4. axb7 hxg2 5. bxa8=N gxh1=N 6. Nb6 Ng3/1. a4 h5 2. a5 h4 3. a6 h3 4. axb7 hxg2 5. bxa8=Q \
    gxh1=Q 6. Qb7 Qg2 | 695 | 2 => none with 2 695
1. a4 h5 2. a5 h4 3. a6 h3 4. axb7 hxg2 5. bxa8=N gxh1=N 6. Nb6 Ng3/1. a4 h5 2. a5 h4 3. a6 h3 4. axb7 hxg2 5. bxa8=Q \
    gxh1=Q 6. Qb7 Qg2 | 50 | 0 => none with 0 50
1. e3 h5 2. Bc4 h4 3. Bxf7+ Kxf7 4. Ne2 Ke6 5. O-O Kd5 6. Nec3+ Kc4 7. d3+ | 4487 | 2 => none with 2 4487
1. e3 h5 2. Bc4 h4 3. Bxf7+ Kxf7 4. Ne2 Ke6 5. O-O Kd5 6. Nec3+ Kc4 7. d3+ | 4486 | 2 => none with 1 4486
1. a4 b5 2. axb5 a6 3. bxa6 c6 4. a7 c5 5. axb8=B d6 | 20000 | 0 => 10 plies
1. a4 b5 2. axb5 a6 3. bxa6 c6 4. a7 c5 5. axb8=B d6 | 62 | 0 => 10 plies
1. a4 b5 2. axb5 a6 3. bxa6 c6 4. a7 c5 5. axb8=B d6 | 61 | 0 => none met 61
1. a4 b5 2. axb5 a6 3. bxa6 c6 4. a7 c5 5. axb8=R d6 | 20000 | 0 => 10 plies
1. a4 b5 2. axb5 a6 3. bxa6 c6 4. a7 c5 5. axb8=R d6 | 63 | 0 => 10 plies
1. a4 b5 2. axb5 a6 3. bxa6 c6 4. a7 c5 5. axb8=R d6 | 62 | 0 => none met 62
1. a4 b5 2. axb5 a6 3. bxa6 c6 4. a7 c5 5. axb8=B d6 6. Bxd6 exd6 | 20000 | 0 => 12 plies
1. a4 b5 2. axb5 a6 3. bxa6 c6 4. a7 c5 5. axb8=B d6 6. Bxd6 exd6 | 69 | 0 => 12 plies
1. a4 b5 2. axb5 a6 3. bxa6 c6 4. a7 c5 5. axb8=B d6 6. Bxd6 exd6 | 68 | 0 => none met 68
1. a4 b5 2. axb5 a6 3. bxa6 c6 4. a7 c5 5. axb8=R d6 6. Rxc8 Qxc8 | 20000 | 0 => 12 plies
1. a4 b5 2. axb5 a6 3. bxa6 c6 4. a7 c5 5. axb8=R d6 6. Rxc8 Qxc8 | 79 | 0 => 12 plies
1. a4 b5 2. axb5 a6 3. bxa6 c6 4. a7 c5 5. axb8=R d6 6. Rxc8 Qxc8 | 78 | 0 => none met 78
1. a3 a6 2. b3 b6 3. c3 c6 4. d3 d6 5. e3 e6 6. f3 f6 | 20000 | 0 => 12 plies
1. a3 a6 2. b3 b6 3. c3 c6 4. d3 d6 5. e3 e6 6. f3 f6 | 56 | 0 => 12 plies
1. a3 a6 2. b3 b6 3. c3 c6 4. d3 d6 5. e3 e6 6. f3 f6 | 55 | 0 => none met 55
1. a3 a6 2. b3 b6 3. c3 c6 4. d3 d6 5. e3 e6 6. f3 f6 7. g3 g6 | 20000 | 0 => 14 plies
1. a3 a6 2. b3 b6 3. c3 c6 4. d3 d6 5. e3 e6 6. f3 f6 7. g3 g6 | 51 | 0 => 14 plies
1. a3 a6 2. b3 b6 3. c3 c6 4. d3 d6 5. e3 e6 6. f3 f6 7. g3 g6 | 50 | 0 => none met 50
1. a4 h5 2. a5 h4 3. a6 h3 4. axb7 hxg2 5. bxa8=N gxh1=N 6. Nb6 Ng3/1. a4 h5 2. a5 h4 3. a6 h3 4. axb7 hxg2 5. bxa8=B \
    gxh1=B 6. Bb7 Bg2 | 20000 | 0 => none with 0 50
1. a4 h5 2. a5 h4 3. a6 h3 4. axb7 hxg2 5. bxa8=N gxh1=N 6. Nb6 Ng3/1. a4 h5 2. a5 h4 3. a6 h3 4. axb7 hxg2 5. bxa8=B \
    gxh1=B 6. Bb7 Bg2 | 20000 | 1 => none with 1 323
1. a4 h5 2. a5 h4 3. a6 h3 4. axb7 hxg2 5. bxa8=N gxh1=N 6. Nb6 Ng3/1. a4 h5 2. a5 h4 3. a6 h3 4. axb7 hxg2 5. bxa8=R \
    gxh1=R 6. R8xa7 R1xh2 | 20000 | 0 => none with 0 50
1. a4 h5 2. a5 h4 3. a6 h3 4. axb7 hxg2 5. bxa8=N gxh1=N 6. Nb6 Ng3/1. a4 h5 2. a5 h4 3. a6 h3 4. axb7 hxg2 5. bxa8=R \
    gxh1=R 6. R8xa7 R1xh2 | 20000 | 1 => none with 1 323
1. a4 h5 2. a5 h4 3. a6 h3 4. axb7 hxg2 5. bxa8=N gxh1=N 6. Nb6 Ng3/1. a4 h5 2. a5 h4 3. a6 h3 4. axb7 hxg2 5. bxa8=B \
    gxh1=B 6. Bb7 Bg2/1. a4 h5 2. a5 h4 3. a6 h3 4. axb7 hxg2 5. bxa8=R gxh1=R 6. R8xa7 R1xh2 | 20000 | 1 => \
    none with 1 325
1. a4 h5 2. a5 h4 3. a6 h3 4. axb7 hxg2 5. bxa8=B gxh1=B 6. Bb7 Bg2/1. a4 h5 2. a5 h4 3. a6 h3 4. axb7 hxg2 5. bxa8=R \
    gxh1=R 6. R8xa7 R1xh2 | 20000 | 0 => none with 0 55
1. Nf3 Nf6 2. g3 g6 3. Bg2 Bg7 4. O-O O-O 5. d3 d6 6. Nc3 Nc6 7. Bf4 Bf5 8. Qd2 Qd7 | 30000 | 0 => 16 plies
1. d4 Nf6 2. Qd2 Nh5 3. Qh6 gxh6 4. b4 Bg7 5. b5 O-O 6. b6 Re8 7. bxa7 b6 8. axb8=N Ra4 9. Nxd7 Rc4 10. Nc5 Bf5 11. \
    e3 Qa8 12. Be2 Qa3 | 7033 | 1 => none with 1 7033
1. d4 Nf6 2. Qd2 Nh5 3. Qh6 gxh6 4. b4 Bg7 5. b5 O-O 6. b6 Re8 7. bxa7 b6 8. axb8=N Ra4 9. Nxd7 Rc4 10. Nc5 Bf5 11. \
    e3 Qa8 12. Be2 Qa3 | 7032 | 1 => none with 0 7032
1. a4 h5 2. a5 h4 3. a6 h3 4. axb7 hxg2 5. bxa8=N gxh1=N | 270 | 1 => none with 1 270
1. a4 h5 2. a5 h4 3. a6 h3 4. axb7 hxg2 5. bxa8=N gxh1=N | 269 | 1 => none with 0 269";

#[test]
fn as_many_nodes_are_visited_as_by_a_walk_from_node_to_node(rt: HostRuntime) {
    for row in VISITED.lines() {
        check_visited(&rt, row, false);
    }
}

// The same with the cut by journeys, which is asked last: no more nodes, and no other game.
const VISITED_BY_JOURNEYS: &str =
    "1. Nc3 d6 2. Nd5 Nd7 3. Nxe7 Ndf6 4. Nxg8 Nxg8 | 20000 | 1 => none with 1 547
1. Nc3 d6 2. Nd5 Nd7 3. Nxe7 Ndf6 4. Nxg8 Nxg8 | 547 | 1 => none with 1 547
1. Nc3 d6 2. Nd5 Nd7 3. Nxe7 Ndf6 4. Nxg8 Nxg8 | 546 | 1 => none with 0 546";

#[test]
fn fewer_nodes_are_visited_by_journeys(rt: HostRuntime) {
    for row in VISITED_BY_JOURNEYS.lines() {
        check_visited(&rt, row, true);
    }
}

// Counts how often it is told how far a search is.
#[derive(Drop)]
struct Turns {
    count: u64,
}

impl LedProgress for Turns {
    fn reached(&mut self, _foreign: u8, _plies: u8, _left: u64) {
        self.count = self.count.saturating_add(1);
    }
}

// How many turns searches take together, one with each limit from no node up to `nodes`.
fn turns_up_to<R: Abort + AllocGlobal>(rt: &R, games: &str, nodes: u64, foreign: &str) -> u64 {
    let asked = asked_by(rt, games);
    let mut turns = Turns { count: 0 };
    for limit in 0..=nodes {
        let limits = limits_of(limit, foreign);
        let _ = visited(rt, &asked, limits, false, &mut turns);
    }
    turns.count
}

// Games, the greatest limit, how many foreign moves, and the turns of all searches with this limit or a lower one: a
// turn that a limit cuts off is not counted.
const TURNS: &str = "1. f3 e5 2. g4 Qh4#/1. g4 e5 2. f3 Qh4# | 152 | 1 | 1673
1. e3 b5 2. Bc4 bxc4 3. d3 cxd3 4. Qxd3 | 292 | 1 | 8850
1. Nc3 d6 2. Nd5 Nd7 3. Nxe7 Ndf6 4. Nxg8 Nxg8 | 300 | 1 | 9318";

#[test]
fn each_limit_cuts_off_the_same_turn(rt: HostRuntime) {
    for row in TURNS.lines() {
        let found = turns_up_to(
            &rt,
            field(row, 0),
            number(&rt, field(row, 1)),
            field(row, 2),
        );
        assert!(rt; found == number(&rt, field(row, 3)), "{row}");
    }
}

// A row of a game that ends on the diagram, games that lead, how many nodes and foreign moves are allowed; what is
// answered, the nodes that were visited, and how many turns the search took.
fn check_astray<R: Abort + AllocGlobal>(rt: &R, row: &str) {
    let (left, wanted) = halves(rt, row, " => ");
    let goal = asked_by(rt, field(left, 0));
    let asked = Asked {
        diagram: goal.diagram,
        length: goal.length,
        games: games_of(rt, field(left, 1)),
    };
    let limits = limits_of(number(rt, field(left, 2)), field(left, 3));
    let mut turns = Turns { count: 0 };
    let said = visited(rt, &asked, limits, false, &mut turns);
    let said = words(&format_args!("{} {}", said.as_str(), turns.count));
    assert_eq!(rt; said.as_str(), wanted, "{left}");
}

// Games that lead elsewhere. A foreign move that no bound cuts is cut where the least assignment of pawns is known to
// exclude then, and so it is not refused.
const ASTRAY: &str =
    "1. h3 g6 2. e4 d5 3. c4 h5 4. cxd5 h4 5. f4 c5 | 1. h3 g5 | 643 | 2 => none with 2 643 202
1. h3 g6 2. e4 d5 3. c4 h5 4. cxd5 h4 5. f4 c5 | 1. h3 g5 | 642 | 2 => none with 1 642 202
1. h3 g6 2. e4 d5 3. c4 h5 4. cxd5 h4 5. f4 c5 | 1. h3 g5 | 500 | 2 => none with 1 500 161
1. g3 b5 2. b4 f6 3. d4 e6 4. Nf3 f5 5. e4 f4 | 1. g3 b5 2. b4 g5/1. g3 b5 2. c3 h6 3. h4 c6 | 511 | 1 => \
    none with 1 511 138
1. g3 b5 2. b4 f6 3. d4 e6 4. Nf3 f5 5. e4 f4 | 1. g3 b5 2. b4 g5/1. g3 b5 2. c3 h6 3. h4 c6 | 510 | 1 => \
    none with 0 510 138";

#[test]
fn what_pawns_exclude_is_not_refused(rt: HostRuntime) {
    for row in ASTRAY.lines() {
        check_astray(&rt, row);
    }
}
