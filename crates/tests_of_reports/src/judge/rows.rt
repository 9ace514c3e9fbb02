//! Rows of problems that are judged.

use super::*;
use pg_moves::Unwatched;

// The rows of problems, a line each, judged within limits.
fn rows_of<R: Abort + AllocGlobal>(rt: &R, problems: &str, limits: Limits) -> String {
    let mut rows = String::new(rt.alloc());
    for line in problems.lines() {
        let mut scratch = Cursor::new(Vec::new(rt.alloc()));
        let row = ruled(rt, line, limits, &mut scratch, &mut Unwatched);
        rows.push_str(row.as_str()).expect(rt, "memory");
    }
    rows
}

const PROBLEMS: &str = "array rnbqkbnr/pppppppp/8/8/8/8/PPPPPPPP/RNBQKBNR 0 -
schweig r1bqkbnr/ppp2ppp/3p4/8/8/8/PPPPPPPP/R1BQKBNR 4.0 1. Nc3 d6 2. Nd5 Nd7 3. Nxe7 Ndf6 4. Nxg8 Nxg8
alone r1bqkbnr/ppp2ppp/3p4/8/8/8/PPPPPPPP/R1BQKBNR 4.0
short r1bqkbnr/ppp2ppp/3p4/8/8/8/PPPPPPPP/R1BQKBNR 4.0 1. e4
stops rnbqkbnr/pppppppp/8/8/8/8/PPPPPPPP/RNBQKBNR 0 1. e4 e4
ends rnbqkbnr/pppp1ppp/8/4p3/4P3/8/PPPP1PPP/RNBQKBNR 1.0 1. e3 e5
long rnbqkbnr/pppppppp/8/8/8/8/PPPPPPPP/RNBQKBNR 0 1. e4 e5
orders rnbqkbnr/pppp1ppp/4p3/8/8/3PP3/PPP2PPP/RNBQKBNR 1.5
four rnbqkbnr/1pp1pppp/p2P4/8/8/8/PPPP1PPP/RNBQKBNR 2.5
none rnbqkbnr/pppp1ppp/8/4p3/4P3/8/PPPP1PPP/RNBQKBNR 0.5
cook rnbqkbnr/pppp1ppp/4p3/8/8/3PP3/PPP2PPP/RNBQKBNR 1.5 1. e3 e6 2. d3
shorter rnbqkbnr/pppp1ppp/8/4p3/4P3/8/PPPP1PPP/RNBQKBNR 2.0 1. e3 e6 2. e4 e5
short-by-search rnbqkbnr/pppp1ppp/8/4p3/4P3/8/PPPP1PPP/RNBQKBNR 2.0";

const ROWS: &str = "array|0.0|sound|solves|search, 0 nodes|-
schweig|4.0|sound|solves|search, 67036 nodes|1. Nc3 d6 2. Nd5 Nd7 3. Nxe7 Ndf6 4. Nxg8 Nxg8
alone|4.0|sound|-|search, 67036 nodes|1. Nc3 d6 2. Nd5 Nd7 3. Nxe7 Ndf6 4. Nxg8 Nxg8
short|4.0|sound|fails, 1 ply|search, 67036 nodes|1. Nc3 d6 2. Nd5 Nd7 3. Nxe7 Ndf6 4. Nxg8 Nxg8
stops|0.0|sound|fails, ply 2|search, 0 nodes|-
ends|1.0|sound|fails, ends elsewhere|search, 22 nodes|1. e4 e5
long|0.0|sound|fails, 2 plies|search, 0 nodes|-
orders|1.5|cooked|-|search, 63 nodes|2 games: 1. d3 e6 2. e3; 1. e3 e6 2. d3; they part \
at move 1 of White, with the same moves in another order
four|2.5|cooked|-|search, 236 nodes|4 games: 1. e4 a6 2. e5 d5 3. exd6; 1. e4 a6 2. e5 d6 3. exd6; they part at \
move 2 of Black
none|0.5|no game|-|search, 0 nodes|-
cook|1.5|not sound|solves|cooks, 23 nodes|another game: 1. d3 e6 2. e3; they part at move 1 of White, with the same \
moves in another order
shorter|2.0|not sound|solves|cooks, 36 nodes|a game of 3 plies: 1. e3 e5 2. e4
short-by-search|2.0|not sound|-|search, 0 nodes|a game of 2 plies: 1. e4 e5
";

#[test]
fn rows(rt: HostRuntime) {
    let limits = nodes(100_000);
    assert_eq!(rt; rows_of(&rt, PROBLEMS, limits).as_str(), ROWS);
}

// Too few nodes for a search; for the second problem two games are met.
const LONG: &str =
    "schweig r1bqkbnr/ppp2ppp/3p4/8/8/8/PPPPPPPP/R1BQKBNR 4.0 1. Nc3 d6 2. Nd5 Nd7 3. Nxe7 Ndf6 4. Nxg8 Nxg8
four rnbqkbnr/1pp1pppp/p2P4/8/8/8/PPPP1PPP/RNBQKBNR 2.5";

const FEW: &str =
    "schweig|4.0|not settled|solves|journeys, 99 nodes|1 game met; none below 3.5; no cook with at most 0 foreign moves; limit reached
four|2.5|not sound|-|search, 74 nodes|2 games met: 1. e4 a6 2. e5 d5 3. exd6; 1. e4 a6 2. e5 d6 3. exd6; they part at \
move 2 of Black
";

#[test]
fn few_nodes(rt: HostRuntime) {
    let limits = nodes(100);
    assert_eq!(rt; rows_of(&rt, LONG, limits).as_str(), FEW);
}

// Too few for a search, and enough for one with journeys.
#[test]
fn by_journeys(rt: HostRuntime) {
    let limits = nodes(3100);
    let problem = "schweig r1bqkbnr/ppp2ppp/3p4/8/8/8/PPPPPPPP/R1BQKBNR 4.0";
    let row =
        "schweig|4.0|sound|-|journeys, 3033 nodes|1. Nc3 d6 2. Nd5 Nd7 3. Nxe7 Ndf6 4. Nxg8 Nxg8\n";
    assert_eq!(rt; rows_of(&rt, problem, limits).as_str(), row);
}
