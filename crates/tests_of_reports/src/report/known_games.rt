//! Reports of what a list of games shows by itself.

use super::*;

// No game, one, and two, not in order; no move. The last move is Black's and White's, and a capture in passing.
const KNOWN: &str = "games | after-e4-e5 | 1.0 |  => NoneGiven => \
    diagram rnbqkbnr/pppp1ppp/8/4p3/4P3/8/PPPP1PPP/RNBQKBNR$length 1.0$games 0$no game given$
games | after-e4-e5 | 1.0 | 1. e4 e5 => AtLeastOne => \
    diagram rnbqkbnr/pppp1ppp/8/4p3/4P3/8/PPPP1PPP/RNBQKBNR$length 1.0$games 1$1. e4 e5$at least one game$
games | two-orders | 1.5 | 1. e3 e6 2. d3$1. d3 e6 2. e3$ => NotSound => \
    diagram rnbqkbnr/pppp1ppp/4p3/8/8/3PP3/PPP2PPP/RNBQKBNR$length 1.5$games 2$1. d3 e6 2. e3$1. e3 e6 2. d3$not sound$
games | array | 0 | - => AtLeastOne => diagram rnbqkbnr/pppppppp/8/8/8/8/PPPPPPPP/RNBQKBNR$length 0.0$games 1$-$\
    at least one game$
games | array | 2.0 | 1. Nf3 Nf6 2. Ng1 Ng8$1. Nf3 Nc6 2. Ng1 Nb8 => NotSound => \
    diagram rnbqkbnr/pppppppp/8/8/8/8/PPPPPPPP/RNBQKBNR$length 2.0$games 2$1. Nf3 Nc6 2. Ng1 Nb8$\
    1. Nf3 Nf6 2. Ng1 Ng8$not sound$
games | en-passant | 2.5 | 1. e4 a6 2. e5 d5 3. exd6ep$1. e4 d6 2. e5 a6 3. exd6$1. e4 d5 2. exd5 a6 3. d6 => \
    NotSound => diagram rnbqkbnr/1pp1pppp/p2P4/8/8/8/PPPP1PPP/RNBQKBNR$length 2.5$games 3$1. e4 a6 2. e5 d5 3. exd6$\
    1. e4 d5 2. exd5 a6 3. d6$1. e4 d6 2. e5 a6 3. exd6$not sound$";

#[test]
fn games_by_themselves(rt: HostRuntime) {
    check_table(&rt, KNOWN);
}

// A castling; a promotion of White's and of Black's.
const OF_EVERY_KIND: &str =
    "games | rnbqkbnr/ppp2ppp/3pp3/8/8/4PN2/PPPPBPPP/RNBQ1RK1 | 3.5 | 1. e3 e6 2. Nf3 d6 3. Be2 Nf6 4. O-O => \
    Listed(NotReaching(0)): game 1 does not end on the diagram
games | rnbqkb1r/ppp2ppp/3ppn2/8/8/4PN2/PPPPBPPP/RNBQ1RK1 | 3.5 | 1. e3 e6 2. Nf3 d6 3. Be2 Nf6 4. O-O => \
    AtLeastOne => diagram rnbqkb1r/ppp2ppp/3ppn2/8/8/4PN2/PPPPBPPP/RNBQ1RK1$length 3.5$games 1$\
    1. e3 e6 2. Nf3 d6 3. Be2 Nf6 4. O-O$at least one game$
games | rnbqkbNr/1pppp2p/p4p2/8/8/8/PPPPPP1P/RNBQKBNR | 4.5 | g4 f6 g5 a6 gxf6 a5 fxg7 a4 gxh8 => \
    Games(At { line: 1, ply: 9, cause: NoSuchMove }): line 1, ply 9: no such legal move
games | rnbqkbNr/1pppp2p/8/8/p7/8/PPPPPP1P/RNBQKBNR | 4.5 | g4 f6 g5 a6 gxf6 a5 fxg7 a4 gxh8=N => \
    Listed(NotReaching(0)): game 1 does not end on the diagram
games | rnbqkbnN/1pppp2p/8/8/p7/8/PPPPPP1P/RNBQKBNR | 4.5 | g4 f6 g5 a6 gxf6 a5 fxg7 a4 gxh8=N => AtLeastOne => \
    diagram rnbqkbnN/1pppp2p/8/8/p7/8/PPPPPP1P/RNBQKBNR$length 4.5$games 1$\
    1. g4 f6 2. g5 a6 3. gxf6 a5 4. fxg7 a4 5. gxh8=N$at least one game$
games | rnbqkbnr/pppp1ppp/8/8/P7/R7/1PPPP2P/1NBQKBqR | 4.0 | a4 e5 g4 e4 f4 exf3 Ra3 fxg2 => \
    Games(At { line: 1, ply: 8, cause: NoSuchMove }): line 1, ply 8: no such legal move
games | rnbqkbnr/pppp1ppp/8/8/P7/R7/1PPPP2P/1NBQKBqR | 5.0 | a4 e5 f4 exf4 Ra3 f3 h3 fxg2 h4 gxh1=Q => \
    Listed(NotReaching(0)): game 1 does not end on the diagram
games | rnbqkbnr/pppp1ppp/8/8/P6P/R7/1PPPP3/1NBQKBNq | 5.0 | a4 e5 f4 exf4 Ra3 f3 h3 fxg2 h4 gxh1=Q => AtLeastOne => \
    diagram rnbqkbnr/pppp1ppp/8/8/P6P/R7/1PPPP3/1NBQKBNq$length 5.0$games 1$\
    1. a4 e5 2. f4 exf4 3. Ra3 f3 4. h3 fxg2 5. h4 gxh1=Q$at least one game$";

#[test]
fn games_of_every_kind(rt: HostRuntime) {
    check_table(&rt, OF_EVERY_KIND);
}

// One text is bad; two are, and the first is told; a game is too short and another ends elsewhere.
const REFUSED: &str = "games | 8/8 | 1.0 | 1. e4 e5 => Diagram(Rank): bad rank
games | after-e4-e5 | 1. | 1. e4 e5 => Length(Shape): bad length
games | after-e4-e5 | 1.0 | 1. e4 e4 => \
    Games(At { line: 1, ply: 2, cause: NoSuchMove }): line 1, ply 2: no such legal move
games | 8/8 | 1. | 1. e4 e4 => Diagram(Rank): bad rank
games | after-e4-e5 | 1. | 1. e4 e4 => Length(Shape): bad length
games | after-e4-e5 | 1.0 | 1. e4$1. e4 e4 => \
    Games(At { line: 2, ply: 2, cause: NoSuchMove }): line 2, ply 2: no such legal move
games | after-e4-e5 | 1.0 | 1. e4 e5$1. e4 e5 => Games(Repeated { line: 2 }): line 2: repeated game
games | after-e4-e5 | 1.0 | 1. e4 e5$1. e4 => Listed(WrongLength(0)): game 1 does not have the stated length
games | after-e4-e5 | 1.0 | 1. e4 e6$1. e4 d5 => Listed(NotReaching(0)): game 1 does not end on the diagram
games | after-e4-e5 | 1.5 | 1. e4 e5 => Listed(WrongLength(0)): game 1 does not have the stated length";

#[test]
fn games_that_are_refused(rt: HostRuntime) {
    check_table(&rt, REFUSED);
}

// Each write fails in turn.
#[test]
fn writes_of_games_that_fail(rt: HostRuntime) {
    check_row_writes(
        &rt,
        "games | two-orders | 1.5 | 1. e3 e6 2. d3$1. d3 e6 2. e3$ => NotSound => \
            diagram rnbqkbnr/pppp1ppp/4p3/8/8/3PP3/PPP2PPP/RNBQKBNR$length 1.5$games 2$1. d3 e6 2. e3$1. e3 e6 2. d3$\
            not sound$",
        31,
    );
}

// Passes too where `rt try --test --fail-alloc N` refuses the N-th growth.
#[test]
fn refused_growths_of_a_list(rt: HostRuntime) {
    for _ in 0..9u8 {
        let mut out = ToWrite::new(Vec::new(rt.alloc()));
        match listed_by(rt.alloc(), [AFTER_E4_E5, "1.0", "1. e4 e5"]) {
            Ok(listed) => match test_games(&listed.problem, &listed.games, &mut out) {
                Ok(standing) => assert!(rt; standing == Standing::AtLeastOne),
                Err(fault) => assert!(rt; fault == ListingFault::Write),
            },
            Err(fault) => assert!(rt; fault == RunFault::Games(GamesFault::Memory)),
        }
    }
}
