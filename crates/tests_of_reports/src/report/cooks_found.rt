//! Reports of games that are found beside a list.

use super::*;
use pg_trial::Counted;

// Another order of moves; a capture in passing where the list has none; a game of Black's kind.
const COOKS: &str = "cooks | two-orders | 1.5 | 1. e3 e6 2. d3 => Cook => \
    diagram rnbqkbnr/pppp1ppp/4p3/8/8/3PP3/PPP2PPP/RNBQKBNR$length 1.5$games 1$1. e3 e6 2. d3$another game$\
    1. d3 e6 2. e3$\
    it parts from the first at move 1 of White, with the same moves in another order$not sound$
cooks | fools-mate | 2.0 | 1. f3 e5 2. g4 Qh4# => Cook => \
    diagram rnb1kbnr/pppp1ppp/8/4p3/6Pq/5P2/PPPPP2P/RNBQKBNR$length 2.0$games 1$1. f3 e5 2. g4 Qh4#$another game$\
    1. g4 e5 2. f3 Qh4#$\
    it parts from the first at move 1 of White, with the same moves in another order$not sound$
cooks | en-passant | 2.5 | 1. e4 a6 2. e5 d6 3. exd6$1. e4 d5 2. exd5 a6 3. d6$1. e4 d6 2. e5 a6 3. exd6 => Cook => \
    diagram rnbqkbnr/1pp1pppp/p2P4/8/8/8/PPPP1PPP/RNBQKBNR$length 2.5$games 3$1. e4 a6 2. e5 d6 3. exd6$\
    1. e4 d5 2. exd5 a6 3. d6$1. e4 d6 2. e5 a6 3. exd6$another game$1. e4 a6 2. e5 d5 3. exd6$\
    it parts from the first at move 2 of Black$not sound$";

#[test]
fn other_games(rt: HostRuntime) {
    check_table(&rt, COOKS);
}

// Problems of which all games but one are listed, so that this one is found: White castles to either side, and so does
// Black; either promotes, to a queen and to a knight. The last two are captures in passing: where pawns go two squares
// that go one square in the lists, so the first move of another kind is Black's, and then White's.
const OF_EVERY_KIND: &str =
    "cooks | rnbqkbnr/p1ppp1pp/5p2/1B6/8/4P2N/PPPP1PPP/RNBQ1RK1 | 3.5 | 1. Nh3 b6 2. e3 b5 3. Bxb5 f6 4. O-O => \
    Cook => diagram rnbqkbnr/p1ppp1pp/5p2/1B6/8/4P2N/PPPP1PPP/RNBQ1RK1$length 3.5$games 1$\
    1. Nh3 b6 2. e3 b5 3. Bxb5 f6 4. O-O$another game$1. e3 b6 2. Nh3 b5 3. Bxb5 f6 4. O-O$\
    it parts from the first at move 1 of White, with the same moves in another order$not sound$
cooks | rnbq1rk1/pppppp1p/5np1/8/5B1P/3P4/PPP1PPP1/RN1QKBNR | 4.0 | 1. d3 g6 2. h4 Bh6 3. Bxh6 Nf6 4. Bf4 O-O => \
    Cook => diagram rnbq1rk1/pppppp1p/5np1/8/5B1P/3P4/PPP1PPP1/RN1QKBNR$length 4.0$games 1$\
    1. d3 g6 2. h4 Bh6 3. Bxh6 Nf6 4. Bf4 O-O$another game$1. h4 g6 2. d3 Bh6 3. Bxh6 Nf6 4. Bf4 O-O$\
    it parts from the first at move 1 of White, with the same moves in another order$not sound$
cooks | rnb1kbnr/pp2pppp/8/2pp4/8/N2P4/PPPQPPPP/2KR1BNR | 4.5 | \
    1. d3 c5 2. Na3 Qa5+ 3. Bd2 Qxd2+ 4. Qxd2 d5 5. O-O-O$1. d3 c5 2. Bd2 Qa5 3. Na3 Qxd2+ 4. Qxd2 d5 5. O-O-O => \
    Cook => diagram rnb1kbnr/pp2pppp/8/2pp4/8/N2P4/PPPQPPPP/2KR1BNR$length 4.5$games 2$\
    1. d3 c5 2. Na3 Qa5+ 3. Bd2 Qxd2+ 4. Qxd2 d5 5. O-O-O$1. d3 c5 2. Bd2 Qa5 3. Na3 Qxd2+ 4. Qxd2 d5 5. O-O-O$\
    another game$1. Na3 c5 2. d3 Qa5+ 3. Bd2 Qxd2+ 4. Qxd2 d5 5. O-O-O$\
    it parts from the first at move 1 of White, with the same moves in another order$not sound$
cooks | 2kr1bnr/pppqpppp/n2p4/8/2P5/8/PPKPPPPP/RNB2BNR | 5.0 | \
    1. c4 d6 2. Qa4+ Bd7 3. Kd1 Na6 4. Qxd7+ Qxd7 5. Kc2 O-O-O => Cook => \
    diagram 2kr1bnr/pppqpppp/n2p4/8/2P5/8/PPKPPPPP/RNB2BNR$length 5.0$games 1$\
    1. c4 d6 2. Qa4+ Bd7 3. Kd1 Na6 4. Qxd7+ Qxd7 5. Kc2 O-O-O$another game$\
    1. c4 d6 2. Qa4+ Bd7 3. Qxd7+ Qxd7 4. Kd1 Na6 5. Kc2 O-O-O$\
    it parts from the first at move 3 of White, with the same moves in another order$not sound$
cooks | rn1q1bnQ/pp1kpp1p/3p4/2p5/6b1/8/PPPPPPP1/RNBQKBNR | 4.5 | \
    1. h4 c5 2. h5 d6 3. h6 Bg4 4. hxg7 Kd7 5. gxh8=Q$1. h4 d6 2. h5 c5 3. h6 Bg4 4. hxg7 Kd7 5. gxh8=Q$\
    1. h4 d6 2. h5 Bg4 3. h6 c5 4. hxg7 Kd7 5. gxh8=Q => Cook => \
    diagram rn1q1bnQ/pp1kpp1p/3p4/2p5/6b1/8/PPPPPPP1/RNBQKBNR$length 4.5$games 3$\
    1. h4 c5 2. h5 d6 3. h6 Bg4 4. hxg7 Kd7 5. gxh8=Q$1. h4 d6 2. h5 c5 3. h6 Bg4 4. hxg7 Kd7 5. gxh8=Q$\
    1. h4 d6 2. h5 Bg4 3. h6 c5 4. hxg7 Kd7 5. gxh8=Q$another game$1. h4 d6 2. h5 Bg4 3. h6 Kd7 4. hxg7 c5 5. gxh8=Q$\
    it parts from the first at move 1 of Black, with the same moves in another order$not sound$
cooks | rn1qkbnN/p1p1pp1p/3p4/1p6/8/8/PPbPP1PP/RNBQKBNR | 4.5 | 1. f4 d6 2. f5 b5 3. f6 Bf5 4. fxg7 Bxc2 5. gxh8=N => \
    Cook => diagram rn1qkbnN/p1p1pp1p/3p4/1p6/8/8/PPbPP1PP/RNBQKBNR$length 4.5$games 1$\
    1. f4 d6 2. f5 b5 3. f6 Bf5 4. fxg7 Bxc2 5. gxh8=N$another game$\
    1. f4 b5 2. f5 d6 3. f6 Bf5 4. fxg7 Bxc2 5. gxh8=N$\
    it parts from the first at move 1 of Black, with the same moves in another order$not sound$
cooks | rnbqkbnr/ppppppp1/5P2/8/P7/7P/1PPPP3/RNBQKBNq | 5.0 | \
    1. f4 h5 2. a4 h4 3. f5 h3 4. f6 hxg2 5. h3 gxh1=Q$1. f4 h5 2. f5 h4 3. a4 h3 4. f6 hxg2 5. h3 gxh1=Q$\
    1. f4 h5 2. f5 h4 3. f6 h3 4. a4 hxg2 5. h3 gxh1=Q => Cook => \
    diagram rnbqkbnr/ppppppp1/5P2/8/P7/7P/1PPPP3/RNBQKBNq$length 5.0$games 3$\
    1. f4 h5 2. a4 h4 3. f5 h3 4. f6 hxg2 5. h3 gxh1=Q$1. f4 h5 2. f5 h4 3. a4 h3 4. f6 hxg2 5. h3 gxh1=Q$\
    1. f4 h5 2. f5 h4 3. f6 h3 4. a4 hxg2 5. h3 gxh1=Q$another game$\
    1. a4 h5 2. f4 h4 3. f5 h3 4. f6 hxg2 5. h3 gxh1=Q$\
    it parts from the first at move 1 of White, with the same moves in another order$not sound$
cooks | rnbqkbnr/ppppppp1/8/3P4/8/1N6/PPPQPP1P/R1B1KnNR | 5.0 | \
    1. d4 h5 2. Nd2 h4 3. Nb3 h3 4. Qd2 hxg2 5. d5 gxf1=N$1. d4 h5 2. Nd2 h4 3. Nb3 h3 4. d5 hxg2 5. Qd2 gxf1=N$\
    1. d4 h5 2. Nd2 h4 3. d5 h3 4. Nb3 hxg2 5. Qd2 gxf1=N => Cook => \
    diagram rnbqkbnr/ppppppp1/8/3P4/8/1N6/PPPQPP1P/R1B1KnNR$length 5.0$games 3$\
    1. d4 h5 2. Nd2 h4 3. Nb3 h3 4. Qd2 hxg2 5. d5 gxf1=N$1. d4 h5 2. Nd2 h4 3. Nb3 h3 4. d5 hxg2 5. Qd2 gxf1=N$\
    1. d4 h5 2. Nd2 h4 3. d5 h3 4. Nb3 hxg2 5. Qd2 gxf1=N$another game$\
    1. d4 h5 2. d5 h4 3. Nd2 h3 4. Nb3 hxg2 5. Qd2 gxf1=N$\
    it parts from the first at move 2 of White, with the same moves in another order$not sound$
cooks | rnbqkbnr/1ppP2pp/8/p7/8/8/PPPP1PPP/RNBQKBNR | 3.5 | 1. e4 f5 2. exf5 e6 3. fxe6 a5 4. exd7+ => Cook => \
    diagram rnbqkbnr/1ppP2pp/8/p7/8/8/PPPP1PPP/RNBQKBNR$length 3.5$games 1$1. e4 f5 2. exf5 e6 3. fxe6 a5 4. exd7+$\
    another game$1. e4 f5 2. exf5 e5 3. fxe6 a5 4. exd7+$\
    it parts from the first at move 2 of Black$not sound$
cooks | rnbqkbnr/ppppp1pp/8/8/8/3P4/PP2QPPP/RNB1KBNR | 3.5 | \
    1. d3 f5 2. e4 fxe4 3. Qe2 exd3 4. cxd3$1. e4 f5 2. Qe2 fxe4 3. d3 exd3 4. cxd3$\
    1. e4 f5 2. d3 fxe4 3. Qe2 exd3 4. cxd3 => Cook => \
    diagram rnbqkbnr/ppppp1pp/8/8/8/3P4/PP2QPPP/RNB1KBNR$length 3.5$games 3$1. d3 f5 2. e4 fxe4 3. Qe2 exd3 4. cxd3$\
    1. e4 f5 2. Qe2 fxe4 3. d3 exd3 4. cxd3$1. e4 f5 2. d3 fxe4 3. Qe2 exd3 4. cxd3$another game$\
    1. e4 f5 2. Qe2 fxe4 3. d4 exd3 4. cxd3$\
    it parts from the first at move 1 of White$not sound$";

#[test]
fn other_games_of_every_kind(rt: HostRuntime) {
    check_table(&rt, OF_EVERY_KIND);
}

// The only game of two moves leads to a shorter one that White ends, and that to one that Black ends; a game that ends
// elsewhere leads to none.
const SHORTER: &str = "cooks | after-e4-e5 | 2.0 | 1. e3 e6 2. e4 e5 => Shorter => \
    diagram rnbqkbnr/pppp1ppp/8/4p3/4P3/8/PPPP1PPP/RNBQKBNR$length 2.0$games 1$1. e3 e6 2. e4 e5$a game of 3 plies$\
    1. e3 e5 2. e4$not sound$
cooks | after-e4-e5 | 1.5 | 1. e3 e5 2. e4 => Shorter => \
    diagram rnbqkbnr/pppp1ppp/8/4p3/4P3/8/PPPP1PPP/RNBQKBNR$length 1.5$games 1$1. e3 e5 2. e4$a game of 2 plies$\
    1. e4 e5$not sound$
cooks | after-e4 | 1.5 | 1. e3 Nf6 2. e4 => Listed(NotReaching(0)): game 1 does not end on the diagram";

#[test]
fn shorter_games_or_none(rt: HostRuntime) {
    check_table(&rt, SHORTER);
}

// None is found: all games were gone through, also of one game and of none of a ply; the nodes came to their end,
// before a round was gone through and after one; no more foreign moves were allowed, where the other game, with the
// knight by h3, has two. With two listed games the problem is not sound, whatever the search came to.
const NONE: &str =
    "cooks | fools-mate | 2.0 | 1. f3 e5 2. g4 Qh4#$1. g4 e5 2. f3 Qh4# => NotFound => \
    diagram rnb1kbnr/pppp1ppp/8/4p3/6Pq/5P2/PPPPP2P/RNBQKBNR$length 2.0$games 2$1. f3 e5 2. g4 Qh4#$\
    1. g4 e5 2. f3 Qh4#$none: the search went through all games$not sound$
cooks | after-e4 | 0.5 | 1. e4 | 0 => NotFound => \
    diagram rnbqkbnr/pppppppp/8/8/4P3/8/PPPP1PPP/RNBQKBNR$length 0.5$games 1$1. e4$\
    none: the search went through all games$
cooks | array | 0.0 | - | 0 => NotFound => \
    diagram rnbqkbnr/pppppppp/8/8/8/8/PPPPPPPP/RNBQKBNR$length 0.0$games 1$-$none: the search went through all games$
cooks | array | 2.0 | 1. Nf3 Nf6 2. Ng1 Ng8$1. Nf3 Nc6 2. Ng1 Nb8 | 0 => NotFound => \
    diagram rnbqkbnr/pppppppp/8/8/8/8/PPPPPPPP/RNBQKBNR$length 2.0$games 2$1. Nf3 Nc6 2. Ng1 Nb8$\
    1. Nf3 Nf6 2. Ng1 Ng8$none found: node limit reached$not sound$
cooks | schweig | 4.0 | 1. Nc3 d6 2. Nd5 Nd7 3. Nxe7 Ndf6 4. Nxg8 Nxg8 | 0 => NotFound => \
    diagram r1bqkbnr/ppp2ppp/3p4/8/8/8/PPPPPPPP/R1BQKBNR$length 4.0$games 1$\
    1. Nc3 d6 2. Nd5 Nd7 3. Nxe7 Ndf6 4. Nxg8 Nxg8$none found: node limit reached$
cooks | schweig | 4.0 | 1. Nc3 d6 2. Nd5 Nd7 3. Nxe7 Ndf6 4. Nxg8 Nxg8 | 190 => NotFound => \
    diagram r1bqkbnr/ppp2ppp/3p4/8/8/8/PPPPPPPP/R1BQKBNR$length 4.0$games 1$\
    1. Nc3 d6 2. Nd5 Nd7 3. Nxe7 Ndf6 4. Nxg8 Nxg8$none with at most 0 foreign moves: node limit reached$
cooks | rnbq1Nnr/pppp1pp1/4p3/2k5/8/8/PPPPPPPP/RNBQKB1R | 4.0 | 1. Nf3 e6 2. Ng5 Ke7 3. Nxh7 Kd6 4. Nxf8 Kc5 | 9000 | \
    0 => NotFound => diagram rnbq1Nnr/pppp1pp1/4p3/2k5/8/8/PPPPPPPP/RNBQKB1R$length 4.0$games 1$\
    1. Nf3 e6 2. Ng5 Ke7 3. Nxh7 Kd6 4. Nxf8 Kc5$none with at most 0 foreign moves: no more were allowed$
cooks | rnbq1Nnr/pppp1pp1/4p3/2k5/8/8/PPPPPPPP/RNBQKB1R | 4.0 | 1. Nf3 e6 2. Ng5 Ke7 3. Nxh7 Kd6 4. Nxf8 Kc5 | 9000 | \
    1 => NotFound => diagram rnbq1Nnr/pppp1pp1/4p3/2k5/8/8/PPPPPPPP/RNBQKB1R$length 4.0$games 1$\
    1. Nf3 e6 2. Ng5 Ke7 3. Nxh7 Kd6 4. Nxf8 Kc5$none with at most 1 foreign move: no more were allowed$";

#[test]
fn no_games(rt: HostRuntime) {
    check_table(&rt, NONE);
}

// One text is bad, the first is told; a game is no solution; none is given.
const REFUSED: &str = "cooks | 8/8 | 1. |  => Diagram(Rank): bad rank
cooks | after-e4-e5 | 1. |  => Length(Shape): bad length
cooks | after-e4-e5 | 1.0 | 1. e4 e4 => \
    Games(At { line: 1, ply: 2, cause: NoSuchMove }): line 1, ply 2: no such legal move
cooks | after-e4-e5 | 1.0 | 1. e4 e6 => Listed(NotReaching(0)): game 1 does not end on the diagram
cooks | after-e4-e5 | 1.0 | 1. e4 => Listed(WrongLength(0)): game 1 does not have the stated length
cooks | after-e4-e5 | 1.0 | $ => NoGame: no game to go by";

#[test]
fn lists_that_lead_nowhere(rt: HostRuntime) {
    check_table(&rt, REFUSED);
}

// Each write fails in turn.
#[test]
fn writes_of_cooks_that_fail(rt: HostRuntime) {
    check_row_writes(
        &rt,
        "cooks | two-orders | 1.5 | 1. e3 e6 2. d3 => Cook => \
            diagram rnbqkbnr/pppp1ppp/4p3/8/8/3PP3/PPP2PPP/RNBQKBNR$length 1.5$games 1$1. e3 e6 2. d3$another game$\
            1. d3 e6 2. e3$\
            it parts from the first at move 1 of White, with the same moves in another order$not sound$",
        39,
    );
}

// What texts spell, or none where memory was refused.
fn listed_if_granted<R: Abort + AllocGlobal>(rt: &R, texts: [&str; 3]) -> Option<Listed> {
    match listed_by(rt.alloc(), texts) {
        Ok(listed) => Some(listed),
        Err(fault) => {
            assert!(rt; fault == RunFault::Games(GamesFault::Memory));
            None
        }
    }
}

// Passes too where `rt try --test --fail-alloc N` refuses the N-th growth.
#[test]
fn refused_growths_of_cooks(rt: HostRuntime) {
    for _ in 0..9u8 {
        let mut out = ToWrite::new(Vec::new(rt.alloc()));
        let limits = LedLimits {
            max_nodes: 100,
            foreign: None,
        };
        let Some(listed) = listed_if_granted(&rt, [AFTER_E4_E5, "1.0", "1. e4 e5"]) else {
            return;
        };
        let (problem, games) = (&listed.problem, &listed.games);
        match find_cooks(rt.alloc(), problem, games, limits, &mut Unwatched, &mut out) {
            Ok(answer) => assert!(rt; matches!(answer, CookAnswer::NotFound { .. })),
            Err(fault) => {
                let is_memory = fault == CooksRunFault::Cooks(CooksFault::Memory);
                assert!(rt; is_memory || fault == CooksRunFault::Write);
            }
        }
    }
}

// What is found beside one order of moves, and how many bytes were written.
fn beside_one_order(alloc: Global, listed: &Listed) -> (Result<CookAnswer, CooksRunFault>, usize) {
    let mut out = ToWrite::new(Counted::new());
    let limits = LedLimits {
        max_nodes: 1_000,
        foreign: None,
    };
    let (problem, games) = (&listed.problem, &listed.games);
    let answer = find_cooks(alloc, problem, games, limits, &mut Unwatched, &mut out);
    (answer, out.into_inner().bytes())
}

// The report on a game that is found is written whole, or want of memory is told and nothing is written. Passes too
// where `rt try --test --fail-alloc N` refuses the N-th growth.
#[test]
fn refused_growths_of_a_game_that_is_found(rt: HostRuntime) {
    for _ in 0..9u8 {
        let texts = [named("two-orders"), "1.5", "1. e3 e6 2. d3"];
        let Some(listed) = listed_if_granted(&rt, texts) else {
            return;
        };
        let (answer, bytes) = beside_one_order(rt.alloc(), &listed);
        match answer {
            Ok(CookAnswer::Cook(_)) => assert_eq!(rt; bytes, 209),
            Ok(_) => panic!(rt; "another answer"),
            Err(fault) => {
                assert!(rt; fault == CooksRunFault::Cooks(CooksFault::Memory));
                assert_eq!(rt; bytes, 0);
            }
        }
    }
}
