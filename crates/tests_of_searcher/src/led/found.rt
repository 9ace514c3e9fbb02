//! Games that a led search finds, each played through and tested.

use super::*;

// Games that lead to another one, within how many nodes, with how many foreign moves at most, and how many plies that
// one has: known games of ten to eighteen moves; men of either colour who move in another order; castling to either
// side, promotions of either colour, captures en passant; a first move that is foreign; a pawn's two squares in place
// of one, Black's and White's, so that the first foreign move is theirs; and a game that is shorter.
const LEADS: &str =
    "1. e3 a5 2. Qh5 Ra6 3. Qxa5 h5 4. h4 Rah6 5. Qxc7 f6 6. Qxd7+ Kf7 7. Qxb7 Qd3 8. Qxb8 Qh7 9. Qxc8 Kg6 10. Qe6 | \
    1000 | 0 => 19 plies
1. c4 d5 2. Qb3 Bh3 3. gxh3 f5 4. Qxb7 Kf7 5. Qxa7 Kg6 6. f3 c5 7. Qxe7 Rxa2 8. Kf2 Rxb2 9. Qxg7+ Kh5 10. Qxg8 Rxb1 \
    11. Rxb1 Kh4 12. Qxh8 h5 13. Qh6 Bxh6 14. Rxb8 Be3+ 15. dxe3 Qxb8+ 16. Kg2 Qf4 17. exf4 d4 18. Be3 dxe3 | 1000 | \
    0 => 36 plies
1. e4 e5 2. Nf3 d6 3. d4 Bg4 4. dxe5 Bxf3 5. Qxf3 dxe5 6. Bc4 Nf6 7. Qb3 Qe7 8. Nc3 c6 9. Bg5 b5 10. Nxb5 cxb5 11. \
    Bxb5+ Nbd7 12. O-O-O Rd8 13. Rxd7 Rxd7 14. Rd1 Qe6 15. Bxd7+ Nxd7 16. Qb8+ Nxb8 17. Rd8# | 1000 | 0 => 33 plies
1. f3 e5 2. g4 Qh4# | 1000 | 0 => 4 plies
1. e4 a6 2. e5 d5 3. exd6 | 1000 => 5 plies
1. e4 d5 2. exd5 a6 3. d6 | 1000 => 5 plies
1. e4 Nf6 2. Qe2 Nxe4 3. f3 Ng3 4. Qxe7+ Qxe7+ 5. Kf2 Nxh1# | 1000 | 0 => 10 plies
1. e3 b5 2. Bc4 bxc4 3. d3 cxd3 4. Qxd3 | 20000 | 0 => none with 0
1. e3 b5 2. Bc4 bxc4 3. d3 cxd3 4. Qxd3 | 20000 | 1 => 7 plies
1. e3 b5 2. Bc4 bxc4 3. d4 cxd3 4. Qxd3 | 20000 => 7 plies
1. Nf3 Nf6 2. g3 g6 3. Bg2 Bg7 4. O-O O-O | 1000 | 0 => 8 plies
1. d4 d5 2. Nc3 Nc6 3. Bf4 Bf5 4. Qd2 Qd7 5. O-O-O O-O-O | 1000 | 0 => 10 plies
1. h4 g5 2. hxg5 a6 3. g6 b6 4. gxh7 c6 5. hxg8=Q | 1000 | 0 => 9 plies
1. a3 h5 2. b3 h4 3. c3 h3 4. d3 hxg2 5. e3 gxh1=N | 1000 | 0 => 10 plies
1. e4 f5 2. exf5 e6 3. fxe6 a5 4. exd7+ | 20000 | 0 => none with 0
1. e4 f5 2. exf5 e6 3. fxe6 a5 4. exd7+ | 20000 | 1 => 7 plies
1. d3 f5 2. e4 fxe4 3. Qe2 exd3 4. cxd3/1. e4 f5 2. Qe2 fxe4 3. d3 exd3 4. cxd3/1. e4 f5 2. d3 fxe4 3. Qe2 exd3 4. \
    cxd3 | 20000 | 0 => none with 0
1. d3 f5 2. e4 fxe4 3. Qe2 exd3 4. cxd3/1. e4 f5 2. Qe2 fxe4 3. d3 exd3 4. cxd3/1. e4 f5 2. d3 fxe4 3. Qe2 exd3 4. \
    cxd3 | 20000 | 1 => 7 plies
1. e4 e6 2. Bb5 Ke7 3. Bxd7 c6 4. Be8 Kxe8 | 20000 => 6 plies";

#[test]
fn games_lead_to_others(rt: HostRuntime) {
    check_table(&rt, LEADS);
}

// Problems of three and a half to twelve moves that have one game.
const SOUND: &str = "1. e4 g6 2. Ba6 Nxa6 3. Nf3 Nb8 4. O-O
1. c4 c5 2. Qa4 Qa5 3. Qc6 Qc3 4. Qxc8#
1. Nc3 d6 2. Nd5 Nd7 3. Nxe7 Ndf6 4. Nxg8 Nxg8
1. Nf3 e5 2. Nxe5 Ne7 3. Nxd7 Nec6 4. Nxb8 Nxb8
1. d3 c6 2. Bf4 Qa5+ 3. Nd2 Qxd2+ 4. Qxd2 f6 5. O-O-O
1. e4 d5 2. exd5 Kd7 3. Qg4+ Kd6 4. Qb4+ c5 5. dxc6+
1. d4 d6 2. d5 Be6 3. dxe6 Qc8 4. exf7+ Kd7 5. fxg8=Q
1. h4 e5 2. h5 Be7 3. h6 Bh4 4. hxg7 h5 5. gxh8=N
1. h4 d5 2. h5 Nd7 3. h6 Ndf6 4. hxg7 Kd7 5. Rh6 Ne8 6. gxf8=N#
1. a4 d5 2. a5 Qd6 3. a6 Qxh2 4. axb7 Qxg2 5. bxa8=R Qxf1+ 6. Kxf1
1. a4 h5 2. a5 h4 3. a6 h3 4. axb7 hxg2 5. bxa8=N gxh1=N 6. Nb6 Ng3
1. e3 h5 2. Bc4 h4 3. Bxf7+ Kxf7 4. Ne2 Ke6 5. O-O Kd5 6. Nec3+ Kc4 7. d3+
1. b4 c5 2. bxc5 Qb6 3. cxb6 h5 4. bxa7 b5 5. axb8=R Ra3 6. Rxb5 Ba6 7. Rc5 Bb5
1. d4 Nf6 2. Qd2 Nh5 3. Qh6 gxh6 4. b4 Bg7 5. b5 O-O 6. b6 Re8 7. bxa7 b6 8. axb8=N Ra4 9. Nxd7 Rb4
1. d4 Nf6 2. Qd2 Nh5 3. Qh6 gxh6 4. b4 Bg7 5. b5 O-O 6. b6 Re8 7. bxa7 b6 8. axb8=N Ra4 9. Nxd7 Rc4 10. Nc5 Bf5 11. \
    e3 Qa8 12. Be2 Qa3";

// Whether a search of `nodes` nodes goes through all games with three foreign moves at most, or through all games
// before that, and meets none.
fn meets_none<R: Abort + AllocGlobal>(rt: &R, game: &str, nodes: u64) -> bool {
    matches!(
        answered(rt, game, nodes, "3").as_str(),
        "none with 0" | "none with 1" | "none with 2" | "none with 3"
    )
}

#[test]
fn sound_problems_have_no_other(rt: HostRuntime) {
    for game in SOUND.lines() {
        assert!(rt; meets_none(&rt, game, 1_000_000), "{game}");
    }
}
