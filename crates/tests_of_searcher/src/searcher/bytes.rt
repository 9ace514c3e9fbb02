//! The certificates that searches write, byte for byte: they are those of a walk that goes from node to node. The
//! searcher goes over many nodes at once; what is wanted here was written by one that did not.

use super::*;
use pg_trial::Digest;

// How many games a search of `nodes` nodes finds, or the fault; how many bytes it wrote until then; their digest.
fn written<R: Abort + AllocGlobal>(rt: &R, goal: &Goal, nodes: u64) -> Said {
    let mut sink = ToWrite::new(Vec::new(rt.alloc()));
    let found = count_of(&searched(rt.alloc(), goal, nodes, &mut sink));
    let bytes = sink.into_inner();
    let state = Digest::of(bytes.as_slice()).value();
    words(&format_args!("{} {} {state:016x}", found.as_str(), bytes.len()))
}

// A row of a diagram, a length and how many nodes are allowed; and what is written.
fn check_written<R: Abort + AllocGlobal>(rt: &R, row: &str) {
    let (asked, wanted) = halves(rt, row, " => ");
    let goal = goal_of(rt, field(asked, 0), field(asked, 1));
    let nodes = number(rt, field(asked, 2));
    assert_eq!(rt; written(rt, &goal, nodes).as_str(), wanted, "{asked}");
}

// The problems of the numbers of nodes; castling, captures en passant, promotions, no game, and many games of a few
// moves in any order. At the end a node less than suffices, or far fewer: what was written until then went out in
// pieces of 4,096 bytes.
pub(super) const WRITTEN: &str = "four-knights-gone | 4.0 | 6118 => 1 10015 8cb02ae2b43eff8e
rnQ1kbnr/pp1ppppp/8/2p5/2P5/2q5/PP1PPPPP/RNB1KBNR | 3.5 | 920 => 1 1500 530adb8aa99a9b91
rnbqkbnr/p1pppppp/8/8/8/3QP3/PPP2PPP/RNB1K1NR | 3.5 | 8313 => 2 16319 a6c335a3ebedf1ce
r1bqnNnr/pppkpp1p/7R/3p4/8/8/PPPPPPP1/RNBQKBN1 | 5.5 | 428 => 1 2330 3f61018b1535ee37
Rnb1kbnr/p1p1pppp/8/3p4/8/8/1PPPPP2/RNBQ1KNR | 5.5 | 3856 => 1 91396 da9b051060e2d9e7
1nbqkbnr/p1ppppp1/1N6/8/8/6n1/1PPPPP1P/RNBQKBN1 | 6.0 | 373 => 1 8635 7aeebe76d70d84f0
rnbq1bnr/ppppp1p1/8/8/2k4p/2NPP3/PPP2PPP/RNBQ1RK1 | 6.5 | 4020 => 1 36012 591884819dd2aa08
2bqr1k1/2pNppbp/1p5p/7n/1r1P4/8/P1P1PPPP/RNB1KBNR | 9.0 | 9198 => 1 173629 67e92e42ebcea5d0
rnbqkbnr/pppppp1p/6p1/8/4P3/5N2/PPPP1PPP/RNBQ1RK1 | 3.5 | 4665 => 1 8719 c0b29caddc098022
rnbqk1nr/ppppppbp/6p1/8/8/5NP1/PPPPPPBP/RNBQ1RK1 | 3.5 | 392 => 3 753 b225a0ff710e210f
rnbqkbnr/1pp1pppp/p2P4/8/8/8/PPPP1PPP/RNBQKBNR | 2.5 | 236 => 4 418 edada812bbc2727d
rnbq1bnr/pp2pppp/2Pk4/8/1Q6/8/PPPP1PPP/RNB1KBNR | 4.5 | 1121 => 1 2266 d154c282cb431573
rnq2bQr/pppkp1pp/3p4/8/8/8/PPP1PPPP/RNBQKBNR | 4.5 | 654 => 1 8326 a2b66438a3d1b33b
rnbqk1nN/pppp1p2/8/4p2p/7b/8/PPPPPPP1/RNBQKBNR | 4.5 | 215 => 1 830 2c4cdbdf5a3ba105
rnbqkbnr/pppppppp/8/8/8/8/PPPPPPPP/RNBQKB1R | 3.5 | 6720 => 0 11579 852ae0e0cb8bdea9
fools-mate | 2.0 | 104 => 2 199 8b72af72f33ee2a5
rnbqkbnr/3ppppp/ppp5/8/8/PPP5/3PPPPP/RNBQKBNR | 3.0 | 1343 => 36 1947 0db6e9361b487817
r1bqkb1r/pppp1ppp/2n2n2/4p3/2B1P3/2N2N2/PPPP1PPP/R1BQK2R | 3.5 | 3981 => 72 5882 b8ba18795a4dfc84
rnb1kbnr/1ppp1ppp/p3p3/8/6Pq/P4P2/1PPPP2P/RNBQKBNR | 3.0 | 100000 => 12 1254 c9f68d7ca3a52594
four-knights-gone | 4.0 | 6117 => Budget 8192 5bab584c33214b6f
1nbqkbnr/p1ppppp1/1N6/8/8/6n1/1PPPPP1P/RNBQKBN1 | 6.0 | 372 => Budget 8192 5bec5d52fe6570b9
rnq2bQr/pppkp1pp/3p4/8/8/8/PPP1PPPP/RNBQKBNR | 4.5 | 653 => Budget 8192 b1473c533a3c31dc
r1bqkb1r/pppp1ppp/2n2n2/4p3/2B1P3/2N2N2/PPPP1PPP/R1BQK2R | 3.5 | 3980 => Budget 4096 5e5adf2a4c403313
rnb1kbnr/pp1pp1pp/2p2p2/8/5B2/3P4/PPPQPPPP/2KR1BNR | 4.5 | 20000 => Budget 36864 a7fa5a318aaf9789
4kbnr/3pppp1/8/1bR4p/8/r7/P1PPPPPP/RNBQKBNR | 7.0 | 20000 => Budget 77824 9bb5f31bb707d140";

#[test]
fn the_bytes_are_those_of_a_walk_from_node_to_node(rt: HostRuntime) {
    for row in WRITTEN.lines() {
        check_written(&rt, row);
    }
}
