//! The bound by journeys: positions with the answers of a model that was written apart from it, what it says of facts,
//! and what a colour needs that it excludes.

use crate::texts::{check_bound, check_line, color, diagram, position, row_of};
use pg_captures::Bound;
use pg_fen::Diagram;
use pg_journeys::{
    DeadColor, Facts, Journeys, JourneysByMemory, dead_color, facts_for, least_counts, unreached,
};
use pg_position::Position;
use std::process::Abort;

// Castling both ways in both colours, with the right and without; a capture en passant alone; promotion to wait for, of
// a man that captures and of one that is captured; a wall that is missing; more than sixteen men; no ply left and 255.
const CASES: &str = "4k3/8/8/8/8/8/8/5RK1 | 4k3/8/8/8/8/8/8/4K2R w K - 0 1 | 1 => no
4k3/8/8/8/8/8/8/5RK1 | 4k3/8/8/8/8/8/8/4K2R w K - 0 1 | 2 => no
4k3/8/8/8/8/8/8/5RK1 | 4k3/8/8/8/8/8/8/4K2R w - - 0 1 | 1 => yes
4k3/8/8/8/8/8/8/2KR4 | 4k3/8/8/8/8/8/8/R3K3 w Q - 0 1 | 1 => no
4k3/8/8/8/8/8/8/2KR4 | 4k3/8/8/8/8/8/8/R3K3 w - - 0 1 | 1 => yes
5rk1/8/8/8/8/8/8/4K3 | 4k2r/8/8/8/8/8/8/4K3 b k - 0 1 | 1 => no
2kr4/8/8/8/8/8/8/4K3 | r3k3/8/8/8/8/8/8/4K3 b q - 0 1 | 1 => no
2kr4/8/8/8/8/8/8/4K3 | r3k3/8/8/8/8/8/8/4K3 b - - 0 1 | 1 => yes
rnbqkbnr/1ppppppp/P7/8/8/8/P1PPPPPP/RNBQKBNR | rnbqkbnr/1ppppppp/8/pP6/8/8/P1PPPPPP/RNBQKBNR w KQkq a6 0 1 | 1 => no
rnbqkbnr/1ppppppp/P7/8/8/8/P1PPPPPP/RNBQKBNR | rnbqkbnr/1ppppppp/8/pP6/8/8/P1PPPPPP/RNBQKBNR w KQkq - 0 1 | 1 => yes
rnbqkbnr/pppppppp/8/8/8/8/PPPPPPPP/RNBQKBNR | rnbqkbnr/pppppppp/8/8/8/8/PPPPPPPP/RNBQKBNR w KQkq - 0 1 | 0 => no
rnbqkbnr/pppppppp/8/8/8/8/PPPPPPPP/RNBQKBNR | rnbqkbnr/pppppppp/8/8/8/8/PPPPPPPP/RNBQKBNR w KQkq - 0 1 | 255 => no
rnbqkbnr/pppppppp/8/8/8/8/PPPPPPPP/RNBQKBNR | rnbqkbnr/pppppppp/8/8/4P3/8/PPPP1PPP/RNBQKBNR b KQkq e3 0 1 | 255 => yes
QQQQQQQQ/8/8/4k3/8/8/QQQQQQQ1/7K | QQQQQQQQ/8/8/4k3/8/8/QQQQQQQ1/7K b - - 0 1 | 2 => no
QQQQQQQQ/QQQQQQQQ/QQQQQQQQ/QQQQQQQQ/qqqqqqqq/qqqqqqqq/kqqqqqqq/Kqqqqqqq | \
    rnbqkbnr/pppppppp/8/8/8/8/PPPPPPPP/RNBQKBNR w KQkq - 0 1 | 255 => yes
4k3/8/8/8/8/8/8/4K3 | 4k3/8/8/8/8/8/8/4K3 w - - 0 1 | 0 => no
4k3/8/8/8/8/8/8/4K3 | 4k3/8/8/8/8/8/8/4K3 w - - 0 1 | 1 => no
4k3/8/8/8/8/8/8/4K3 | 4k3/8/8/8/8/8/8/4K3 w - - 0 1 | 4 => no
Q7/7k/8/8/8/8/8/K7 | 8/P6k/8/8/8/8/8/K7 w - - 0 1 | 1 => no
8/7k/8/8/8/8/8/KQ6 | 8/P6k/8/8/8/8/8/K7 w - - 0 1 | 1 => yes
8/7k/8/8/8/8/8/KQ6 | 8/P6k/8/8/8/8/8/K7 w - - 0 1 | 3 => yes
1N5k/8/8/8/8/8/8/K7 | 1r5k/P7/8/8/8/8/8/K7 w - - 0 1 | 1 => no
7k/P7/8/8/8/8/8/K7 | 1r5k/P7/8/8/8/8/8/K7 w - - 0 1 | 1 => yes
B6k/8/8/8/8/8/8/K7 | r6k/1P6/8/8/8/8/8/K7 w - - 0 1 | 1 => no
rnbqkbnr/pppppppp/8/8/8/8/PPPPPPPP/RN1QKBNR | rnbqkbnr/pppppppp/8/8/8/8/PPPPPPPP/RNBQKBNR w KQkq - 0 1 | 20 => no
rnbqkbnr/pppppppp/8/8/8/4B3/PPPPPPPP/RN1QKBNR | rnbqkbnr/pppppppp/8/8/8/8/PPPPPPPP/RNBQKBNR w KQkq - 0 1 | 20 => yes
r1bqkbnr/ppp2ppp/3p4/8/8/8/PPPPPPPP/R1BQKBNR | rnbqkbnr/pppppppp/8/8/8/8/PPPPPPPP/RNBQKBNR w KQkq - 0 1 | 8 => no
r1bqkbnr/ppp2ppp/3p4/8/8/8/PPPPPPPP/R1BQKBNR | rnbqkbnr/pppppppp/8/8/8/8/PPPPPPPP/RNBQKBNR w KQkq - 0 1 | 7 => no
r1bqkbnr/ppp2ppp/3p4/8/8/8/PPPPPPPP/R1BQKBNR | rnbqkbnr/pppppppp/8/8/8/8/PPPPPPPP/RNBQKBNR w KQkq - 0 1 | 6 => yes
k7/8/8/8/8/8/8/K7 | 8/Pk6/8/8/8/8/8/K7 w - - 0 1 | 2 => no
k7/8/8/8/8/8/8/K7 | 8/Pk6/8/8/8/8/8/K7 w - - 0 1 | 1 => yes
k7/8/8/8/8/8/8/K7 | 8/P7/1k6/8/8/8/8/K7 w - - 0 1 | 2 => yes
8/k7/8/8/8/8/8/K7 | 8/P7/1k6/8/8/8/8/K7 w - - 0 1 | 2 => no";

#[test]
fn single_cases(rt: HostRuntime) {
    check_bound(&rt, &Journeys, CASES);
    assert!(rt; Journeys.code() == 5);
}

// Positions of random games and of problems, by the answers of the model.
const POSITIONS: &str =
    "rnb1kbnr/ppp4p/3p2p1/4Pq2/8/N7/PPPPP1BP/R1BQK1NR | rnbqkbnr/pppppppp/8/8/8/8/PPPPPPPP/RNBQKBNR w KQkq - 0 1 | 12 => no
rnb1kbnr/ppp4p/3p2p1/4Pq2/8/N7/PPPPP1BP/R1BQK1NR | rnb1kbnr/ppp4p/3p2p1/4Pq2/8/N7/PPPPP2P/R1BQKBNR b KQkq - 0 1 | 1 => yes
rnb1kbnr/ppp4p/3p2p1/4Pq2/8/N7/PPPPP1BP/R1BQK1NR | rnbqkbnr/pppppppp/8/8/5P2/8/PPPPP1PP/RNBQKBNR b KQkq f3 0 1 | 9 => yes
rnbqk1nr/2ppp1b1/6pp/p4Q2/5P2/2P1P3/PP1P2PP/RNB1KBNR | rnbqkbnr/pppppppp/8/8/8/8/PPPPPPPP/RNBQKBNR w KQkq - 0 1 | 9 => yes
rnbqk1nr/2ppp1b1/6pp/p4Q2/5P2/2P1P3/PP1P2PP/RNB1KBNR | rnbqkbnr/pppppp1p/8/6p1/5P2/8/PPPPP1PP/RNBQKBNR w KQkq g6 0 1 | 10 => yes
rnbqk1nr/2ppp1b1/6pp/p4Q2/5P2/2P1P3/PP1P2PP/RNB1KBNR | rnbqkbnr/2ppp1p1/4Q2p/pp3p2/5P2/2P1P3/PP1P2PP/RNB1KBNR b KQkq - 0 1 | 1 => yes
rnb2bnr/p1p1k2p/1p6/5p2/P1Pq3p/4PP2/1P1P2P1/R1BQKBNR | rnbqkb1r/p1p1pppp/1p5n/3N4/7P/8/PPPPPPP1/R1BQKBNR w KQkq - 0 1 | 9 => yes
rnb2bnr/p1p1k2p/1p6/5p2/P1Pq3p/4PP2/1P1P2P1/R1BQKBNR | rnbq1bnr/p1p1k2p/1p6/5pp1/7P/4PP2/PPPP2P1/R1BQKBNR b KQ - 0 1 | 4 => no
rnb2bnr/p1p1k2p/1p6/5p2/P1Pq3p/4PP2/1P1P2P1/R1BQKBNR | rnbq1bnr/p1p1k2p/1p6/5pp1/7P/4PP2/PPPP2P1/R1BQKBNR b KQ - 0 1 | 4 => no
rnbqkbn1/3pppp1/2p4r/p2N3p/pP2PP1P/8/1BPP2P1/2RQKBNR | rnbqkbnr/pppppppp/8/8/7P/8/PPPPPPP1/RNBQKBNR b KQkq h3 0 1 | 16 => no
rnbqkbn1/3pppp1/2p4r/p2N3p/pP2PP1P/8/1BPP2P1/2RQKBNR | rnbqkbnr/pppppppp/8/8/8/8/PPPPPPPP/RNBQKBNR w KQkq - 0 1 | 14 => yes
rnbqkbn1/3pppp1/2p4r/p2N3p/pP2PP1P/8/1BPP2P1/2RQKBNR | rnbqkb1r/1p1pppp1/2p2n2/p6p/1P3P1P/2N5/P1PPP1P1/R1BQKBNR w KQkq h6 0 1 | 9 => no
rnb2bnr/pppqpppp/2kp4/8/1PP5/N2PPP2/P3B1PP/R1BQK1NR | rn1q1bnr/ppp1pppp/2kp4/8/1PP5/N2P3b/P3PPPP/R1BQKBNR w KQ - 0 1 | 5 => no
rnb2bnr/pppqpppp/2kp4/8/1PP5/N2PPP2/P3B1PP/R1BQK1NR | rnb2b1r/pppqpppp/2kp3n/8/1PP5/N2PP3/P3NPPP/R1BQKB1R b KQ - 0 1 | 1 => yes
rnb2bnr/pppqpppp/2kp4/8/1PP5/N2PPP2/P3B1PP/R1BQK1NR | rnbq1bnr/pppkpppp/3p4/8/2P5/N7/PP1PPPPP/R1BQKBNR w KQ - 0 1 | 8 => yes
rn1qkb1r/pb1ppp1p/2p4p/1p6/8/NP1P1P1P/P1P1P1P1/1R1QKBNR | rnbqkbnr/pp1ppppp/2p5/8/8/1P1P4/P1P1PPPP/RNBQKBNR b KQkq - 0 1 | 10 => no
rn1qkb1r/pb1ppp1p/2p4p/1p6/8/NP1P1P1P/P1P1P1P1/1R1QKBNR | rnbqkbnr/pp1ppppp/2p5/8/8/1P1P4/P1P1PPPP/RNBQKBNR b KQkq - 0 1 | 10 => no
rn1qkb1r/pb1ppp1p/2p4p/1p6/8/NP1P1P1P/P1P1P1P1/1R1QKBNR | rnbqkb1r/p2ppppp/2p4n/1p6/8/NP1P4/P1P1PPPP/R1BQKBNR w KQkq b6 0 1 | 6 => yes
r3kbnr/pp2pp1p/2p5/3p4/1P1P4/N2q2Pb/P2BPP2/R3KBNR | r3kbnr/pp2pp1p/2p5/3p4/1P1P4/N2q2Pb/P2BPP2/R3KBNR b KQkq b3 0 1 | 1 => no
r3kbnr/pp2pp1p/2p5/3p4/1P1P4/N2q2Pb/P2BPP2/R3KBNR | r3kbnr/pp2pp1p/2p5/B2p4/3P4/N5Pb/PPQ1PP2/R3KBNR b KQkq - 0 1 | 4 => yes
r3kbnr/pp2pp1p/2p5/3p4/1P1P4/N2q2Pb/P2BPP2/R3KBNR | r1bqkbnr/pp2pp1p/2p5/3p2B1/1n1P4/N5PP/PPPQPP2/R3KBNR b KQkq - 0 1 | 10 => no
rnbqkbnr/p2pp2p/5p2/1Bp3p1/4P1P1/8/PPPP1P1P/RNBQK1NR | rnbqkbnr/p2pp2p/5p2/1Bp3p1/4P1P1/8/PPPP1P1P/RNBQK1NR w KQkq - 0 1 | 1 => no
rnbqkbnr/p2pp2p/5p2/1Bp3p1/4P1P1/8/PPPP1P1P/RNBQK1NR | rnb1kbnr/p2ppppp/8/qpp5/4P1P1/8/PPPP1P1P/RNBQKBNR w KQkq - 0 1 | 2 => yes
rnbqkbnr/p2pp2p/5p2/1Bp3p1/4P1P1/8/PPPP1P1P/RNBQK1NR | rnbqkbnr/ppp1pppp/8/3p4/8/6P1/PPPPPP1P/RNBQKBNR w KQkq d6 0 1 | 4 => yes
1nbqk1nr/rppppp2/8/6N1/p3P3/7P/PPPb2P1/RNBK1B1R | rnbqkbnr/pppppp1p/6p1/8/4P3/3B4/PPPP1PPP/RNBQK1NR b KQkq - 0 1 | 16 => no
1nbqk1nr/rppppp2/8/6N1/p3P3/7P/PPPb2P1/RNBK1B1R | rnbqkbnr/1ppppp1p/6p1/p6Q/4P3/8/PPPP1PPP/RNB1KBNR w KQkq a6 0 1 | 15 => no
1nbqk1nr/rppppp2/8/6N1/p3P3/7P/PPPb2P1/RNBK1B1R | rnbqkbnr/1ppppp1p/6p1/p6Q/4P3/8/PPPP1PPP/RNB1KBNR w KQkq a6 0 1 | 15 => no
rnbqkbnr/p2pppp1/2p5/1p5p/P7/1PN5/2PPPPPP/R1BQKBNR | rnbqkbnr/p1ppppp1/5N2/1p5p/P7/8/1PPPPPPP/R1BQKBNR b KQkq - 0 1 | 2 => yes
rnbqkbnr/p2pppp1/2p5/1p5p/P7/1PN5/2PPPPPP/R1BQKBNR | rnbqkbnr/p2pppp1/2p5/1p5p/P2P4/2N5/1PP1PPPP/R1BQKBNR b KQkq d3 0 1 | 1 => yes
rnbqkbnr/p2pppp1/2p5/1p5p/P7/1PN5/2PPPPPP/R1BQKBNR | rnbqkbnr/p1pppppp/1p6/8/P7/7P/1PPPPPP1/RNBQKBNR b KQkq - 0 1 | 5 => yes
rn1qkbnr/2p1ppp1/p2p3B/1p6/6P1/3P1b1N/PPP1PPBP/RN1QK2R | rn1qkbnr/2p1ppp1/p2p3B/1p6/4b1P1/3P3N/PPP1PPBP/RN1QK2R b KQkq - 0 1 | 1 => no
rn1qkbnr/2p1ppp1/p2p3B/1p6/6P1/3P1b1N/PPP1PPBP/RN1QK2R | rn1qkbnr/1bppppp1/p6p/1p6/8/3P2P1/PPP1PPBP/RNBQK1NR b KQkq - 0 1 | 7 => no
rn1qkbnr/2p1ppp1/p2p3B/1p6/6P1/3P1b1N/PPP1PPBP/RN1QK2R | rnbqkbnr/pppp1ppp/8/4p3/8/6P1/PPPPPP1P/RNBQKBNR w KQkq e6 0 1 | 13 => yes
rnb1k1nr/p1pp2bp/4N3/1p2p3/6P1/P1P1P3/1P1P1P1P/RNBQKB1R | rn1qk1nr/pbpppNbp/8/1p6/6P1/P1P5/1P1PPP1P/RNBQKB1R b KQkq - 0 1 | 7 => no
rnb1k1nr/p1pp2bp/4N3/1p2p3/6P1/P1P1P3/1P1P1P1P/RNBQKB1R | rnbqkbnr/pppppppp/8/8/6P1/8/PPPPPP1P/RNBQKBNR b KQkq g3 0 1 | 14 => yes
rnb1k1nr/p1pp2bp/4N3/1p2p3/6P1/P1P1P3/1P1P1P1P/RNBQKB1R | rnbqkbnr/p1pppp1p/8/1p4p1/6P1/4P2N/PPPP1P1P/RNBQKB1R b KQkq - 0 1 | 13 => no
rnbqkbnr/pp1pppp1/2p5/7p/3P4/3Q4/PPP1PPPP/RNB1KBNR | rnbqkbnr/pp1pppp1/2p5/5Q1p/3P4/8/PPP1PPPP/RNB1KBNR b KQkq - 0 1 | 1 => yes
rnbqkbnr/pp1pppp1/2p5/7p/3P4/3Q4/PPP1PPPP/RNB1KBNR | rnbqkbnr/pp1ppppp/2p5/8/3P4/3Q4/PPP1PPPP/RNB1KBNR b KQkq - 0 1 | 1 => no
rnbqkbnr/pp1pppp1/2p5/7p/3P4/3Q4/PPP1PPPP/RNB1KBNR | rnbqkbnr/pp1pppp1/2p5/7p/3P4/3Q4/PPP1PPPP/RNB1KBNR w KQkq h6 0 1 | 1 => no
r3k1nr/pbpp1p1p/1pn1p2P/8/8/PP1P2P1/2PBP3/RN1QKBNq | rnb1kbnr/p1pp1p1p/1p2p3/6P1/8/P2P2P1/1PP1P3/RNBQKBNq w Qkq - 0 1 | 3 => yes
r3k1nr/pbpp1p1p/1pn1p2P/8/8/PP1P2P1/2PBP3/RN1QKBNq | r1b1k1nr/p1pp1p1p/1pn1p2P/8/8/PP1P2P1/2PBP3/RN1QKBNq b Qkq - 0 1 | 1 => no
r3k1nr/pbpp1p1p/1pn1p2P/8/8/PP1P2P1/2PBP3/RN1QKBNq | rnbqkbnr/p1pppp1p/1p6/6p1/8/P4PP1/1PPPP2P/RNBQKBNR b KQkq - 0 1 | 13 => no
rnbqkbnr/pppp1pp1/8/4p2p/2P1P3/5P2/PP1P2PP/RNBQKBNR | rnbqkbnr/pppp1ppp/8/4p3/8/5P2/PPPPP1PP/RNBQKBNR w KQkq e6 0 1 | 1 => yes
rnbqkbnr/pppp1pp1/8/4p2p/2P1P3/5P2/PP1P2PP/RNBQKBNR | rnbqkbnr/pppp1ppp/8/4p3/4P3/5P2/PPPP2PP/RNBQKBNR b KQkq e3 0 1 | 1 => yes
rnbqkbnr/pppp1pp1/8/4p2p/2P1P3/5P2/PP1P2PP/RNBQKBNR | rnbqkbnr/pppp1pp1/8/4p2p/4P3/5P2/PPPP1KPP/RNBQ1BNR b kq - 0 1 | 1 => yes
rnbqkb1r/ppppn1pp/8/4pp2/1P6/P7/R1PPPPPP/1NBQKBNR | rnbqkbnr/ppppp1pp/8/5p2/1P6/P7/2PPPPPP/RNBQKBNR b KQkq - 0 1 | 3 => no
rnbqkb1r/ppppn1pp/8/4pp2/1P6/P7/R1PPPPPP/1NBQKBNR | rnbqkbnr/pppppppp/8/8/8/8/PPPPPPPP/RNBQKBNR w KQkq - 0 1 | 3 => yes
rnbqkb1r/ppppn1pp/8/4pp2/1P6/P7/R1PPPPPP/1NBQKBNR | rnbqkb1r/ppppn1pp/8/4pp2/1P6/P7/R1PPPPPP/1NBQKBNR w Kkq - 0 1 | 1 => no
rnbqkbn1/p1p1ppp1/p2p4/8/6p1/4P2P/PPPP1P1P/RNB2K1R | rnbqkbnr/pppppppp/8/8/8/4P3/PPPP1PPP/RNBQKBNR b KQkq - 0 1 | 10 => no
rnbqkbn1/p1p1ppp1/p2p4/8/6p1/4P2P/PPPP1P1P/RNB2K1R | rnbqkbnr/pppppppp/8/8/8/8/PPPPPPPP/RNBQKBNR w KQkq - 0 1 | 11 => no
rnbqkbn1/p1p1ppp1/p2p4/8/6p1/4P2P/PPPP1P1P/RNB2K1R | rnbqkbnr/ppp1ppp1/3p4/7p/6Q1/4P3/PPPP1PPP/RNB1KBNR w KQkq - 0 1 | 7 => no
r3k1nr/2qp1ppp/4p3/p1b5/Q7/P1PP1P2/4PP1P/1Rn1KB1R | r2qkbnr/p1pppppp/8/1pn5/8/PPN2b2/2PPPPPP/1RBQKB1R w Kkq - 0 1 | 14 => no
r3k1nr/2qp1ppp/4p3/p1b5/Q7/P1PP1P2/4PP1P/1Rn1KB1R | rnbqkbnr/pppppppp/8/8/8/P7/1PPPPPPP/RNBQKBNR b KQkq - 0 1 | 21 => no
r3k1nr/2qp1ppp/4p3/p1b5/Q7/P1PP1P2/4PP1P/1Rn1KB1R | r2qkbnr/2pppppp/8/pN6/8/P1P2P2/3PPP1P/1RnQKB1R b Kkq - 0 1 | 3 => yes
rnb1k1n1/p1p5/4p1N1/1p5r/8/P1PP4/1P1KPqPP/RN3BR1 | rnb1k1n1/p1p5/4pqp1/1p6/5N2/2PP3r/PP2PPPP/RN2KBR1 w Q - 0 1 | 5 => no
rnb1k1n1/p1p5/4p1N1/1p5r/8/P1PP4/1P1KPqPP/RN3BR1 | rnbqkbnr/ppppp2p/5pp1/8/8/3P4/PPPQPPPP/RNB1KBNR w KQkq - 0 1 | 22 => no
rnb1k1n1/p1p5/4p1N1/1p5r/8/P1PP4/1P1KPqPP/RN3BR1 | rnbqk1nr/p1pp3Q/4ppp1/1p4B1/8/3P3N/PPP1PPPP/RN2KBR1 w Qkq - 0 1 | 13 => no
r3kbnr/p1p1pp1p/2n5/1P4p1/3p4/P3P1P1/1P1PNP1P/RNBQK1RB | rn1qkbnr/p1p1pppp/1p6/3p4/2P5/P3P1Pb/1P1P1P1P/RNBQKBNR b KQkq - 0 1 | 16 => no
r3kbnr/p1p1pp1p/2n5/1P4p1/3p4/P3P1P1/1P1PNP1P/RNBQK1RB | rn2kbnr/p1p1pppp/1p6/3q4/2Pp4/P3P1P1/1P1PNPBP/RNBQK2R b KQkq - 0 1 | 8 => no
r3kbnr/p1p1pp1p/2n5/1P4p1/3p4/P3P1P1/1P1PNP1P/RNBQK1RB | rn1qkbnr/p1p1pppp/1p6/3p4/2P5/P5Pb/1P1PPP1P/RNBQKBNR w KQkq - 0 1 | 16 => no
r2qkb2/p2npp2/b1p2npB/3p4/p2P4/2P4N/PP1KP2P/RN3B1R | rnbqkbnr/p2ppp2/2p3p1/1p5p/3P4/4BP2/PPP1P1PP/RN1QKBNR w KQkq - 0 1 | 13 => yes
r2qkb2/p2npp2/b1p2npB/3p4/p2P4/2P4N/PP1KP2P/RN3B1R | rnbqkbnr/p2ppp2/2p3p1/1p5p/3P4/4BP2/PPP1P1PP/RN1QKBNR w KQkq - 0 1 | 15 => no
r2qkb2/p2npp2/b1p2npB/3p4/p2P4/2P4N/PP1KP2P/RN3B1R | rnbqkbnr/p2ppp2/2p3p1/1p6/3P4/2P1Bp2/PP2P2P/RN1QKBNR w KQkq - 0 1 | 10 => yes
r1bqkb1r/pppppppp/n6n/8/1P4P1/8/P1PPPP1P/RNBQKBNR | rnbqkbnr/pppppppp/8/8/6P1/8/PPPPPP1P/RNBQKBNR b KQkq g3 0 1 | 1 => yes
r1bqkb1r/pppppppp/n6n/8/1P4P1/8/P1PPPP1P/RNBQKBNR | r1bqkbnr/pppppppp/n7/8/6P1/8/PPPPPP1P/RNBQKBNR w KQkq - 0 1 | 3 => no
r1bqkb1r/pppppppp/n6n/8/1P4P1/8/P1PPPP1P/RNBQKBNR | r1bqkbnr/pppppppp/n7/8/6P1/4P3/PPPP1P1P/RNBQKBNR b KQkq - 0 1 | 2 => yes
rn2kbnr/1p1b2q1/p3p3/P1pp3p/2P2pP1/3RP3/1P1P3P/1NBQKB1R | rnbqkbnr/pppppppp/8/8/P7/8/1PPPPPPP/RNBQKBNR b KQkq a3 0 1 | 21 => no
rn2kbnr/1p1b2q1/p3p3/P1pp3p/2P2pP1/3RP3/1P1P3P/1NBQKB1R | rnb1kbnr/pp4q1/4p3/2ppp2p/P1P3P1/R3PP2/1P1P3P/1NBQKB1R w Kkq - 0 1 | 6 => no
rn2kbnr/1p1b2q1/p3p3/P1pp3p/2P2pP1/3RP3/1P1P3P/1NBQKB1R | rnb1kbnr/pppp1pq1/7p/4p1N1/P1P3P1/5P2/1P1PP2P/RNBQKB1R b KQkq - 0 1 | 13 => no
rnb1kbnr/1p2pp2/p1pp4/P5pp/2P1PNq1/1P5B/3P1P1P/RNBQK2R | rnbqkbnr/pppppppp/8/8/8/6P1/PPPPPP1P/RNBQKBNR b KQkq - 0 1 | 18 => no
rnb1kbnr/1p2pp2/p1pp4/P5pp/2P1PNq1/1P5B/3P1P1P/RNBQK2R | rnbqkbnr/pppppppp/8/8/P7/1P4P1/2PPPP1P/RNBQKBNR b KQkq - 0 1 | 14 => no
rnb1kbnr/1p2pp2/p1pp4/P5pp/2P1PNq1/1P5B/3P1P1P/RNBQK2R | rnb1kbnr/1p2pp2/p1pp4/P5pp/2P1P1q1/1P5B/3PNP1P/RNBQK2R w KQkq - 0 1 | 1 => no
rnbqkbnr/pp1p1ppp/2p1p3/8/8/3P3P/PPP1PPPR/RNBQKBN1 | rnbqkbnr/pp1p1ppp/2p1p3/8/8/3P3P/PPP1PPPR/RNBQKBN1 b Qkq - 0 1 | 1 => no
rnbqkbnr/pp1p1ppp/2p1p3/8/8/3P3P/PPP1PPPR/RNBQKBN1 | rnbqkbnr/pp1ppppp/2p5/8/8/3P3P/PPP1PPP1/RNBQKBNR b KQkq - 0 1 | 1 => yes
rnbqkbnr/pp1p1ppp/2p1p3/8/8/3P3P/PPP1PPPR/RNBQKBN1 | rnbqkbnr/pppppppp/8/8/8/8/PPPPPPPP/RNBQKBNR w KQkq - 0 1 | 3 => yes
1nbqkb1r/r1ppp3/5p2/pp3p1p/1P6/N4K2/P1PPP1BP/R1BQ2NR | rnbqkb1r/p1pppp1p/6pn/1p6/1P3PP1/8/P1PPPK1P/RNBQ1BNR b kq b3 0 1 | 15 => no
1nbqkb1r/r1ppp3/5p2/pp3p1p/1P6/N4K2/P1PPP1BP/R1BQ2NR | rnbqkb1r/p1ppp2p/6p1/1p2np2/1P3P1K/8/P1PPP2P/RNBQ1BNR w kq f6 0 1 | 10 => yes
1nbqkb1r/r1ppp3/5p2/pp3p1p/1P6/N4K2/P1PPP1BP/R1BQ2NR | rnbqkb1r/pppppppp/7n/8/5P2/3P4/PPP1P1PP/RNBQKBNR b KQkq - 0 1 | 19 => yes
r1bqkbnr/1ppppppp/p7/4n3/1P6/N4N2/P1PPPPPP/R1BQKB1R | r1bqkbnr/1ppppppp/p7/4n3/1P6/N4N2/P1PPPPPP/R1BQKB1R w KQkq - 0 1 | 1 => no
r1bqkbnr/1ppppppp/p7/4n3/1P6/N4N2/P1PPPPPP/R1BQKB1R | r1bqkbnr/pppppppp/2n5/8/8/8/PPPPPPPP/RNBQKBNR b KQkq - 0 1 | 3 => yes
r1bqkbnr/1ppppppp/p7/4n3/1P6/N4N2/P1PPPPPP/R1BQKB1R | r1bqkbnr/p1pppppp/1pn5/8/8/N4N2/PPPPPPPP/R1BQKB1R w KQkq - 0 1 | 2 => yes
r1bqkr2/p1ppppbp/n5pB/4P3/3P2Q1/p5PP/1PP2PB1/RN3KNR | rnbqkb1r/p1pppppp/8/1p6/4P3/P5PP/1PPP1P1n/RNBQKBNR w KQkq - 0 1 | 14 => no
r1bqkr2/p1ppppbp/n5pB/4P3/3P2Q1/p5PP/1PP2PB1/RN3KNR | r1bqk2r/p1ppppbp/n5pB/4P3/3P4/p5PP/1PP2PB1/RN1Q1KNR w kq - 0 1 | 2 => no
r1bqkr2/p1ppppbp/n5pB/4P3/3P2Q1/p5PP/1PP2PB1/RN3KNR | rnbqkb1r/p1pppppp/5n2/1p6/8/P5PP/1PPPPP2/RNBQKBNR b KQkq - 0 1 | 17 => no
rn1qkbnr/p1p1pp2/b7/1N1p2pp/8/1P1P4/P1P1PPPP/R1BQKBNR | rn1qkbnr/p1pppppp/b7/1p6/8/N7/PPPPPPPP/1RBQKBNR w Kkq - 0 1 | 7 => no
rn1qkbnr/p1p1pp2/b7/1N1p2pp/8/1P1P4/P1P1PPPP/R1BQKBNR | rn1qkbnr/p1pppp1p/b7/1N4p1/8/8/PPPPPPPP/1RBQKBNR w Kkq g6 0 1 | 5 => no
rn1qkbnr/p1p1pp2/b7/1N1p2pp/8/1P1P4/P1P1PPPP/R1BQKBNR | rnbqkbnr/pppppppp/8/8/8/N7/PPPPPPPP/R1BQKBNR b KQkq - 0 1 | 10 => no
r2q1br1/p1pk1p1p/1pnpp2n/6N1/P4P2/RP6/2PPK1PP/1NBQ1BR1 | rn1q1br1/p1pk1ppp/1p1pp2n/8/P4P2/RP5N/2PPK1PP/1NBQ1BR1 b - - 0 1 | 3 => no
r2q1br1/p1pk1p1p/1pnpp2n/6N1/P4P2/RP6/2PPK1PP/1NBQ1BR1 | rnbqkbr1/p1pppppp/1p5n/8/P4P2/1P6/2PPP1PP/RNBQKBNR b KQq - 0 1 | 13 => no
r2q1br1/p1pk1p1p/1pnpp2n/6N1/P4P2/RP6/2PPK1PP/1NBQ1BR1 | rnbqkbr1/p1pppppp/1p5n/8/P4P2/1P6/2PPP1PP/RNBQKBNR b KQq - 0 1 | 13 => no
rnbqkbnr/p1p2p1p/4p1p1/1p1p4/1P4P1/4P3/P1PPNP1P/RNBQKBR1 | rnbqkbnr/p1p1pp1p/6p1/1p1p4/1P4P1/4P3/P1PPNP1P/RNBQKB1R b KQkq b3 0 1 | 1 => yes
rnbqkbnr/p1p2p1p/4p1p1/1p1p4/1P4P1/4P3/P1PPNP1P/RNBQKBR1 | rnbqkbnr/pppppppp/8/8/8/8/PPPPPPPP/RNBQKBNR w KQkq - 0 1 | 9 => no
rnbqkbnr/p1p2p1p/4p1p1/1p1p4/1P4P1/4P3/P1PPNP1P/RNBQKBR1 | rnbqkbnr/p1p1pp1p/6p1/1p1p4/6P1/4P3/PPPPNP1P/RNBQKB1R w KQkq d6 0 1 | 3 => no
rn1q1b1r/p1pk1b2/5n2/1pp1ppNp/8/2Q1P1P1/PP1P1P1P/RNBK1B1R | rn1qkb1r/p1p1p3/3pbn2/1p3pNp/2P5/4P1P1/PPQPKP1P/RNB2BR1 b kq - 0 1 | 8 => no
rn1q1b1r/p1pk1b2/5n2/1pp1ppNp/8/2Q1P1P1/PP1P1P1P/RNBK1B1R | rn1qkbnr/p1p1p3/3pb3/1p3pNp/2P5/4P1P1/PPQP1P1P/RNB1KBR1 b Qkq - 0 1 | 10 => no
rn1q1b1r/p1pk1b2/5n2/1pp1ppNp/8/2Q1P1P1/PP1P1P1P/RNBK1B1R | rn1q1b1r/p1pk1b2/5n2/Qpp1ppNp/8/4P1P1/PP1P1P1P/RNBK1BR1 b - - 0 1 | 1 => yes
rn1qkbnB/pp2pp2/3p4/2p4p/1PbP3P/2N5/P1PKPPP1/R2Q1BNR | r1bqkbnr/pp2ppB1/n1pp4/7p/1P5P/8/P1PPPPP1/RN1QKBNR w KQkq - 0 1 | 8 => no
rn1qkbnB/pp2pp2/3p4/2p4p/1PbP3P/2N5/P1PKPPP1/R2Q1BNR | rnbqkbnB/pp2pp2/2pp4/7p/1P1P3P/8/P1P1PPP1/RN1QKBNR b KQq d3 0 1 | 5 => no
rn1qkbnB/pp2pp2/3p4/2p4p/1PbP3P/2N5/P1PKPPP1/R2Q1BNR | rnbqkbnB/pp2pp2/2pp4/7p/PP5P/8/2PPPPP1/RN1QKBNR b KQq a3 0 1 | 5 => yes
rnbqkb1r/pp1pppp1/2p2n2/5P1p/4P2P/P1P4R/1P1K2P1/RNBQ1BN1 | rnb1kb1r/pp1pppp1/1qp2n1p/5P2/4P2P/P1P5/1P2N1P1/RNBQKB1R b KQkq - 0 1 | 3 => yes
rnbqkb1r/pp1pppp1/2p2n2/5P1p/4P2P/P1P4R/1P1K2P1/RNBQ1BN1 | rnb1kb1r/pp1ppppp/2p2n2/q7/3PP3/2P5/PP3PPP/RNBQKBNR w KQkq - 0 1 | 12 => no
rnbqkb1r/pp1pppp1/2p2n2/5P1p/4P2P/P1P4R/1P1K2P1/RNBQ1BN1 | rnb1kb1r/pp1ppppp/2p2n2/8/q2PP2P/2P5/PP3PP1/RNBQKBNR w KQkq - 0 1 | 9 => no
rn1qkb1r/ppp1pppp/3pb2n/7P/8/4P3/PPPP1PP1/RNBQKBNR | rn1qkb1r/ppp1pppp/3pb2n/7P/8/4P3/PPPP1PP1/RNBQKBNR w KQkq - 0 1 | 1 => no
rn1qkb1r/ppp1pppp/3pb2n/7P/8/4P3/PPPP1PP1/RNBQKBNR | rnbqkbnr/pppppp1p/8/6p1/7P/8/PPPPPPP1/RNBQKBNR w KQkq g6 0 1 | 4 => yes
rn1qkb1r/ppp1pppp/3pb2n/7P/8/4P3/PPPP1PP1/RNBQKBNR | rnbqkb1r/pppppppp/7n/7P/8/8/PPPPPPP1/RNBQKBNR b KQkq - 0 1 | 3 => no
rnb1kbnr/pp1q2pp/4p3/3p1p2/2p5/4PPPP/PPPPB3/RNBQ1KNR | rnbqkbnr/pp4pp/4p3/3p1p2/2p5/4PPPP/PPPPB3/RNBQ1KNR b kq - 0 1 | 1 => no
rnb1kbnr/pp1q2pp/4p3/3p1p2/2p5/4PPPP/PPPPB3/RNBQ1KNR | rnbqkbnr/pp3p1p/4p3/3p2p1/2p5/4P1PP/PPPPBP2/RNBQ1KNR w kq g6 0 1 | 2 => yes
rnb1kbnr/pp1q2pp/4p3/3p1p2/2p5/4PPPP/PPPPB3/RNBQ1KNR | rnbqkbnr/pp3ppp/4p3/3p4/2p5/4P1P1/PPPPBP1P/RNBQ1KNR w kq - 0 1 | 4 => no
rn1q2n1/1ppk1p2/p2p2p1/1N6/8/7r/PPP1PPP1/1RbQKB1R | rn1qk1nr/1ppb1pbN/p2p2p1/4p3/3P4/N7/PPP1PPPP/1RBQKB1R w Kkq - 0 1 | 10 => no
rn1q2n1/1ppk1p2/p2p2p1/1N6/8/7r/PPP1PPP1/1RbQKB1R | rn1q2n1/1ppk1p1r/p2p2p1/1N6/8/7P/PPP1PPP1/1RbQKB1R b K - 0 1 | 1 => no
rn1q2n1/1ppk1p2/p2p2p1/1N6/8/7r/PPP1PPP1/1RbQKB1R | rn1qkbnr/1ppb1p1N/p2p2p1/4p3/3P4/N7/PPP1PPPP/1RBQKB1R b Kkq - 0 1 | 11 => no
rnb1k2r/pp1p1ppn/7p/1N2p3/1bp3R1/7N/P1PPPP2/R1BQKB2 | rnbqkbnr/pppppppp/8/8/8/P7/1PPPPPPP/RNBQKBNR b KQkq - 0 1 | 17 => yes
rnb1k2r/pp1p1ppn/7p/1N2p3/1bp3R1/7N/P1PPPP2/R1BQKB2 | rnbqkb1r/pp1p1pp1/5n1p/2p1p3/6PP/2N5/PPPPPP1R/R1BQKBN1 w Qkq e6 0 1 | 10 => no
rnb1k2r/pp1p1ppn/7p/1N2p3/1bp3R1/7N/P1PPPP2/R1BQKB2 | rnbqkb1r/p2pppp1/1p3n1p/2p5/6PP/2N5/PPPPPP1R/R1BQKBN1 w Qkq - 0 1 | 10 => yes
rnbqk2r/1ppp2p1/7p/p1nP1p2/4pPP1/b6N/PP2P2P/R1BQ1BKR | rnbqk2r/1ppp1pp1/7p/p1n5/3PpPP1/b6N/PP2PK1P/R1BQ1B1R w kq - 0 1 | 2 => yes
rnbqk2r/1ppp2p1/7p/p1nP1p2/4pPP1/b6N/PP2P2P/R1BQ1BKR | rnbqkbnr/pppp1ppp/8/4p3/8/6PN/PPPPPP1P/RNBQKB1R b KQkq - 0 1 | 17 => yes
rnbqk2r/1ppp2p1/7p/p1nP1p2/4pPP1/b6N/PP2P2P/R1BQ1BKR | rnbqkn1r/1ppp1pp1/7p/p1P5/5PP1/b2p3N/PP2P2P/R1BQKB1R w KQkq - 0 1 | 5 => yes
rnb1kbnr/ppp1pppp/8/3pq3/1P5P/P7/1BPPP1P1/RN1QKBNR | rnbqkbnr/1pp1pppp/8/p2p4/1P3P2/8/P1PPP1PP/RNBQKBNR w KQkq a6 0 1 | 3 => yes
rnb1kbnr/ppp1pppp/8/3pq3/1P5P/P7/1BPPP1P1/RN1QKBNR | rnbqkbnr/pppppppp/8/8/8/8/PPPPPPPP/RNBQKBNR w KQkq - 0 1 | 6 => yes
rnb1kbnr/ppp1pppp/8/3pq3/1P5P/P7/1BPPP1P1/RN1QKBNR | rnbqkbnr/ppp1pppp/8/3p4/1P6/8/P1PPPPPP/RNBQKBNR w KQkq d6 0 1 | 7 => no
r1bqkbn1/p2pp1p1/np6/2p2PBr/3P4/2PB3p/PP3P1P/RN2K2R | r1bqkbnr/ppppp1p1/n7/5P2/3P2p1/2P4N/PP3P1P/RNBQKB1R b KQkq d3 0 1 | 7 => no
r1bqkbn1/p2pp1p1/np6/2p2PBr/3P4/2PB3p/PP3P1P/RN2K2R | r1bqkbn1/p1ppp1p1/np6/5PB1/3P3r/2PB3p/PP3P1P/RN2K2R w KQq - 0 1 | 1 => yes
r1bqkbn1/p2pp1p1/np6/2p2PBr/3P4/2PB3p/PP3P1P/RN2K2R | rnbqkbnr/ppppp1pp/8/5p2/4P1P1/8/PPPP1P1P/RNBQKBNR b KQkq e3 0 1 | 15 => no
r1bqkbnr/1pp1p2p/5p2/p2pn1p1/7P/PPN5/R1PPPPP1/2BQKBNR | rnbqkbnr/pp1pp2p/2p2p2/6p1/8/1PN4P/P1PPPPP1/R1BQKBNR w KQkq - 0 1 | 3 => yes
r1bqkbnr/1pp1p2p/5p2/p2pn1p1/7P/PPN5/R1PPPPP1/2BQKBNR | rnbqkbnr/pppppppp/8/8/8/1P6/P1PPPPPP/RNBQKBNR b KQkq - 0 1 | 11 => no
r1bqkbnr/1pp1p2p/5p2/p2pn1p1/7P/PPN5/R1PPPPP1/2BQKBNR | rnbqkbnr/ppppp2p/5p2/6p1/8/1P5P/PBPPPPP1/RN1QKBNR b KQkq - 0 1 | 6 => yes
rn1q1knr/p1p1p2p/3p1p1b/1p4N1/2P5/N2P3P/PP1KPP2/R1BQ1B1R | rn1qkbnr/ppp1p2p/3p1p2/6N1/2P5/3P3b/PP2PPP1/RNBQKB1R w KQkq - 0 1 | 4 => yes
rn1q1knr/p1p1p2p/3p1p1b/1p4N1/2P5/N2P3P/PP1KPP2/R1BQ1B1R | rn1qkbnr/p3p2p/2pp1p2/1p4N1/2P5/3P3P/PP1KPP2/RNBQ1B1R w kq - 0 1 | 2 => yes
rn1q1knr/p1p1p2p/3p1p1b/1p4N1/2P5/N2P3P/PP1KPP2/R1BQ1B1R | rn1qkbnr/p1p1p2p/3p1p2/1p4N1/2P5/3P3P/PP1KPP2/RNBQ1B1R b kq - 0 1 | 3 => no
rn2kb1r/pp2pppp/2pqb2n/3p2P1/8/BPP5/P2PPP1P/RN1QKBNR | rn2kb1r/pp2pppp/2pqb2n/3p2P1/P7/1PP5/1B1PPP1P/RN1QKBNR b KQkq a3 0 1 | 1 => yes
rn2kb1r/pp2pppp/2pqb2n/3p2P1/8/BPP5/P2PPP1P/RN1QKBNR | rnbqkbnr/pppppppp/8/8/8/8/PPPPPPPP/RNBQKBNR w KQkq - 0 1 | 11 => no
rn2kb1r/pp2pppp/2pqb2n/3p2P1/8/BPP5/P2PPP1P/RN1QKBNR | rn1qkbnr/ppp1pppp/4b3/3p4/6P1/1P6/P1PPPP1P/RNBQKBNR w KQkq - 0 1 | 7 => no
rnb2bnr/pp1p2k1/2p1p1p1/1P5p/P6P/R7/1P1PPPP1/1NBQKB1R | rnb1kbnr/pp1p1pp1/2p1p3/q6p/2P3N1/7P/PP1PPPP1/RNBQKB1R b KQkq - 0 1 | 9 => yes
rnb2bnr/pp1p2k1/2p1p1p1/1P5p/P6P/R7/1P1PPPP1/1NBQKB1R | rnb2bnr/pp1p2k1/2p1p1p1/1P5p/P3P2P/R7/1P1P1PP1/1NBQKB1R b K e3 0 1 | 1 => yes
rnb2bnr/pp1p2k1/2p1p1p1/1P5p/P6P/R7/1P1PPPP1/1NBQKB1R | rnbqkbnr/pp1ppppp/2p5/8/6P1/7P/PPPPPP2/RNBQKBNR b KQkq g3 0 1 | 15 => yes
rnb1kbr1/1pppqppp/p7/2N5/6n1/P6P/1PPPPPB1/RNBQK2R | rnbqkbnr/pppp1ppp/4p3/8/6P1/7P/PPPPPP2/RNBQKBNR b KQkq - 0 1 | 16 => no
rnb1kbr1/1pppqppp/p7/2N5/6n1/P6P/1PPPPPB1/RNBQK2R | rnbqkbnr/p1pp1ppp/1p2p3/8/6P1/7P/PPPPPP2/RNBQKBNR w KQkq - 0 1 | 15 => yes
rnb1kbr1/1pppqppp/p7/2N5/6n1/P6P/1PPPPPB1/RNBQK2R | rnbqkb1r/pppp1ppp/4p2n/8/6P1/P4N1P/1PPPPP2/RNBQKB1R b KQkq - 0 1 | 7 => yes
rnb1kb1r/p3pppp/1qp4n/1p1p4/3P2P1/P3P3/1PP2P1P/RNBQKBNR | rnbqkbnr/pppppppp/8/8/8/8/PPPPPPPP/RNBQKBNR w KQkq - 0 1 | 11 => no
rnb1kb1r/p3pppp/1qp4n/1p1p4/3P2P1/P3P3/1PP2P1P/RNBQKBNR | rnbqkb1r/pp2pppp/2p4n/3p4/3P4/P3P3/1PP2PPP/RNBQKBNR w KQkq - 0 1 | 2 => yes
rnb1kb1r/p3pppp/1qp4n/1p1p4/3P2P1/P3P3/1PP2P1P/RNBQKBNR | rnbqkbnr/pp2pppp/2p5/3p4/3P4/P3P3/1PP2PPP/RNBQKBNR b KQkq d3 0 1 | 6 => no
1nbqkbnr/1pppp1pp/8/1p3P2/4P3/3P1P2/1rP4P/RNBQK1NR | 1nbqkbnr/rppppppp/p7/8/4P3/5P2/PPPP2PP/RNBQKBNR w KQk - 0 1 | 8 => no
1nbqkbnr/1pppp1pp/8/1p3P2/4P3/3P1P2/1rP4P/RNBQK1NR | rnbqkbnr/pppppppp/8/8/8/8/PPPPPPPP/RNBQKBNR w KQkq - 0 1 | 12 => no
1nbqkbnr/1pppp1pp/8/1p3P2/4P3/3P1P2/1rP4P/RNBQK1NR | rnbqkbnr/1ppppppp/p7/8/4P3/8/PPPP1PPP/RNBQKBNR w KQkq - 0 1 | 10 => no
r3kbnr/pQq3p1/2p2p2/2npp2p/2PP2bP/N5BR/PP2PPP1/3RKBN1 | rn2kbnr/ppq1p1p1/2p2p2/3p3p/1Q1P1BbP/N1P4R/PP2PPP1/R3KBN1 b Q - 0 1 | 6 => yes
r3kbnr/pQq3p1/2p2p2/2npp2p/2PP2bP/N5BR/PP2PPP1/3RKBN1 | rnb2bnr/ppqppkpp/2p2p2/8/1Q1P3P/N1P4R/PP2PPP1/R1B1KBN1 b Q - 0 1 | 12 => yes
r3kbnr/pQq3p1/2p2p2/2npp2p/2PP2bP/N5BR/PP2PPP1/3RKBN1 | rnbqkbnr/pp1pp1pp/2p2p2/8/3P3P/2P4R/PP2PPP1/RNBQKBN1 w Qkq - 0 1 | 17 => no
rnbqk1nr/1ppp1p1p/p3p1p1/8/1b2P1P1/2P4N/PP1PQP1P/RNBK1B1R | rnbqkbnr/1ppp1ppp/p3p3/8/4P1P1/7N/PPPP1P1P/RNBQKB1R b KQkq e3 0 1 | 6 => no
rnbqk1nr/1ppp1p1p/p3p1p1/8/1b2P1P1/2P4N/PP1PQP1P/RNBK1B1R | rnbqkbnr/pppp1ppp/4p3/8/8/8/PPPPPPPP/RNBQKBNR b KQkq - 0 1 | 8 => yes
rnbqk1nr/1ppp1p1p/p3p1p1/8/1b2P1P1/2P4N/PP1PQP1P/RNBK1B1R | rnbqkbnr/pppp1ppp/4p3/8/6P1/7N/PPPPPP1P/RNBQKB1R b KQkq g3 0 1 | 8 => no";

#[test]
fn positions(rt: HostRuntime) {
    check_bound(&rt, &Journeys, POSITIONS);
}

// By what is known of one of the diagrams, and what was shown on the way to it: the others are asked as without it.
#[test]
fn by_memory(rt: HostRuntime) {
    let known = diagram(
        &rt,
        "rn1q1knr/p1p1p2p/3p1p1b/1p4N1/2P5/N2P3P/PP1KPP2/R1BQ1B1R",
    );
    let bound = JourneysByMemory::new(rt.alloc(), &known).expect(&rt, "memory");
    check_bound(&rt, &bound, POSITIONS);
    check_bound(&rt, &bound, POSITIONS);
    assert!(rt; bound.code() == 5);
}

// The still squares and where captures of White and of Black may land, as numbers, by the model.
const FACTS: &str = "rnb1kbnr/ppp4p/3p2p1/4Pq2/8/N7/PPPPP1BP/R1BQK1NR | \
    rnbqkbnr/pppppppp/8/8/8/8/PPPPPPPP/RNBQKBNR w KQkq - 0 1 | 12 => 17836224849224179677 206158430208 137438953472
rn1qkb1r/pb1ppp1p/2p4p/1p6/8/NP1P1P1P/P1P1P1P1/1R1QKBNR | \
    rnbqkbnr/pp1ppppp/2p5/8/8/1P1P4/P1P1PPPP/RNBQKBNR b KQkq - 0 1 | 10 => 13526847353831183864 140737488355328 140737488355328
1nbqk1nr/rppppp2/8/6N1/p3P3/7P/PPPb2P1/RNBK1B1R | \
    rnbqkbnr/1ppppp1p/6p1/p6Q/4P3/8/PPPP1PPP/RNB1KBNR w KQkq a6 0 1 | 15 => 305681824707790592 36240869366956032 18141062249001756884
rnbqkbnr/pp1pppp1/2p5/7p/3P4/3Q4/PPP1PPPP/RNB1KBNR | \
    rnbqkbnr/pp1ppppp/2p5/8/3P4/3Q4/PPP1PPPP/RNB1KBNR b KQkq - 0 1 | 1 => 18409312299988350967 0 0
rnbqkbn1/p1p1ppp1/p2p4/8/6p1/4P2P/PPPP1P1P/RNB2K1R | \
    rnbqkbnr/pppppppp/8/8/8/4P3/PPPP1PPP/RNBQKBNR b KQkq - 0 1 | 10 => 9184247015093088135 549764202496 1650349572096
rnb1k1n1/p1p5/4p1N1/1p5r/8/P1PP4/1P1KPqPP/RN3BR1 | \
    rnbqkbnr/ppppp2p/5pp1/8/8/3P4/PPPQPPPP/RNB1KBNR w KQkq - 0 1 | 22 => 1407374884131360 18445336698825420255 18445336698825420255
r1bqkb1r/pppppppp/n6n/8/1P4P1/8/P1PPPP1P/RNBQKBNR | \
    r1bqkbnr/pppppppp/n7/8/6P1/8/PPPPPP1P/RNBQKBNR w KQkq - 0 1 | 3 => 13690662492815015423 0 0
rnb1kbnr/1p2pp2/p1pp4/P5pp/2P1PNq1/1P5B/3P1P1P/RNBQK2R | \
    rnb1kbnr/1p2pp2/p1pp4/P5pp/2P1P1q1/1P5B/3PNP1P/RNBQK2R w KQkq - 0 1 | 1 => 17812314600201431199 0 0
r1bqkr2/p1ppppbp/n5pB/4P3/3P2Q1/p5PP/1PP2PB1/RN3KNR | \
    rnbqkb1r/p1pppppp/5n2/1p6/8/P5PP/1PPPPP2/RNBQKBNR b KQkq - 0 1 | 17 => 53198770610906819 141632757848096 50397184
r2q1br1/p1pk1p1p/1pnpp2n/6N1/P4P2/RP6/2PPK1PP/1NBQ1BR1 | \
    rnbqkbr1/p1pppppp/1p5n/8/P4P2/1P6/2PPP1PP/RNBQKBNR b KQq - 0 1 | 13 => 7612633682205133870 274888921088 2625536
rn1qkbnB/pp2pp2/3p4/2p4p/1PbP3P/2N5/P1PKPPP1/R2Q1BNR | \
    rnbqkbnB/pp2pp2/2pp4/7p/1P1P3P/8/P1P1PPP1/RN1QKBNR b KQq d3 0 1 | 5 => 18100820675496277481 0 0
rnb1kbnr/pp1q2pp/4p3/3p1p2/2p5/4PPPP/PPPPB3/RNBQ1KNR | \
    rnbqkbnr/pp3ppp/4p3/3p4/2p5/4P1P1/PPPPBP1P/RNBQ1KNR w kq - 0 1 | 4 => 17853130974444920815 0 0";

// The number that a text spells.
fn number(text: &str) -> u64 {
    text.parse::<u64>().unwrap_or(0)
}

// Whether a row wants these facts.
fn are_wanted(facts: &Facts, wanted: &str) -> bool {
    let Some((still, landing)) = wanted.split_once(' ') else {
        return false;
    };
    let Some((white, black)) = landing.split_once(' ') else {
        return false;
    };
    facts.still.bits() == number(still)
        && facts.white.bits() == number(white)
        && facts.black.bits() == number(black)
}

#[test]
fn facts_of_positions(rt: HostRuntime) {
    for line in FACTS.lines() {
        let row = row_of(&rt, line);
        let plies = row.asked.parse::<u8>().unwrap_or(0);
        let found = facts_for(
            &diagram(&rt, row.diagram),
            &position(&rt, row.position),
            plies,
        );
        let is_right = match found {
            None => false,
            Some(facts) => are_wanted(&facts, row.wanted),
        };
        check_line(&rt, line, is_right);
    }
}

// Where the bound excludes there are no facts.
#[test]
fn no_facts_where_it_excludes(rt: HostRuntime) {
    for line in CASES.lines() {
        let row = row_of(&rt, line);
        let plies = row.asked.parse::<u8>().unwrap_or(0);
        let found = facts_for(
            &diagram(&rt, row.diagram),
            &position(&rt, row.position),
            plies,
        );
        check_line(&rt, line, found.is_none() == (row.wanted == "yes"));
    }
}

// The first colour that has no way alive, what it needs at least in moves and in quiet moves, and the square, by its
// number, of a man of the diagram whom nobody comes to be; a dash for no number. Or none, where the bound does not
// exclude by plans.
const NEEDS: &str = "4k3/8/8/8/8/8/8/5RK1 | 4k3/8/8/8/8/8/8/4K2R w - - 0 1 | 1 => White 3 3 -
4k3/8/8/8/8/8/8/5RK1 | 4k3/8/8/8/3n4/8/8/n3K2R w K - 0 1 | 3 => White 1 0 -
8/7k/8/8/8/8/8/KQ6 | 8/P6k/8/8/8/8/8/K7 w - - 0 1 | 3 => White 3 3 -
k7/8/8/8/8/8/8/K7 | 8/P7/1k6/8/8/8/8/K7 w - - 0 1 | 2 => Black 2 0 -
rnbqkbnr/pppppppp/8/8/8/4B3/PPPPPPPP/RN1QKBNR | rnbqkbnr/pppppppp/8/8/8/8/PPPPPPPP/RNBQKBNR w KQkq - 0 1 | 20 => White - - 20
rnb1kbnr/pppppppp/8/8/8/8/PPPPPPPP/RNBQKBNR | rnbqkbnr/pppppppp/8/8/8/8/PPPPPPPP/RNBQKBNR w KQkq - 0 1 | 13 => Black - - -
rnb1kbnr/pppppppp/8/8/8/8/PPPPPPPP/RNBQKBNR | rnbqkbnr/pppppppp/8/8/8/8/PPPPPPPP/RNBQKBNR w KQkq - 0 1 | 15 => none
r1bqkbnr/ppp2ppp/3p4/8/8/8/PPPPPPPP/R1BQKBNR | rnbqkbnr/pppppppp/8/8/8/8/PPPPPPPP/RNBQKBNR w KQkq - 0 1 | 6 => White 3 2 -
rnbqkbnr/pppppppp/8/8/8/8/PPPPPPPP/RNBQKBNR | rnbqkbnr/pppppppp/8/8/4P3/8/PPPP1PPP/RNBQKBNR b KQkq e3 0 1 | 255 => none";

// Whether a number is the one of a text.
fn is_number(found: Option<u8>, wanted: &str) -> bool {
    match found {
        Some(found) => wanted != "-" && u64::from(found) == number(wanted),
        None => wanted == "-",
    }
}

// The word of a text with this number from 0.
fn word<'a>(text: &'a str, number: usize) -> &'a str {
    text.split(' ').nth(number).unwrap_or("")
}

// Whether a colour without a way alive needs what a text says.
fn needs_are_wanted(
    rt: &impl Abort,
    diagram: &Diagram,
    position: &Position,
    dead: &DeadColor,
    wanted: &str,
) -> bool {
    let least = least_counts(diagram, position, &dead.facts, dead.color).expect(rt, wanted);
    let square = match unreached(diagram, position, &dead.facts, dead.color) {
        Some(square) => Some(square.index()),
        None => None,
    };
    dead.color == color(rt, word(wanted, 0))
        && is_number(least.moves, word(wanted, 1))
        && is_number(least.quiet_moves, word(wanted, 2))
        && is_number(square, word(wanted, 3))
}

#[test]
fn needs_of_dead_colors(rt: HostRuntime) {
    for line in NEEDS.lines() {
        let row = row_of(&rt, line);
        let plies = row.asked.parse::<u8>().unwrap_or(0);
        let goal = diagram(&rt, row.diagram);
        let start = position(&rt, row.position);
        let is_right = match dead_color(&goal, &start, plies) {
            Some(dead) => needs_are_wanted(&rt, &goal, &start, &dead, row.wanted),
            None => row.wanted == "none",
        };
        check_line(&rt, line, is_right);
    }
}
