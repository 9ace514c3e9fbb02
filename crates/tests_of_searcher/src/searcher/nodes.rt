//! How many nodes a search visits, and its limits.

use super::*;
use pg_certificate::{Record, RecordReader};
use std::fmt::Write;

// Problems of three and a half to nine moves: a diagram, a length, how many nodes are allowed; how many games there
// are, and how many nodes a search visits, or that a node less is too few. A node that a cut excludes is cut, and
// one that none does is expanded once, so the number is the same for each right search.
const PROBLEMS: &str = "four-knights-gone | 4.0 | 6118 => 1 6118
four-knights-gone | 4.0 | 6117 => Budget
rnQ1kbnr/pp1ppppp/8/2p5/2P5/2q5/PP1PPPPP/RNB1KBNR | 3.5 | 920 => 1 920
rnQ1kbnr/pp1ppppp/8/2p5/2P5/2q5/PP1PPPPP/RNB1KBNR | 3.5 | 919 => Budget
rnbqkbnr/p1pppppp/8/8/8/3QP3/PPP2PPP/RNB1K1NR | 3.5 | 8313 => 2 8313
rnbqkbnr/p1pppppp/8/8/8/3QP3/PPP2PPP/RNB1K1NR | 3.5 | 8312 => Budget
r1bqnNnr/pppkpp1p/7R/3p4/8/8/PPPPPPP1/RNBQKBN1 | 5.5 | 428 => 1 428
r1bqnNnr/pppkpp1p/7R/3p4/8/8/PPPPPPP1/RNBQKBN1 | 5.5 | 427 => Budget
Rnb1kbnr/p1p1pppp/8/3p4/8/8/1PPPPP2/RNBQ1KNR | 5.5 | 3856 => 1 3856
Rnb1kbnr/p1p1pppp/8/3p4/8/8/1PPPPP2/RNBQ1KNR | 5.5 | 3855 => Budget
1nbqkbnr/p1ppppp1/1N6/8/8/6n1/1PPPPP1P/RNBQKBN1 | 6.0 | 373 => 1 373
1nbqkbnr/p1ppppp1/1N6/8/8/6n1/1PPPPP1P/RNBQKBN1 | 6.0 | 372 => Budget
rnbq1bnr/ppppp1p1/8/8/2k4p/2NPP3/PPP2PPP/RNBQ1RK1 | 6.5 | 4020 => 1 4020
rnbq1bnr/ppppp1p1/8/8/2k4p/2NPP3/PPP2PPP/RNBQ1RK1 | 6.5 | 4019 => Budget
2bqr1k1/2pNppbp/1p5p/7n/1r1P4/8/P1P1PPPP/RNB1KBNR | 9.0 | 9198 => 1 9198
2bqr1k1/2pNppbp/1p5p/7n/1r1P4/8/P1P1PPPP/RNB1KBNR | 9.0 | 9197 => Budget";

#[test]
fn problems_are_settled_with_so_many_nodes(rt: HostRuntime) {
    check_table(&rt, PROBLEMS);
}

// How many records of a certificate are cuts by prices.
fn count_priced(bytes: &[u8]) -> u64 {
    let mut source = FromRead::new(bytes);
    let mut reader = RecordReader::new();
    let mut count = 0u64;
    let _ = reader.header(&mut source);
    for _ in 0..NODES {
        match reader.next_record(&mut source) {
            Ok(Record::Priced { .. }) => count = count.saturating_add(1),
            Ok(_) => {}
            Err(_) => return count,
        }
    }
    count
}

// Problems, and how many cuts by prices their certificates have at least and at most.
const PRICED: &str = "four-knights-gone | 4.0 | 0 | 0
r1bqnNnr/pppkpp1p/7R/3p4/8/8/PPPPPPP1/RNBQKBN1 | 5.5 | 1 | 428
2bqr1k1/2pNppbp/1p5p/7n/1r1P4/8/P1P1PPPP/RNB1KBNR | 9.0 | 1001 | 9198";

// Prices cut where the bounds do not.
#[test]
fn prices_cut(rt: HostRuntime) {
    for row in PRICED.lines() {
        let least = number(&rt, field(row, 2));
        let most = number(&rt, field(row, 3));
        let bytes = certificate(&rt, &goal_of(&rt, field(row, 0), field(row, 1)));
        let count = count_priced(bytes.as_slice());
        assert!(rt; least <= count && count <= most, "{row}");
    }
}

// A search that gives up with some fault, whatever is asked, finds no game here.
#[test]
fn search_gives_up(rt: HostRuntime) {
    check_row(&rt, "after-e4-e5 | 1.0 => 1 22");
}

const LIMITS: &str = "after-e4-e5 | 1.0 | 0 => Budget
after-e4-e5 | 1.0 | 21 => Budget
after-e4-e5 | 1.0 | 22 => 1 22
array | 0 | 0 => 1 0";

#[test]
fn limits(rt: HostRuntime) {
    check_table(&rt, LIMITS);
}

const SHORTER: &str = "array | 2.0 | 0 => Shorter(0)
after-e4 | 2.0 => Shorter(1)";

#[test]
fn a_shorter_game(rt: HostRuntime) {
    check_table(&rt, SHORTER);
}

static FAULTS: [SearchFault; 5] = [
    SearchFault::Budget,
    SearchFault::Shorter(3),
    SearchFault::TooManyGames,
    SearchFault::Write,
    SearchFault::Memory,
];

// Their texts in turn.
const TEXTS: &str = "node limit reached
a game of 3 plies reaches the diagram
more than 4096 games
write fault
out of memory
";

#[test]
fn faults_have_their_texts(rt: HostRuntime) {
    let mut said = Said::new();
    for fault in &FAULTS {
        let _ = writeln!(said, "{fault}");
    }
    assert_eq!(rt; said.as_str(), TEXTS);
}

// What is told of a search: the last tree, and whether the trees came in order and the nodes that are
// left became no more.
#[derive(Drop)]
struct Told {
    tree: u8,
    left: u64,
    in_order: bool,
    times: u32,
}

impl SearchProgress for Told {
    fn reached(&mut self, plies: u8, left: u64) {
        self.in_order = self.in_order && self.tree <= plies && left <= self.left;
        self.tree = plies;
        self.left = left;
        self.times = self.times.saturating_add(1);
    }
}

// The watch is told of the longest tree last, and of all nodes.
#[test]
fn a_search_is_watched(rt: HostRuntime) {
    let goal = goal_of(&rt, "r1bqnNnr/pppkpp1p/7R/3p4/8/8/PPPPPPP1/RNBQKBN1", "5.5");
    let mut told = Told {
        tree: 0,
        left: 428,
        in_order: true,
        times: 0,
    };
    assert_eq!(rt; watched(&rt, &goal, 428, &mut told).as_str(), "1");
    assert!(rt; told.tree == 11 && told.left == 0 && told.in_order && told.times > 1);
}
