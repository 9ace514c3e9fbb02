//! The searches that follow one another, and their limits.

use super::*;
use arrayvec::ArrayString;
use std::fmt::Write;

// Writes down each search that begins, and ends it at the first node that it tells of; so the next one follows.
#[derive(Drop)]
struct Hasty {
    said: ArrayString<256>,
    is_told: bool,
}

impl JudgeProgress for Hasty {
    fn begins(&mut self, effort: Effort, limit: u64) {
        let _ = write!(self.said, "{effort:?} {limit}, ");
    }
}

impl SearchProgress for Hasty {
    fn reached(&mut self, _plies: u8, _left: u64) {
        self.is_told = true;
    }

    fn goes_on(&mut self) -> bool {
        let is_told = self.is_told;
        self.is_told = false;
        !is_told
    }
}

const SCHWEIG: &str =
    "schweig r1bqkbnr/ppp2ppp/3p4/8/8/8/PPPPPPPP/R1BQKBNR 4.0 1. Nc3 d6 2. Nd5 Nd7 3. Nxe7 Ndf6 4. Nxg8 Nxg8";

const BARE: &str = "schweig r1bqkbnr/ppp2ppp/3p4/8/8/8/PPPPPPPP/R1BQKBNR 4.0";

// Which searches are made within limits, where each is ended at once.
fn check_searches<R: Abort + AllocGlobal>(rt: &R, line: &str, max_nodes: u64, wanted: &str) {
    let mut watch = Hasty {
        said: ArrayString::new(),
        is_told: false,
    };
    let mut scratch = Cursor::new(Vec::new(rt.alloc()));
    ruled(rt, line, nodes(max_nodes), &mut scratch, &mut watch);
    assert_eq!(rt; watch.said.as_str(), wanted);
}

#[test]
fn limits_grow(rt: HostRuntime) {
    check_searches(&rt, SCHWEIG, 500, "Cooks 500, Search 500, Journeys 500, ");
    check_searches(
        &rt,
        SCHWEIG,
        25_000_000,
        "Cooks 1000000, Search 1000000, Journeys 20000, ",
    );
}

// Without a game of the author's one is looked for by drawn orders, where more nodes are allowed than by journeys.
#[test]
fn the_first_limits_alone(rt: HostRuntime) {
    check_searches(&rt, BARE, 20_000, "Search 20000, Journeys 20000, ");
    check_searches(
        &rt,
        BARE,
        25_000,
        "Search 25000, Journeys 20000, Drawn 24960, ",
    );
    check_searches(
        &rt,
        BARE,
        10_000_000,
        "Search 1000000, Journeys 20000, Drawn 72000, ",
    );
}
