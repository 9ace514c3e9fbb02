//! Searches that are refused memory.

use super::*;
use arrayvec::ArrayVec;
use pg_certificate::Refused;

// A sink of 128 bytes that takes no memory. A piece that does not fit is dropped.
#[derive(Drop)]
struct Small {
    bytes: ArrayVec<u8, 128>,
}

impl Sink for Small {
    ghost use Rattle.std.specs.Prelude.{false, None};

    ghost held = { λ s. None };

    ghost has_failed = { λ s. false };

    fn push(&mut self, bytes: &[u8]) -> Result<(), Refused> {
        match self.bytes.try_extend_from_slice(bytes) {
            Ok(()) => Ok(()),
            Err(_) => Ok(()),
        }
    }

    fn failed(&self) -> bool {
        false
    }
}

// What the check of what a search finds says, or the fault of the search. One game is found, in 59 bytes.
fn settled_in(rt: &impl Abort, alloc: Global, goal: &Goal, sink: &mut Small) -> Said {
    match searched(alloc, goal, NODES, sink) {
        Ok(games) => {
            assert!(rt; games.len() == 1 && sink.bytes.len() == 59);
            checked(alloc, goal, &games, sink.bytes.as_slice())
        }
        Err(fault) => words(&format_args!("{fault:?}")),
    }
}

// How many times a search, or the check of what it finds, is refused memory.
fn refusals(rt: &impl Abort, alloc: Global, goal: &Goal) -> u8 {
    let mut sink = Small {
        bytes: ArrayVec::new(),
    };
    let said = settled_in(rt, alloc, goal, &mut sink);
    let is_refused = said.as_str() == "Memory";
    assert!(rt; is_refused || said.as_str() == "22", "{said}");
    u8::from(is_refused)
}

// Passes too where `rt try --test --fail-alloc N` refuses the N-th growth: then one search or one
// check of all answers that memory was refused.
#[test]
fn refused_growths(rt: HostRuntime) {
    let goal = goal_of(&rt, "after-e4-e5", "1.0");
    let mut refused = 0u8;
    for _ in 0..9u8 {
        refused = refused.saturating_add(refusals(&rt, rt.alloc(), &goal));
    }
    assert!(rt; refused <= 1);
}

// The same of a search that finds prices: its certificate does not fit the sink, which keeps none.
#[test]
fn refused_growths_of_prices(rt: HostRuntime) {
    let goal = goal_of(&rt, "r1bqnNnr/pppkpp1p/7R/3p4/8/8/PPPPPPP1/RNBQKBN1", "5.5");
    let mut sink = Small {
        bytes: ArrayVec::new(),
    };
    let said = count_of(&searched(rt.alloc(), &goal, 428, &mut sink));
    assert!(rt; said.as_str() == "1" || said.as_str() == "Memory", "{said}");
}
