//! What a drawn search holds.

use crate::answer::DrawnLimits;
use crate::child::Child;
use crate::closed::Closed;
use crate::judge::Judge;
use pg_captures::Bound;
use pg_fen::Diagram;
use pg_position::{Move, Position};
use pg_san::Games;
use pg_searcher::Game;
use rand_core::SeedableRng;
use rand_xoshiro::SplitMix64;
use std::alloc::{AllocError, Global};

// What is searched for: games of `plies` plies to a diagram. Of the bounds the first by journeys is asked of nodes.
#[derive(Drop)]
pub(crate) struct Question<'a> {
    pub(crate) diagram: &'a Diagram,
    pub(crate) bounds: &'a [Box<dyn Bound>],
    pub(crate) plies: u8,
}

// An open node: the move that led to it, its key, and where those of its children begin that are still to be gone into.
#[derive(Clone, Copy)]
pub(crate) struct Open {
    pub(crate) m: Option<Move>,
    pub(crate) key: u64,
    pub(crate) first: usize,
}

// Why a start ends before all games are gone through: two games were met, or a shorter one; no more nodes may be
// visited in it; who watches ended the search; or memory was refused.
#[derive(Clone, Copy, Debug, PartialEq, Eq)]
pub(crate) enum Halt {
    Met,
    Nodes,
    Stopped,
    Memory,
}

// Puts a value behind those of a list.
pub(crate) fn push<T: Drop>(list: &mut Vec<T>, value: T) -> Result<(), Halt> {
    match list.push(value) {
        Ok(()) => Ok(()),
        Err(_) => Err(Halt::Memory),
    }
}

// The games that were met, a shorter one, and the keys of the nodes along the first one, the initial array first.
#[derive(Drop)]
pub(crate) struct Findings {
    pub(crate) games: Games,
    pub(crate) shorter: Option<Game>,
    pub(crate) keys: Vec<u64>,
}

// The open nodes, the topmost last; their children, those of the topmost last; and how many nodes may still be visited
// in this start. The rest stays from one start to the next: what judges nodes, those that have closed, since what lies
// below a node does not hang on the order in which nodes are visited, what is drawn, and what was met.
#[derive(Drop)]
pub(crate) struct Machine {
    pub(crate) open: Vec<Open>,
    pub(crate) children: Vec<Child>,
    pub(crate) nodes_left: u64,
    pub(crate) judge: Judge,
    pub(crate) closed: Closed,
    pub(crate) chance: SplitMix64,
    pub(crate) findings: Findings,
}

impl Machine {
    // Nothing is open, known or met.
    pub(crate) fn new(
        alloc: Global,
        diagram: &Diagram,
        limits: &DrawnLimits,
    ) -> Result<Machine, AllocError> {
        Ok(Machine {
            open: Vec::new(alloc),
            children: Vec::new(alloc),
            nodes_left: 0,
            judge: Judge::new(alloc, diagram)?,
            closed: Closed::new(alloc)?,
            chance: SplitMix64::seed_from_u64(limits.seed),
            findings: Findings {
                games: Games::new(alloc),
                shorter: None,
                keys: Vec::new(alloc),
            },
        })
    }

    // The node of a position to which a move led, as `Judge::node` says.
    pub(crate) fn node(
        &mut self,
        question: &Question,
        m: Option<Move>,
        position: &Position,
        left: u8,
    ) -> Result<Option<Child>, Halt> {
        match self.judge.node(question.diagram, m, position, left) {
            Ok(node) => Ok(node),
            Err(_) => Err(Halt::Memory),
        }
    }

    // Nothing is open, and `nodes` nodes may be visited.
    pub(crate) fn restart(&mut self, nodes: u64) {
        self.open.clear();
        self.children.clear();
        self.nodes_left = nodes;
    }

    // Counts a node, and answers whether it may be visited.
    pub(crate) fn visit(&mut self) -> bool {
        if self.nodes_left == 0 {
            return false;
        }
        self.nodes_left -= 1;
        true
    }
}
