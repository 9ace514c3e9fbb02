//! What a drawn search is asked and answers.

use pg_san::Games;
use pg_searcher::Game;
use thiserror::Error;

/// How far a drawn search goes.
#[derive(Clone, Copy, Debug, PartialEq, Eq)]
pub struct DrawnLimits {
    /// What numbers are drawn by: with one seed all runs are the same.
    pub seed: u64,
    /// The most starts that are made.
    pub starts: u32,
    /// The most nodes that are visited in each start.
    pub max_nodes: u64,
}

/// What a drawn search came to. Nothing that it says is proved: a game is to be tested.
#[derive(Drop)]
pub struct Drawn {
    /// The games of the stated length that were met, two at most, each of which ends on the diagram.
    pub games: Games,
    /// A game of fewer plies that ends on the diagram, if one was met.
    pub shorter: Option<Game>,
    /// How many nodes were visited in all starts.
    pub nodes: u64,
    /// Why no more were.
    pub end: DrawnEnd,
}

/// How a drawn search came to its end.
#[derive(Clone, Copy, Debug, PartialEq, Eq)]
pub enum DrawnEnd {
    /// The problem is not sound: two games were met, or a shorter one.
    Met,
    /// All games of the stated length were gone through in one start. Of shorter ones that says nothing.
    All,
    /// Each start came to its end of nodes.
    Nodes,
    /// Who watches the search ended it.
    Stopped,
}

/// Why a drawn search ends without an answer.
#[derive(Clone, Copy, Debug, PartialEq, Eq, Error)]
pub enum DrawnFault {
    /// Memory was refused.
    #[error("out of memory")]
    Memory,
}
