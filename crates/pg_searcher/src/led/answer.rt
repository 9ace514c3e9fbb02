//! What a led search is asked and answers, and who is told how far it is.

use arrayvec::ArrayVec;
use pg_moves::Unwatched;
use pg_position::Move;
use thiserror::Error;

/// The moves of one game from the initial array, at most 128.
pub type Game = ArrayVec<Move, 128>;

/// What a led search came to. Nothing that it says is proved: a game is to be tested.
#[derive(Drop)]
pub enum Led {
    /// A game that ends on the diagram: of the stated length and not in the list, or of fewer plies.
    Found(Game),
    /// No such game was met. Of the games to the diagram, of the stated length or fewer plies, each that has
    /// at most `foreign` foreign moves was met, where that is told; it is not told where the nodes came to
    /// their end before. `nodes` nodes were visited, and `end` says why no more were.
    NotFound {
        foreign: Option<u8>,
        nodes: u64,
        end: LedEnd,
    },
}

/// How a led search that found no game came to its end.
#[derive(Clone, Copy, Debug, PartialEq, Eq)]
pub enum LedEnd {
    /// All games were gone through: none with more foreign moves is left.
    All,
    /// No more foreign moves were allowed.
    Foreign,
    /// The nodes came to their end, or who watches the search ended it.
    Nodes,
}

/// Why a led search ends without an answer.
#[derive(Clone, Copy, Debug, PartialEq, Eq, Error)]
pub enum LedFault {
    /// Memory was refused.
    #[error("out of memory")]
    Memory,
}

/// How far a led search goes.
#[derive(Clone, Copy, Debug, PartialEq, Eq)]
pub struct LedLimits {
    /// The most nodes that are visited.
    pub max_nodes: u64,
    /// The most foreign moves that a game has; any number where this is none.
    pub foreign: Option<u8>,
}

/// Is told how far a led search is, and may end it. Nothing else that it does changes what is found.
pub trait LedProgress {
    /// Games of `plies` plies with at most `foreign` foreign moves are looked for, and `left` more nodes may be
    /// visited.
    fn reached(&mut self, foreign: u8, plies: u8, left: u64);

    /// Whether the search goes on. It is asked each time after `reached`; where it does not the search ends as at the
    /// end of its nodes.
    fn goes_on(&mut self) -> bool {
        true
    }
}

impl LedProgress for Unwatched {
    fn reached(&mut self, _foreign: u8, _plies: u8, _left: u64) {}
}
