//! What a led search holds.

use crate::budget::Budget;
use crate::judge::{Asked, Judge};
use crate::led::answer::Game;
use crate::led::barren::Barren;
use crate::led::familiar::Familiar;
use crate::led::trials::Trials;
use crate::sides::Sides;
use arrayvec::ArrayVec;
use pg_fen::Diagram;
use pg_moves::LegalMoves;
use pg_position::{Move, Position};
use pg_san::Games;

// What is searched for: games to a diagram that are not in a list. A move that is not familiar is foreign. Journeys may
// be asked of nodes too.
#[derive(Drop)]
pub(crate) struct LedQuestion<'a> {
    pub(crate) diagram: &'a Diagram,
    pub(crate) games: &'a Games,
    pub(crate) familiar: &'a Familiar,
    pub(crate) journeys: Option<Asked<'a>>,
}

impl LedQuestion<'_> {
    // The move that leads at a ply, counted from 0: that of the first listed game.
    pub(crate) fn lead(&self, ply: usize) -> Option<Move> {
        match self.games.game(0) {
            Some(game) => game.get(ply).copied(),
            None => None,
        }
    }
}

// Which moves of a node come next: the one that leads, those that are familiar, of few men or of more, or the foreign
// ones.
#[derive(Clone, Copy, Debug, PartialEq, Eq)]
pub(crate) enum Phase {
    Lead,
    Few,
    Familiar,
    Foreign,
}

// An open node with at least two plies left: its position with the moves that are still to be played, the familiar ones
// that are still to be tried, which of them come next, the one that led, the move that is being gone into, what is
// known of both colours, its key, how many foreign moves may still come; whether a listed game lies below, and whether
// a foreign move was refused there.
#[derive(Drop)]
pub(crate) struct Open {
    pub(crate) moves: LegalMoves,
    pub(crate) trials: Trials,
    pub(crate) phase: Phase,
    pub(crate) lead: Option<Move>,
    pub(crate) played: Option<Move>,
    pub(crate) sides: Sides,
    pub(crate) key: u64,
    pub(crate) foreign: u8,
    pub(crate) fertile: bool,
    pub(crate) refused: bool,
}

impl Open {
    // A node that opens.
    pub(crate) fn new(position: &Position, sides: &Sides, key: u64, foreign: u8) -> Open {
        Open {
            moves: LegalMoves::new(position),
            trials: Trials::none(),
            phase: Phase::Lead,
            lead: None,
            played: None,
            sides: *sides,
            key,
            foreign,
            fertile: false,
            refused: false,
        }
    }
}

impl Default for Open {
    fn default() -> Open {
        Open::new(&Position::array(), &Sides::none(), 0, 0)
    }
}

// Why a led search halts: a game was found, no more nodes may be visited, or memory was refused.
#[derive(Clone, Copy, Debug, PartialEq, Eq)]
pub(crate) enum Halt {
    Found,
    Budget,
    Memory,
}

// What tells whether a node is gone into: what judges nodes, the barren ones, and how many may still be visited.
#[derive(Drop)]
pub(crate) struct Sieve {
    pub(crate) judge: Judge,
    pub(crate) barren: Barren,
    pub(crate) budget: Budget,
}

// The open nodes, the topmost last.
pub(crate) type Frames = ArrayVec<Open, 128>;

// What tells whether nodes are gone into, whether a foreign move was refused in this round, and the game that was
// found. The open nodes stand apart: here they would be moved with it, and each move of so large a list takes room of
// its own on the stack.
#[derive(Drop)]
pub(crate) struct LedMachine {
    pub(crate) sieve: Sieve,
    pub(crate) refused: bool,
    pub(crate) game: Game,
}
