//! Where a node stands: at a position, or after a legal move from one.
ghost use Rattle.std.specs.Prelude.{◌≡◌};
ghost use Rattle.pg_checker.specs.Spots.{IsReached, spot_of};

use pg_position::{Move, Position};

/// Where a node stands: after a legal move from a position, or at the position itself, where there is
/// none. So its own position is made only for what needs it.
#[derive(Drop)]
pub struct Spot {
    pub from: Position,
    pub m: Option<Move>,
}

// A node that is entered: where it stands, and the plies left at it.
#[derive(Drop)]
pub(crate) struct Child {
    pub(crate) spot: Spot,
    pub(crate) plies: u8,
}

impl Spot {
    /// The node's position.
    pub fn position(&self) -> Position
        requires { IsReached self.now }
        ensures { result ≡ spot_of self.now }
    {
        match &self.m {
            Some(m) => self.from.after(m),
            None => self.from,
        }
    }
}
