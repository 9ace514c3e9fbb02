//! Who is told what a check meets.
ghost use Rattle.pg_checker.specs.Spots.{IsReached};

use crate::spot::Spot;
use pg_certificate::Bare;
use pg_moves::Unwatched;
use pg_position::Position;
use pg_travel::Prices;

/// Is told of what a check meets in a certificate, as it reads it and before it is known whether it says yes. Nothing
/// that it does changes an answer.
pub trait CheckWatch {
    /// The tree of `plies` plies begins.
    fn began(&mut self, plies: u8);

    /// A node with `left` plies left has this record; `prices` holds its price lists, where it has any. It is not
    /// judged yet. The nodes of a tree come depth first, and the children of a node in the order of its moves.
    fn met(&mut self, spot: &Spot, left: u8, said: &Bare, prices: &Prices)
        requires { IsReached spot.now };

    /// A leaf is on the diagram. Of other leaves nothing is told.
    fn ended(&mut self, spot: &Spot)
        requires { IsReached spot.now };

    /// An expanded node at this position, with `left` plies left, closes. Those that are named are numbered from 0 as
    /// they close.
    fn closed(&mut self, position: &Position, left: u8, named: bool);
}

impl CheckWatch for Unwatched {
    #[inline(always)]
    fn began(&mut self, _plies: u8) {}

    #[inline(always)]
    fn met(&mut self, _spot: &Spot, _left: u8, _said: &Bare, _prices: &Prices) {}

    #[inline(always)]
    fn ended(&mut self, _spot: &Spot) {}

    #[inline(always)]
    fn closed(&mut self, _position: &Position, _left: u8, _named: bool) {}
}
