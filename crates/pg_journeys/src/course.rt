//! The way from a position to a diagram, where plans are asked for.
ghost use Rattle.pg_journeys.specs.Rounds.{HasFew};
ghost use Rattle.pg_journeys.specs.inner.Walking.{HasFewer};

use pg_fen::Diagram;
use pg_position::Position;

// The way from a position to a diagram in `left` plies. No colour has more than sixteen men, or fewer than in the
// diagram.
#[derive(Clone, Copy)]
pub(crate) struct Course<'a> {
    pub(crate) diagram: &'a Diagram,
    pub(crate) position: &'a Position,
    pub(crate) left: u8,
    pub(crate) ghost few: { HasFew position.now },
    pub(crate) ghost enough: { ¬ HasFewer diagram.now position.now },
}
