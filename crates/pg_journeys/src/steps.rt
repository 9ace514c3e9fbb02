//! A table of steps.
ghost use Rattle.pg_journeys.specs.inner.Grounds.{HasSteps};

use pg_board::SquareSet;

// The table of steps where these squares are still.
#[derive(Clone, Copy)]
pub(crate) struct Steps {
    pub(crate) still: SquareSet,
    pub(crate) table: [SquareSet; 384],
    pub(crate) ghost made: { ∥ HasSteps still table ∥₁ },
}
