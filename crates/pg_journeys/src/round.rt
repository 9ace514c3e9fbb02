//! A round of plans.
ghost use Rattle.pg_journeys.specs.inner.Grounds.{HasSteps};

use crate::facts::Facts;
use crate::known_paths::KnownPaths;
use pg_board::SquareSet;

// The facts of a round, the table of steps under them, and paths that are known beforehand under some facts.
#[derive(Clone, Copy)]
pub(crate) struct Round<'a> {
    pub(crate) facts: Facts,
    pub(crate) table: &'a [SquareSet; 384],
    pub(crate) known: &'a [KnownPaths],
    pub(crate) ghost made: { ∥ HasSteps facts.still table.now ∥₁ },
}
