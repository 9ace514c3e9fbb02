//! What is measured of a side.
ghost use Rattle.std.specs.Prelude.{◌≡◌, ◌<◌};
ghost use Rattle.std.specs.Prelude.{None};
ghost use Rattle.pg_journeys.specs.inner.Costing.{AreCostRows};
ghost use Rattle.pg_journeys.specs.inner.Measures.{AreMeasures};
ghost use Rattle.pg_journeys.specs.inner.Sides.{AreAims};

use crate::plans::Aims;
use crate::side::Side;
use pg_assignments::Costs;

// What is measured of a side, in moves or in quiet moves: the paths to its ends, what they may count, and what fates
// cost where none castles.
#[derive(Clone, Copy)]
pub(crate) struct Measured<'a> {
    pub(crate) side: &'a Side,
    pub(crate) is_quiet: bool,
    pub(crate) aims: &'a Aims,
    pub(crate) most: u8,
    pub(crate) costs: Costs,
    pub(crate) ghost low: { most < 200 },
    pub(crate) ghost size: { costs.size ≡ side.now.men.count },
    pub(crate) ghost made: { ∥ AreMeasures side.now is_quiet aims.now most costs.rows ∥₁ },
}

impl<'a> Measured<'a> {
    // The rings of the paths to its ends.
    pub(crate) fn paths(&self) -> &'a Aims
        ensures { AreAims self.now.side.now self.now.is_quiet result.now }
    {
        self.aims
    }

    // What fates cost where none castles.
    pub(crate) fn first_rows(&self) -> &[[u8; 16]; 16]
        ensures { AreCostRows self.now.side.now self.now.is_quiet None self.now.most
            result.now self.now.side.now.men.count }
    {
        &self.costs.rows
    }
}
