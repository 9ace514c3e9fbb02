//! What the cheapest plans of both colours are charged.
ghost use Rattle.pg_journeys.specs.Rounds.{HasFew};
ghost use Rattle.pg_tolls.specs.Stated.{stated};
ghost use Rattle.pg_tolls.specs.inner.Excluding.{IsCheapest};
ghost use Rattle.pg_tolls.specs.inner.Remembering.{MayBeTight};

use crate::excluding::surplus;
use crate::half::Half;
use crate::memory::{Memory, value_by};
use crate::tariff::Tariff;
use pg_fen::Diagram;
use pg_position::Position;
use std::cell::RefCell;

/// What the cheapest plan of each colour is charged, in the tariff's sixteenths of a ply, or a number that is no
/// higher; none for a colour that has no plan.
#[derive(Clone, Copy, Debug, PartialEq, Eq)]
pub struct Leasts {
    pub white: Option<i64>,
    pub black: Option<i64>,
}

// What the men of a colour cost at least, by its memory.
pub(crate) fn cheapest(
    memory: &RefCell<Memory>,
    tariff: &Tariff,
    diagram: &Diagram,
    half: &Half,
    position: &Position,
) -> Option<i64>
    requires tight { ∥ MayBeTight (stated tariff.now) diagram.now half.now ∥₁ }
    requires few { HasFew position.now }
    ensures { IsCheapest half.now diagram.now position.now result }
{
    match value_by(memory, tariff, diagram, half, position) {
        None => None,
        Some(cost) => Some(i64::from(cost) - i64::from(surplus(half, diagram, position))),
    }
}
