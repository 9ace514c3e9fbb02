//! A side: the men of a colour in a position and in a diagram, and the ground of their steps.
ghost use Rattle.std.specs.Prelude.{◌≤◌};
ghost use Rattle.pg_board.specs.Placement.{Placement};
ghost use Rattle.pg_journeys.specs.inner.SideParts.{AreParts};

use crate::ground::Ground;
use crate::men::Men;
use crate::scene::Scene;

// The men of a colour in a position and in some diagram, and the ground of their steps under facts.
#[derive(Drop)]
pub(crate) struct Side {
    pub(crate) position: Scene,
    pub(crate) terrain: Ground,
    pub(crate) men: Men,
    pub(crate) goals: Men,
    pub(crate) ghost few: { men.count ≤ 16 },
    pub(crate) ghost room: { goals.count ≤ men.count },
    pub(crate) ghost made: { ∥ ((d : Placement) × AreParts d position terrain men goals) ∥₁ },
}
