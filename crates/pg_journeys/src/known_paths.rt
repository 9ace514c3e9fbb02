//! Paths of a colour's men to those of a diagram, made beforehand.
ghost use Rattle.pg_journeys.specs.inner.Knowing.{AreKnown};

use crate::ground::Ground;
use crate::men::Men;
use crate::plans::Aims;

// The ground of a colour's steps under some facts, men of a diagram, and for each of these and for being captured the
// rings of the paths to it: by moves, and by quiet moves.
#[derive(Drop)]
pub(crate) struct KnownPaths {
    pub(crate) terrain: Ground,
    pub(crate) goals: Men,
    pub(crate) moves: Aims,
    pub(crate) quiet: Aims,
    pub(crate) ghost made: { ∥ AreKnown terrain goals moves quiet ∥₁ },
}
