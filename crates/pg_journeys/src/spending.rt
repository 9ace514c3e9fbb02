//! What paths of a colour may count.
ghost use Rattle.std.specs.Prelude.{◌≡◌, ◌+◌, ◌<◌, IfSome, IfNone};
ghost use Rattle.pg_captures.specs.Owed.{plies_left, victims};
ghost use Rattle.pg_journeys.specs.Facts.{Facts as GameFacts};
ghost use Rattle.pg_journeys.specs.inner.Showing.{IsDead};

use crate::course::Course;
use crate::plans::budget;
use pg_board::Color;

// What the paths of a colour may count together: in moves, and in quiet moves.
#[derive(Clone, Copy)]
pub(crate) struct Budgets {
    pub(crate) moves: u8,
    pub(crate) quiet: u8,
    pub(crate) ghost low: { moves < 200 },
    pub(crate) ghost few: { quiet < 200 },
}

// What they may count on a course; none where the colour owes more captures than it has plies.
pub(crate) fn budgets_of(course: &Course<'_>, color: Color) -> Option<Budgets>
    ensures moves { IfSome result (λ b.
        b.moves ≡ plies_left course.now.position.now.side color course.now.left) }
    ensures quiet { IfSome result (λ b. b.quiet + victims color course.now.position.now.board
        ≡ plies_left course.now.position.now.side color course.now.left + victims color course.now.diagram.now) }
    ensures none { IfNone result ((f : GameFacts) →
        IsDead f course.now.diagram.now course.now.position.now course.now.left color) }
{
    let Some(moves) = budget(course.diagram, course.position, color, course.left, false) else {
        return None;
    };
    let Some(quiet) = budget(course.diagram, course.position, color, course.left, true) else {
        return None;
    };
    Some(Budgets { moves, quiet })
}
