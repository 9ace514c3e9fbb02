//! What the men of one colour are charged by a tariff, as a search asks it. Nothing is proved of the answers.
ghost use Rattle.std.specs.Prelude.{◌≡◌, ◌≤◌};
ghost use Rattle.pg_journeys.specs.inner.Grounds.{IsGround};

use crate::excluding::surplus;
use crate::half::Half;
use crate::making::{facts_of_walls, untested_half};
use crate::plans::{Plan, cheapest_plan};
use crate::tariff::Tariff;
use crate::values::value;
use crate::walking::March;
use pg_board::Color;
use pg_captures::all_men;
use pg_fen::Diagram;
use pg_journeys::{Ground, ground_of, steps_table};
use pg_position::Position;
use std::alloc::{AllocError, Global};

/// The ground of a colour's steps by the walls of a diagram.
pub fn ground_of_walls(diagram: &Diagram, color: Color) -> Ground
    ensures sound { IsGround result }
    ensures color { result.color ≡ color }
{
    let facts = facts_of_walls(&diagram.board());
    let table = steps_table(facts.still);
    ground_of(&facts, color, &table)
}

/// What the men of one colour are charged by a tariff on the way to a diagram: tables alone, some 12 KB for each number
/// of captures that the colour may owe, from none. Unlike those of [`crate::Tolls`] they aren't tested, and nothing is
/// remembered.
#[derive(Drop)]
pub struct Fares {
    tariff: Tariff,
    diagram: Diagram,
    half: Half,
}

impl Fares {
    /// The tables of a colour, by the ground of its steps: for positions where it owes at most `owed` captures, or 16
    /// where `owed` is more.
    ///
    /// # Errors
    /// Where memory is refused.
    pub fn new(
        alloc: Global,
        diagram: &Diagram,
        tariff: &Tariff,
        ground: &Ground,
        owed: u8,
    ) -> Result<Fares, AllocError>
        requires { IsGround ground.now }
    {
        let most = usize::from(owed.min(16));
        let half = untested_half(alloc, tariff, &diagram.board(), ground, most)?;
        Ok(Fares {
            tariff: *tariff,
            diagram: *diagram,
            half,
        })
    }

    /// What the colour's cheapest plan is charged in a position, in sixteenths of a ply, as [`crate::Tolls::leasts`]
    /// has it; none where there is no plan, or where the colour has more than sixteen men.
    pub fn least(&self, position: &Position) -> Option<i64> {
        if all_men(&position.board(), self.half.color) > 16 {
            return None;
        }
        match value(&self.half, &self.diagram, position) {
            None => None,
            Some(cost) => {
                Some(i64::from(cost) - i64::from(surplus(&self.half, &self.diagram, position)))
            }
        }
    }

    /// The colour's cheapest plan in a position, by the ground that the tables were made by; none where there is no
    /// plan, or where the colour has more than sixteen men.
    pub fn plan(&self, ground: &Ground, position: &Position) -> Option<Plan>
        requires { IsGround ground.now }
    {
        if all_men(&position.board(), self.half.color) > 16 {
            return None;
        }
        let march = March {
            half: &self.half,
            tariff: &self.tariff,
            ground,
        };
        cheapest_plan(&march, &self.diagram, position)
    }
}
