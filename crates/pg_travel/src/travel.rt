//! The bound by travel.
ghost use Rattle.std.specs.Prelude.{◌≡◌, ℕ, ◌↔◌, IsTrue};
ghost use Rattle.pg_travel.specs.Needs.{TravelHolds};

use crate::needs::excludes_for;
use pg_captures::Bound;
use pg_fen::Diagram;
use pg_position::Position;

// Whether the test of either colour holds. Where one does, it is mostly that of the colour that has
// just moved, since its move was of no use: so that one is tried first.
pub(crate) fn travel_holds(diagram: &Diagram, position: &Position, left: u8) -> bool
    ensures { IsTrue result ↔ TravelHolds diagram.now position.now left }
{
    let side = position.side();
    excludes_for(side.other(), diagram, position, left)
        || excludes_for(side, diagram, position, left)
}

/// The bound by travel, code 4. Each man of the diagram comes from one of the position by steps of
/// its own colour: it excludes where a colour has no need, or a need above its plies left.
#[derive(Drop)]
pub struct Travel;

impl Travel {
    /// The code by which a certificate names this bound, and prices of travel.
    pub const CODE: u8 = 4;
}

impl Bound for Travel {
    ghost use Rattle.pg_board.specs.lemmas.Decisions.{answer_tells};
    ghost use Rattle.pg_travel.specs.Decided.{dec_travel, travel_test};
    ghost use Rattle.pg_travel.specs.lemmas.NeedLemmas.{travel_barren};

    ghost code_of = { λ b. 4 };

    ghost excluded = { λ b d p k. travel_test d p k };

    ghost sound = { λ b d p k valid h. travel_barren d p k valid ((answer_tells (dec_travel d p k)).0 h) };

    fn code(&self) -> u8
        ensures { result ≡ 4 }
    {
        Travel::CODE
    }

    fn excludes(&self, diagram: &Diagram, position: &Position, left: u8) -> bool
        ensures fixed { result ≡ travel_test diagram.now position.now left }
        ensures exact { IsTrue result ↔ TravelHolds diagram.now position.now left }
    {
        travel_holds(diagram, position, left)
    }
}
