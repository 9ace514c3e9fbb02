//! The bound by journeys.
ghost use Rattle.std.specs.Prelude.{◌≡◌, ◌↔◌, IsTrue};
ghost use Rattle.pg_journeys.specs.Rounds.{JourneysHold};

use crate::rounds::journeys_hold;
use pg_captures::Bound;
use pg_fen::Diagram;
use pg_position::Position;

/// The bound by journeys, code 5. Each man of the position becomes a man of the diagram or is captured, and the
/// plies of his colour pay for all their steps. It excludes where a pawn of the diagram on its home rank does
/// not stand there; where the position has fewer men of a colour than the diagram; and, where no colour has more
/// than sixteen men, where some colour has no plan that its plies pay for. From the plans follows which men
/// cannot move and where captures may land, and with that the plans are looked at again, three times. An answer
/// costs much more than one of the other bounds: ask those first.
#[derive(Drop)]
pub struct Journeys;

impl Journeys {
    /// The code by which a certificate names this bound.
    pub const CODE: u8 = 5;
}

impl Bound for Journeys {
    ghost use Rattle.pg_journeys.specs.lemmas.DecidingRounds.{journeys_test, test_barren};

    ghost code_of = { λ b. 5 };

    ghost excluded = { λ b d p k. journeys_test d p k };

    ghost sound = { λ b d p k valid h. test_barren d p k valid h };

    fn code(&self) -> u8
        ensures { result ≡ 5 }
    {
        Journeys::CODE
    }

    fn excludes(&self, diagram: &Diagram, position: &Position, left: u8) -> bool
        ensures fixed { result ≡ journeys_test diagram.now position.now left }
        ensures exact { IsTrue result ↔ JourneysHold diagram.now position.now left }
    {
        journeys_hold(diagram, position, left)
    }
}
