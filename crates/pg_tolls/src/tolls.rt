//! The bound by tolls.
ghost use Rattle.std.specs.Prelude.{◌≡◌, ◌&&◌, IsTrue, IfOk, IfSome, IfNone};
ghost use Rattle.pg_board.specs.declared.man.Color.TheVariants.{White, Black};
ghost use Rattle.pg_journeys.specs.Needs.{AsksForPlans};
ghost use Rattle.pg_board.specs.Equality.{placement_eq};
ghost use Rattle.pg_tolls.specs.Charges.{IsLow, TollsHold};
ghost use Rattle.pg_tolls.specs.Stated.{stated};
ghost use Rattle.pg_tolls.specs.inner.Remembering.{MayBeTight};
ghost use Rattle.pg_tolls.specs.lemmas.Soundness.{AreSound};
ghost use Rattle.pg_tolls.specs.lemmas.DecidingHalves.{halves_test};

use crate::excluding::is_excluded;
use crate::half::Half;
use crate::leasts::{Leasts, cheapest};
use crate::making::{facts_of_walls, half_of};
use crate::memory::Memory;
use crate::tariff::Tariff;
use pg_board::Color;
use pg_captures::Bound;
use pg_fen::Diagram;
use pg_journeys::{ground_of, has_few, has_fewer, has_walls, steps_table};
use pg_position::Position;
use std::alloc::{AllocError, Global};
use std::cell::RefCell;

/// The bound by tolls, for one diagram and one tariff. Each man of the position becomes a man of the diagram or is
/// captured; each step costs the weight of his colour, a step marked as a capture the toll of its square beside it,
/// and a man captured on a square is spared the other colour's toll there. In a game tolls vanish from the sum of both
/// colours. So the bound excludes where the cheapest plans of both are charged more than the plies left pay for; and
/// where a pawn of the diagram on its home rank does not stand there, or men of a colour are missing. Where a colour
/// has more than sixteen men it looks at that alone, and of another diagram it says nothing.
///
/// Any tariff is sound. What plans are charged at least is looked up in tables, some 12 KB for each colour and each
/// number of captures that it may owe, from none. What a colour's men were charged is remembered, in some 60 KB for
/// each colour, and looked up where they stand so again. A fate counts at most 254 above the cheapest one of its man,
/// where to be captured counts 127 more than it is charged: with weights far above sixteenths of a ply that may be too
/// low.
#[derive(Drop)]
pub struct Tolls {
    pub(crate) tariff: Tariff,
    code: u8,
    pub(crate) diagram: Diagram,
    pub(crate) white: Half,
    pub(crate) black: Half,
    pub(crate) white_memory: RefCell<Memory>,
    pub(crate) black_memory: RefCell<Memory>,
    ghost sound: { ∥ AreSound (stated tariff) diagram white black ∥₁ },
    pub(crate) ghost white_tight: { ∥ MayBeTight (stated tariff) diagram white ∥₁ },
    pub(crate) ghost black_tight: { ∥ MayBeTight (stated tariff) diagram black ∥₁ },
}

impl Tolls {
    /// The least code by which a certificate names a tariff.
    pub const FIRST_CODE: u8 = 6;

    /// The bound by a tariff for the way to a diagram, named by a code: `FIRST_CODE` to 255, where other bounds have
    /// those below. Its tables are made here, of memory that is taken from `alloc`.
    ///
    /// # Errors
    /// Where memory is refused.
    pub fn new(
        alloc: Global,
        diagram: &Diagram,
        tariff: &Tariff,
        code: u8,
    ) -> Result<Tolls, AllocError>
        ensures tariff { IfOk result (λ b. b.tariff ≡ tariff.now) }
        ensures code { IfOk result (λ b. b.code ≡ code) }
        ensures diagram { IfOk result (λ b. b.diagram ≡ diagram.now) }
    {
        let goal = diagram.board();
        let facts = facts_of_walls(&goal);
        let table = steps_table(facts.still);
        let white = half_of(
            alloc,
            tariff,
            &goal,
            &ground_of(&facts, Color::White, &table),
        )?;
        let black = half_of(
            alloc,
            tariff,
            &goal,
            &ground_of(&facts, Color::Black, &table),
        )?;
        let white_memory = RefCell::new(Memory::new(alloc, tariff, diagram, &white)?);
        let black_memory = RefCell::new(Memory::new(alloc, tariff, diagram, &black)?);
        Ok(Tolls {
            tariff: *tariff,
            code,
            diagram: *diagram,
            white,
            black,
            white_memory,
            black_memory,
        })
    }

    /// What the cheapest plan of each colour is charged in a position on the way to the bound's diagram, or numbers
    /// that are no higher; none where no plan is looked at: where a pawn of the diagram on its home rank does not
    /// stand there, men of a colour are missing, or a colour has more than sixteen. The bound excludes where a colour
    /// has no plan, or both together are above what the plies left pay for, at the weight of the colour each.
    pub fn leasts(&self, position: &Position) -> Option<Leasts>
        ensures asks { IfSome result (λ l. AsksForPlans self.now.diagram position.now) }
        ensures none { IfNone result (¬ AsksForPlans self.now.diagram position.now) }
        ensures white { IfSome result (λ l.
            IsLow (stated self.now.tariff) self.now.diagram position.now White l.white) }
        ensures black { IfSome result (λ l.
            IsLow (stated self.now.tariff) self.now.diagram position.now Black l.black) }
    {
        if !has_walls(&self.diagram, position) {
            return None;
        }
        if has_fewer(&self.diagram, position) {
            return None;
        }
        if !has_few(position) {
            return None;
        }
        let (tariff, diagram) = (&self.tariff, &self.diagram);
        Some(Leasts {
            white: cheapest(&self.white_memory, tariff, diagram, &self.white, position),
            black: cheapest(&self.black_memory, tariff, diagram, &self.black, position),
        })
    }

    /// The tariff.
    pub fn tariff(&self) -> &Tariff
        ensures { result.now ≡ self.now.tariff }
    {
        &self.tariff
    }
}

impl Bound for Tolls {
    ghost use Rattle.std.specs.Prelude.{◌&&◌};
    ghost use Rattle.pg_board.specs.Equality.{placement_eq};
    ghost use Rattle.pg_tolls.specs.lemmas.DecidingHalves.{halves_test};
    ghost use Rattle.pg_tolls.specs.lemmas.Soundness.{test_barren};
    ghost use Rattle.pg_tolls.specs.Stated.{stated};

    ghost code_of = { λ b. b.code };

    ghost excluded = { λ b d p k. placement_eq d b.diagram && halves_test b.white b.black b.diagram p k };

    ghost sound = { λ b d p k valid h. test_barren (stated b.tariff) b.diagram d p k b.white b.black b.sound valid h };

    fn code(&self) -> u8
        ensures { result ≡ self.now.code }
    {
        self.code
    }

    fn excludes(&self, diagram: &Diagram, position: &Position, left: u8) -> bool
        ensures fixed { result ≡ (placement_eq diagram.now self.now.diagram
            && halves_test self.now.white self.now.black self.now.diagram position.now left) }
        ensures told { IsTrue result → TollsHold (stated self.now.tariff) diagram.now position.now left }
    {
        *diagram == self.diagram && is_excluded(self, position, left)
    }
}
