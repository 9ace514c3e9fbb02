//! The bound by journeys for one diagram, by what is known of it and what it has shown.
ghost use Rattle.std.specs.Prelude.{◌≡◌, ◌↔◌, IsTrue};
ghost use Rattle.pg_journeys.specs.Rounds.{JourneysHold};

use crate::journeys::Journeys;
use crate::known::FirstAims;
use crate::memory::Memory;
use crate::rounds::{journeys_hold_by, journeys_hold_with};
use pg_captures::Bound;
use pg_fen::Diagram;
use pg_position::Position;
use std::alloc::{AllocError, Global};
use std::cell::RefCell;

/// The bound by journeys, code 5, for many positions and one diagram: it excludes what `Journeys` does, for any
/// diagram, and is sooner for the one that it is made of, of which it remembers what positions have shown.
#[derive(Drop)]
pub struct JourneysByMemory {
    aims: FirstAims,
    memory: RefCell<Memory>,
}

impl JourneysByMemory {
    /// The bound for the way to a diagram. What it takes, some 3 MB and up to 12 MB later, is taken from `alloc`.
    ///
    /// # Errors
    /// Where memory is refused.
    pub fn new(alloc: Global, diagram: &Diagram) -> Result<JourneysByMemory, AllocError> {
        let aims = FirstAims::new(alloc, diagram)?;
        let memory = RefCell::new(Memory::new(alloc, diagram)?);
        Ok(JourneysByMemory { aims, memory })
    }

    // Whether it excludes. The memory is in use by no other call: one that would find it so goes without.
    fn holds(&self, diagram: &Diagram, position: &Position, left: u8) -> bool
        ensures { IsTrue result ↔ JourneysHold diagram.now position.now left }
    {
        match self.memory.try_borrow_mut() {
            Ok(mut memory) => {
                journeys_hold_with(&mut *memory, &self.aims, diagram, position, left)
            }
            Err(_) => journeys_hold_by(&self.aims, diagram, position, left),
        }
    }
}

impl Bound for JourneysByMemory {
    ghost use Rattle.pg_journeys.specs.lemmas.DecidingRounds.{journeys_test, test_barren};

    ghost code_of = { λ b. 5 };

    ghost excluded = { λ b d p k. journeys_test d p k };

    ghost sound = { λ b d p k valid h. test_barren d p k valid h };

    fn code(&self) -> u8
        ensures { result ≡ 5 }
    {
        Journeys::CODE
    }

    fn excludes(&self, diagram: &Diagram, position: &Position, left: u8) -> bool
        ensures fixed { result ≡ journeys_test diagram.now position.now left }
        ensures exact { IsTrue result ↔ JourneysHold diagram.now position.now left }
    {
        self.holds(diagram, position, left)
    }
}
