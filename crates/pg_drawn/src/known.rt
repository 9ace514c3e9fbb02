//! What the men of one colour need for a diagram, remembered by men and rights.

use pg_board::Color;
use pg_fen::Diagram;
use pg_position::Position;
use pg_prices::{
    Memory, NEVER, Needs, Rows, UNKNOWN, color_key, first_needs, pawn_key, pawn_lists, travel_value,
};
use std::alloc::{AllocError, Global};

// How many groups of men and rights of a colour are remembered at most: 4 MB.
const MOST_REMEMBERED: usize = 131_072;

// How many groups of pawns of a colour are remembered at most: 1 MB.
const MOST_PAWNS: usize = 32_768;

// What stands beside the number of a group of pawns.
const NO_NEEDS: Needs = Needs {
    need: 0,
    shift: 0,
    travel: 0,
    pawns: 0,
    lists: 0,
};

// One colour's numbers at a node: how many captures it owes, and how many plies it has left.
#[derive(Clone, Copy)]
pub(crate) struct Means {
    pub(crate) owed: i16,
    pub(crate) plies: u8,
}

impl Means {
    // Whether the captures that are owed are fewer than none or more than the plies.
    pub(crate) fn exclude(self) -> bool {
        self.owed < 0 || self.owed > i16::from(self.plies)
    }

    // Whether they do not cover what is needed: promotions, pawn files and travel; and both least assignments, where
    // these are known.
    fn fall_short(self, needs: &Needs) -> bool {
        if needs.need == NEVER || needs.need > self.plies || i16::from(needs.shift) > self.owed {
            return true;
        }
        needs.travel != UNKNOWN && (needs.travel > self.plies || i16::from(needs.pawns) > self.owed)
    }
}

// A colour at a node: the key of its men and rights, and how much travel is left to it.
#[derive(Clone, Copy)]
pub(crate) struct Travelling {
    pub(crate) key: u64,
    pub(crate) travel: u8,
}

// The distances of a colour's men to the squares of the diagram, what is known by men and rights and by pawns, and how
// many men the colour has in the diagram.
#[derive(Drop)]
pub(crate) struct Known {
    rows: Rows,
    memory: Memory,
    pawns: Memory,
    pub(crate) goal_men: u8,
}

impl Known {
    // Nothing but the diagram is known.
    pub(crate) fn new(alloc: Global, color: Color, diagram: &Diagram) -> Result<Known, AllocError> {
        Ok(Known {
            rows: Rows::new(alloc, color, diagram)?,
            memory: Memory::new(alloc, MOST_REMEMBERED),
            pawns: Memory::new(alloc, MOST_PAWNS),
            goal_men: diagram.board().squares_of_color(color).len(),
        })
    }

    // The colour at a position; none where its means do not cover what it needs.
    pub(crate) fn travelling(
        &mut self,
        diagram: &Diagram,
        position: &Position,
        means: Means,
    ) -> Result<Option<Travelling>, AllocError> {
        let color = self.rows.color();
        let key = color_key(&position.board(), position.rights(), color);
        let mut needs = self.needs(diagram, position, key.max(1))?;
        if means.fall_short(&needs) {
            return Ok(None);
        }
        if needs.travel == UNKNOWN {
            needs.pawns = self.changes_of_file(position)?;
            needs.travel = travel_value(&self.rows, position);
            self.memory.set(key.max(1), needs)?;
        }
        if means.fall_short(&needs) {
            return Ok(None);
        }
        let travel = needs.travel;
        Ok(Some(Travelling { key, travel }))
    }

    // What is known of men and rights by their key, at least what takes no assignment.
    fn needs(
        &mut self,
        diagram: &Diagram,
        position: &Position,
        key: u64,
    ) -> Result<Needs, AllocError> {
        if let Some(needs) = self.memory.get(key) {
            return Ok(needs);
        }
        let needs = first_needs(&self.rows, diagram, position);
        self.memory.set(key, needs)?;
        Ok(needs)
    }

    // The least assignment of the colour's pawns, which are remembered by themselves.
    fn changes_of_file(&mut self, position: &Position) -> Result<u8, AllocError> {
        let key = pawn_key(&position.board(), self.rows.color()).max(1);
        if let Some(needs) = self.pawns.get(key) {
            return Ok(needs.pawns);
        }
        let (pawns, _) = pawn_lists(&self.rows, position);
        let mut needs = NO_NEEDS;
        needs.pawns = pawns;
        self.pawns.set(key, needs)?;
        Ok(pawns)
    }
}
