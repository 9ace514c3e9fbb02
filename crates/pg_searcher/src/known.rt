//! What is known of one colour for a diagram.

use pg_board::{Board, Color, Kind, Man};
use pg_fen::Diagram;
use pg_position::Position;
use pg_prices::{
    Memory, Needs, Rows, UNKNOWN, first_needs, pawn_key, pawn_lists, prices_of, travel_lists,
    travel_value,
};
use pg_travel::Prices;
use std::alloc::{AllocError, Global};

// How many groups of men and rights of a colour are remembered at most: 16 MB, and as many of price lists.
const MOST_REMEMBERED: usize = 524_288;

// How many groups of pawns of a colour are remembered at most: 4 MB, and as many of price lists.
const MOST_PAWNS: usize = 131_072;

// What stands for needs that are not known.
pub(crate) const MISSING: Needs = Needs {
    need: UNKNOWN,
    shift: 0,
    travel: UNKNOWN,
    pawns: UNKNOWN,
    lists: 0,
};

// The needs after a plain move, of which the need of travel is known, by those before it.
pub(crate) fn after_plain(before: &Needs, need: u8) -> Needs {
    let mut needs = MISSING;
    needs.need = need;
    needs.shift = before.shift;
    needs
}

// The distances of a colour's men to the squares of the diagram, the needs that are known by men and
// rights and by pawns, and how many men and pawns the colour has in the diagram.
#[derive(Drop)]
pub(crate) struct Known {
    pub(crate) rows: Rows,
    memory: Memory,
    pawns: Memory,
    pub(crate) goal_men: u8,
    pub(crate) goal_pawns: u8,
}

// How many pawns of a colour stand on a board.
fn count_pawns(board: &Board, color: Color) -> u8 {
    let pawn = Man::new(color, Kind::Pawn);
    board.squares_of(pawn).len()
}

impl Known {
    // Nothing but the diagram is known.
    pub(crate) fn new(alloc: Global, color: Color, diagram: &Diagram) -> Result<Known, AllocError> {
        let board = diagram.board();
        Ok(Known {
            rows: Rows::new(alloc, color, diagram)?,
            memory: Memory::new(alloc, MOST_REMEMBERED),
            pawns: Memory::new(alloc, MOST_PAWNS),
            goal_men: board.squares_of_color(color).len(),
            goal_pawns: count_pawns(&board, color),
        })
    }

    // What is known under a key of men and rights.
    pub(crate) fn get(&self, key: u64) -> Option<Needs> {
        self.memory.get(key.max(1))
    }

    // The needs of a position by bounds, from the memory where they are known.
    pub(crate) fn needs(
        &mut self,
        diagram: &Diagram,
        position: &Position,
        key: u64,
    ) -> Result<Needs, AllocError> {
        if let Some(needs) = self.get(key) {
            return Ok(needs);
        }
        let needs = first_needs(&self.rows, diagram, position);
        self.memory.set(key.max(1), needs)?;
        Ok(needs)
    }

    // The needs with both least assignments. The prices of travel are kept where they exclude `plies` plies.
    pub(crate) fn complete(
        &mut self,
        position: &Position,
        key: u64,
        needs: Needs,
        plies: u8,
    ) -> Result<Needs, AllocError> {
        if needs.travel != UNKNOWN {
            return Ok(needs);
        }
        let mut needs = needs;
        needs.pawns = self.pawn_needs(position)?.pawns;
        needs.travel = travel_value(&self.rows, position);
        if needs.travel > plies {
            let (_, lists) = travel_lists(&self.rows, position);
            self.memory.keep(key.max(1), needs, lists.as_slice())?;
        } else {
            self.memory.set(key.max(1), needs)?;
        }
        Ok(needs)
    }

    // What is known of the colour's pawns: their least assignment, with its price list.
    fn pawn_needs(&mut self, position: &Position) -> Result<Needs, AllocError> {
        let key = pawn_key(&position.board(), self.rows.color());
        if let Some(needs) = self.pawns.get(key.max(1)) {
            return Ok(needs);
        }
        let (value, lists) = pawn_lists(&self.rows, position);
        let mut needs = MISSING;
        needs.pawns = value;
        self.pawns.keep(key.max(1), needs, lists.as_slice())?;
        Ok(self.pawns.get(key.max(1)).unwrap_or(needs))
    }

    // The price list of the colour's pawns.
    pub(crate) fn pawn_prices(
        &mut self,
        position: &Position,
    ) -> Result<Option<Prices>, AllocError> {
        let needs = self.pawn_needs(position)?;
        match self.pawns.lists(&needs) {
            Some(lists) => Ok(prices_of(lists)),
            None => Ok(None),
        }
    }

    // The price lists of travel that are kept under a key.
    pub(crate) fn kept_prices(&self, key: u64) -> Option<Prices> {
        let Some(needs) = self.get(key) else {
            return None;
        };
        match self.memory.lists(&needs) {
            Some(lists) => prices_of(lists),
            None => None,
        }
    }

    // The price lists of travel, which are kept from now on.
    pub(crate) fn travel_prices(
        &mut self,
        position: &Position,
        key: u64,
        needs: Needs,
    ) -> Result<Option<Prices>, AllocError> {
        if let Some(prices) = self.kept_prices(key) {
            return Ok(Some(prices));
        }
        let (_, lists) = travel_lists(&self.rows, position);
        self.memory.keep(key.max(1), needs, lists.as_slice())?;
        Ok(prices_of(lists.as_slice()))
    }
}
