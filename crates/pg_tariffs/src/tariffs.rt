//! Tariffs with what the men of each colour were charged.

use crate::blocks::{NO_PLAN, UNKNOWN, first_above, kept};
use crate::entries::Entry;
use crate::finding::find_at;
use crate::limits::Limits;
use crate::memory::Memory;
use crate::orders::{Order, Recency};
use crate::probing::Node;
use pg_board::Color;
use pg_captures::victims_of;
use pg_fen::Diagram;
use pg_journeys::{has_few, has_fewer, has_walls};
use pg_position::Position;
use pg_tolls::{Tariff, ground_of_walls};
use std::alloc::{AllocError, Global};

// How many tariffs `quick` tries whose charges aren't known.
const TRIES: usize = 4;

/// Numbers that tell the men and rights of White and of Black at a node: a colour with the same number has the same.
#[derive(Clone, Copy, Debug, PartialEq, Eq)]
pub struct Keys {
    pub white: u64,
    pub black: u64,
}

// A node with the rows of both colours, and its plies left.
#[derive(Clone, Copy)]
struct Asked<'a> {
    position: &'a Position,
    left: u8,
    white: usize,
    black: usize,
}

/// Up to `MOST` tariffs for the way to a diagram, by their numbers from 0, with how often each excluded a node, and
/// what the men of each colour were charged.
///
/// That is remembered by the caller's key, how many captures the colour owes, and the square that its pawn has just
/// passed, up to 64 MB. A tariff has some 12 KB of tables for each colour and each number of captures that it may owe.
#[derive(Drop)]
pub struct Tariffs {
    alloc: Global,
    diagram: Diagram,
    entries: Vec<Entry>,
    limits: Limits,
    white: Memory,
    black: Memory,
    recency: Recency,
    orders: [Order; 256],
    steps: u64,
}

// The key of a colour's row: what its men are charged hangs on them and their rights, on how many captures they owe,
// and on the square that one of its pawns has just passed, 64 for none.
fn row_key(key: u64, owed: u8, passed: u8) -> u64 {
    let rest = u64::from(owed).wrapping_mul(128) | u64::from(passed);
    let mixed = key.wrapping_mul(0x9e37_79b9_7f4a_7c15) ^ rest.wrapping_mul(0xd1b5_4a32_d192_ed03);
    (mixed ^ (mixed >> 29)).max(1)
}

// The square that a pawn of a colour has just passed, 64 for none.
fn passed_by(position: &Position, color: Color) -> u8 {
    match position.passed() {
        Some(passed) => {
            if position.side() == color {
                64
            } else {
                passed.index()
            }
        }
        None => 64,
    }
}

// The row of a colour at a node.
fn row_of(
    memory: &mut Memory,
    diagram: &Diagram,
    position: &Position,
    color: Color,
    key: u64,
) -> Result<usize, AllocError> {
    let here = victims_of(&position.board(), color);
    let owed = here.saturating_sub(victims_of(&diagram.board(), color));
    memory.row_of(row_key(key, owed, passed_by(position, color)))
}

// What a tariff charges a colour at a node, as it is remembered, or reckoned and remembered.
fn charge_of(
    memory: &mut Memory,
    entry: &Entry,
    row: usize,
    number: usize,
    color: Color,
    position: &Position,
) -> i16 {
    let known = memory.get(row, number);
    if known != UNKNOWN {
        return known;
    }
    let charge = kept(entry.least(color, position));
    memory.set(row, number, charge);
    charge
}

impl Tariffs {
    /// The most tariffs that are kept.
    pub const MOST: usize = 250;

    /// None, for the way to a diagram.
    ///
    /// # Errors
    /// Where memory is refused.
    pub fn new(alloc: Global, diagram: &Diagram) -> Result<Tariffs, AllocError> {
        Ok(Tariffs {
            alloc,
            diagram: *diagram,
            entries: Vec::new(alloc),
            limits: Limits::new(alloc)?,
            white: Memory::new(alloc),
            black: Memory::new(alloc),
            recency: Recency::new(),
            orders: [Order::EMPTY; 256],
            steps: 0,
        })
    }

    /// How many there are.
    pub fn len(&self) -> usize {
        self.entries.len()
    }

    /// The tariff of a number, and how often it excluded a node.
    pub fn get(&self, number: usize) -> Option<(Tariff, u64)> {
        match self.entries.get(number) {
            Some(entry) => Some((entry.tariff, entry.times)),
            None => None,
        }
    }

    /// Adds a tariff, and makes its tables. The answer is its number, or none where there is no room.
    ///
    /// # Errors
    /// Where memory is refused.
    pub fn add(&mut self, tariff: &Tariff) -> Result<Option<usize>, AllocError> {
        let number = self.entries.len();
        if number >= Tariffs::MOST {
            return Ok(None);
        }
        let entry = Entry::new(self.alloc, &self.diagram, tariff)?;
        self.white.make_room(number);
        self.black.make_room(number);
        self.entries.push(entry)?;
        self.limits.add(number, tariff);
        self.recency.add(number);
        Ok(Some(number))
    }

    // Whether a tariff is asked at all: where each wall stands, no colour lacks men, and none has more than sixteen.
    fn may_ask(&self, position: &Position) -> bool {
        has_walls(&self.diagram, position)
            && !has_fewer(&self.diagram, position)
            && has_few(position)
    }

    // A node with the rows of both colours.
    fn ask<'a>(
        &mut self,
        position: &'a Position,
        keys: Keys,
        left: u8,
    ) -> Result<Asked<'a>, AllocError> {
        let diagram = &self.diagram;
        let white = row_of(&mut self.white, diagram, position, Color::White, keys.white)?;
        let black = row_of(&mut self.black, diagram, position, Color::Black, keys.black)?;
        Ok(Asked {
            position,
            left,
            white,
            black,
        })
    }

    // The first tariff that is known to exclude a node.
    fn known(&self, asked: &Asked<'_>) -> Option<usize> {
        first_above(
            self.white.row(asked.white),
            self.black.row(asked.black),
            self.limits.row(asked.position.side(), asked.left),
        )
    }

    // By how much what both colours are charged by a tariff is below what the plies pay for; below 0 where it excludes.
    fn spare(&mut self, number: usize, asked: &Asked<'_>) -> i32 {
        let Some(entry) = self.entries.get(number) else {
            return i32::MAX;
        };
        let (position, ours, theirs) = (asked.position, asked.white, asked.black);
        let limit = self.limits.get(position.side(), asked.left, number);
        let white = charge_of(&mut self.white, entry, ours, number, Color::White, position);
        if white == NO_PLAN {
            return -1;
        }
        let black = charge_of(
            &mut self.black,
            entry,
            theirs,
            number,
            Color::Black,
            position,
        );
        if black == NO_PLAN {
            return -1;
        }
        i32::from(limit)
            .saturating_sub(i32::from(white))
            .saturating_sub(i32::from(black))
    }

    // Notes that a tariff excluded a node.
    fn note(&mut self, number: usize) {
        if let Some(entry) = self.entries.get_mut(number) {
            entry.times = entry.times.saturating_add(1);
        }
        self.recency.bring_forward(number);
    }

    // The tariff to try at a place: by what was to spare at the node before, or by which excluded last.
    fn candidate(&self, left: u8, at: usize) -> Option<usize> {
        let order = &self.orders[usize::from(left.saturating_add(1))];
        match order.get(0) {
            Some(_) => order.get(at),
            None => self.recency.get(at),
        }
    }

    // Whether it is known what both colours are charged by a tariff.
    fn is_known(&self, number: usize, asked: &Asked<'_>) -> bool {
        self.white.get(asked.white, number) != UNKNOWN
            && self.black.get(asked.black, number) != UNKNOWN
    }

    // The first of a few tariffs that excludes a node, of those of which that isn't known yet.
    fn try_few(&mut self, asked: &Asked<'_>) -> Option<usize> {
        for at in 0..TRIES {
            let number = self.candidate(asked.left, at)?;
            if !self.is_known(number, asked) && self.spare(number, asked) < 0 {
                return Some(number);
            }
        }
        None
    }

    /// The number of a tariff that excludes a node with `left` plies left: first of those whose charges are known,
    /// then of a few that had the least to spare at the node before it.
    ///
    /// # Errors
    /// Where memory is refused.
    pub fn quick(
        &mut self,
        position: &Position,
        keys: Keys,
        left: u8,
    ) -> Result<Option<usize>, AllocError> {
        if self.entries.is_empty() || !self.may_ask(position) {
            return Ok(None);
        }
        let asked = self.ask(position, keys, left)?;
        let found = match self.known(&asked) {
            Some(number) => Some(number),
            None => self.try_few(&asked),
        };
        if let Some(number) = found {
            self.note(number);
        }
        Ok(found)
    }

    // The first tariff of all that excludes a node. Where none does, those with the least to spare are in an order.
    fn try_all(&mut self, asked: &Asked<'_>, order: &mut Order) -> Option<usize> {
        for at in 0..self.entries.len() {
            let number = self.recency.get(at)?;
            let spare = self.spare(number, asked);
            if spare < 0 {
                return Some(number);
            }
            order.offer((number % 256) as u8, spare);
        }
        None
    }

    /// The number of a tariff that excludes a node with `left` plies left, of all that there are. Where none does,
    /// those that have the least to spare are tried first at the nodes after it.
    ///
    /// # Errors
    /// Where memory is refused.
    pub fn all(
        &mut self,
        position: &Position,
        keys: Keys,
        left: u8,
    ) -> Result<Option<usize>, AllocError> {
        self.orders[usize::from(left)] = Order::EMPTY;
        if self.entries.is_empty() || !self.may_ask(position) {
            return Ok(None);
        }
        let asked = self.ask(position, keys, left)?;
        let mut order = Order::EMPTY;
        let found = self.try_all(&asked, &mut order);
        match found {
            Some(number) => self.note(number),
            None => self.orders[usize::from(left)] = order,
        }
        Ok(found)
    }

    // The tariff that had the least to spare at the last node with `left` plies left that none excluded.
    fn nearest(&self, left: u8) -> Option<Tariff> {
        let number = self.orders[usize::from(left)].get(0)?;
        match self.entries.get(number) {
            Some(entry) => Some(entry.tariff),
            None => None,
        }
    }

    /// Looks for a tariff that excludes a node with `left` plies left, which no kept one does. It isn't added.
    ///
    /// # Errors
    /// Where memory is refused.
    pub fn find(&mut self, position: &Position, left: u8) -> Result<Option<Tariff>, AllocError> {
        if !self.may_ask(position) {
            return Ok(None);
        }
        let white = ground_of_walls(&self.diagram, Color::White);
        let black = ground_of_walls(&self.diagram, Color::Black);
        let nearest = self.nearest(left);
        let node = Node {
            diagram: &self.diagram,
            position,
            left,
            white: &white,
            black: &black,
        };
        find_at(self.alloc, &node, nearest.as_ref(), &mut self.steps)
    }

    /// How many steps were made so far to look for tariffs.
    pub fn steps(&self) -> u64 {
        self.steps
    }
}
