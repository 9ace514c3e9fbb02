//! What the children of a node are.

use crate::fares::number_of;
use pg_captures::{Bound, Captures, Promotions};
use pg_certificate::Bare;
use pg_fen::Diagram;
use pg_journeys::Journeys;
use pg_pawns::PawnFiles;
use pg_position::Position;
use pg_travel::Travel;

/// What an expanded node's children are: how many moves there are, how many of them lead to expanded nodes with games
/// or with more than one ply left (with one ply left: to the diagram), how many to nodes that are cut in each way or
/// refer, and how many to nodes with one ply left, no game, and no bound that excludes there. And how many games below
/// end on the diagram.
#[derive(Clone, Copy, Default)]
pub struct Tally {
    pub moves: u16,
    pub lead: u16,
    pub captures: u16,
    pub promotions: u16,
    pub files: u16,
    pub travel: u16,
    pub journeys: u16,
    pub tolls: u16,
    pub others: u16,
    pub references: u16,
    pub played_out: u16,
    pub games: u64,
}

impl Tally {
    // The number of the children that are cut by a bound with this code, where there are so many tariffs.
    fn cut_by(&mut self, code: u8, tariffs: usize) -> &mut u16 {
        match code {
            Captures::CODE => &mut self.captures,
            Promotions::CODE => &mut self.promotions,
            PawnFiles::CODE => &mut self.files,
            Travel::CODE => &mut self.travel,
            Journeys::CODE => &mut self.journeys,
            _ if number_of(code, tariffs).is_some() => &mut self.tolls,
            _ => &mut self.others,
        }
    }

    /// Counts a move to a node with this record, where so many tariffs stand before the certificate.
    pub fn count(&mut self, said: &Bare, tariffs: usize) {
        self.moves = self.moves.saturating_add(1);
        let kind = match said {
            Bare::Expand { .. } => &mut self.lead,
            Bare::Cut(code) | Bare::Priced { code, .. } => self.cut_by(*code, tariffs),
            Bare::Ref(_) => &mut self.references,
        };
        *kind = kind.saturating_add(1);
    }

    /// Counts a move to a leaf, which is on the diagram or not.
    pub fn count_leaf(&mut self, hit: bool) {
        self.moves = self.moves.saturating_add(1);
        if hit {
            self.lead = self.lead.saturating_add(1);
        }
    }

    /// A child with one ply left that was counted as one that leads on has no game below: it is counted as one that is
    /// cut by the first bound that excludes there, as which most certificates do not write it down, or else as played
    /// out.
    pub fn recount(&mut self, code: Option<u8>) {
        self.lead = self.lead.saturating_sub(1);
        let kind = match code {
            Some(code) => self.cut_by(code, 0),
            None => &mut self.played_out,
        };
        *kind = kind.saturating_add(1);
    }
}

/// The code of the first bound of the four that excludes a position with so many plies left.
pub fn first_code(diagram: &Diagram, position: &Position, left: u8) -> Option<u8> {
    if Captures.excludes(diagram, position, left) {
        Some(Captures::CODE)
    } else if Promotions.excludes(diagram, position, left) {
        Some(Promotions::CODE)
    } else if PawnFiles.excludes(diagram, position, left) {
        Some(PawnFiles::CODE)
    } else if Travel.excludes(diagram, position, left) {
        Some(Travel::CODE)
    } else {
        None
    }
}
