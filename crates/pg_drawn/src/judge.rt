//! Whether a cheap bound excludes a node, and how much travel is left there.

use crate::child::Child;
use crate::known::{Known, Means};
use pg_board::Color;
use pg_captures::plies_left;
use pg_fen::Diagram;
use pg_position::{Move, Position};
use pg_prices::node_key;
use std::alloc::{AllocError, Global};

// What judges nodes for a diagram.
#[derive(Drop)]
pub(crate) struct Judge {
    white: Known,
    black: Known,
}

impl Judge {
    // Nothing but the diagram is known.
    pub(crate) fn new(alloc: Global, diagram: &Diagram) -> Result<Judge, AllocError> {
        Ok(Judge {
            white: Known::new(alloc, Color::White, diagram)?,
            black: Known::new(alloc, Color::Black, diagram)?,
        })
    }

    // A colour's numbers at a node with `left` plies left.
    fn means(&self, color: Color, position: &Position, left: u8) -> Means {
        let other = color.other();
        let goal = match other {
            Color::White => self.white.goal_men,
            Color::Black => self.black.goal_men,
        };
        let men = position.board().squares_of_color(other).len();
        Means {
            owed: i16::from(men) - i16::from(goal),
            plies: plies_left(position.side(), color, left),
        }
    }

    // The node of a position to which a move led, with `left` plies left; none where a bound excludes it, or least
    // assignments of pawns or of men do. No number is drawn for it yet.
    pub(crate) fn node(
        &mut self,
        diagram: &Diagram,
        m: Option<Move>,
        position: &Position,
        left: u8,
    ) -> Result<Option<Child>, AllocError> {
        let white = self.means(Color::White, position, left);
        let black = self.means(Color::Black, position, left);
        if white.exclude() || black.exclude() {
            return Ok(None);
        }
        let Some(white) = self.white.travelling(diagram, position, white)? else {
            return Ok(None);
        };
        let Some(black) = self.black.travelling(diagram, position, black)? else {
            return Ok(None);
        };
        let passed = position.effective_passed();
        Ok(Some(Child {
            m,
            position: *position,
            key: node_key(white.key, black.key, position.side(), passed, left),
            travel: white.travel.saturating_add(black.travel),
            drawn: 0,
        }))
    }
}
