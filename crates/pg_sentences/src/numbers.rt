//! How many moves a colour has left, and what excludes it by captures, promotions or pawn files.

use pg_board::{Color, Man, Square};
use pg_captures::{owed, pawns, plies_left, shortage};
use pg_fen::Diagram;
use pg_pawns::shift_need;
use pg_position::Position;

/// A node of a certificate: the diagram to come to, its position, and the plies left.
#[derive(Drop)]
pub struct Node<'a> {
    pub diagram: &'a Diagram,
    pub position: &'a Position,
    pub left: u8,
}

// The colour's plies among those that are left.
pub(crate) fn own_plies(node: &Node, color: Color) -> u8 {
    plies_left(node.position.side(), color, node.left)
}

// How castling helps to a need, if it does.
#[derive(Clone, Copy)]
pub(crate) enum Castling {
    None,
    KingSide,
    QueenSide,
}

// What excludes a colour, in numbers, which are found for many colours that are not excluded: the words come after
// them.
#[derive(Clone, Copy)]
pub(crate) enum Excess {
    // It has captured so many men more than the diagram lacks, less than none as a number of men to capture.
    TooMany(i16),
    // It must capture more men than it has moves.
    Captures {
        owed: i16,
        own: u8,
    },
    // It needs more pawns, some of them for pieces, than it has.
    Promotions {
        needed: u16,
        pieces: u16,
        here: u16,
    },
    // Its pawns must change file more often than it has men to capture.
    Files {
        shift: u16,
        owed: i16,
    },
    // It needs more moves than it has.
    Travel {
        need: u16,
        own: u8,
        castling: Castling,
    },
    // Its men cannot come to their squares: the first man of the diagram that comes from nowhere.
    Nowhere(Option<(Man, Square)>),
}

// What captures exclude a colour by: it owes fewer than none, or more than it has moves left; none where
// they do not.
pub(crate) fn captures_of(node: &Node, color: Color) -> Option<Excess> {
    let owed = owed(color, node.diagram, node.position);
    let own = own_plies(node, color);
    if owed < 0 {
        return Some(Excess::TooMany(owed));
    }
    if owed <= i16::from(own) {
        return None;
    }
    Some(Excess::Captures { owed, own })
}

// What promotions exclude a colour by: pawns are short for the pieces that it lacks and the pawns of the
// diagram; none where they do not.
pub(crate) fn promotions_of(node: &Node, color: Color) -> Option<Excess> {
    let goal = node.diagram.board();
    let board = node.position.board();
    let pieces = shortage(&goal, &board, color);
    let needed = pieces.saturating_add(u16::from(pawns(&goal, color)));
    let here = u16::from(pawns(&board, color));
    if needed <= here {
        return None;
    }
    Some(Excess::Promotions {
        needed,
        pieces,
        here,
    })
}

// What changes of file exclude a colour by, so many as the lines between files show: it owes fewer captures; none where
// they do not.
pub(crate) fn files_of(node: &Node, color: Color) -> Option<Excess> {
    let shift = shift_need(color, node.diagram, node.position);
    let owed = owed(color, node.diagram, node.position);
    if owed < 0 {
        return Some(Excess::TooMany(owed));
    }
    if shift <= owed.unsigned_abs() {
        return None;
    }
    Some(Excess::Files { shift, owed })
}
