//! What a cut by travel says.

use crate::distances::{Distances, Need};
use crate::names::{color_name, put_all, put_man};
use crate::numbers::{Castling, Excess, Node, own_plies};
use crate::sentences::Sentence;
use pg_board::{Board, Color, Man, Square};
use pg_travel::{Ways, distance};

// Whether a man of the colour can come to be one of the diagram, alone on the board.
fn comes(board: &Board, man: Man, to: Square) -> bool {
    let mut own = board.squares_of_color(man.color).squares();
    for _ in 0..64u8 {
        let Some(square) = own.next() else {
            return false;
        };
        if let Some(source) = board.get(square) {
            if distance(source, square, man.kind, to).is_some() {
                return true;
            }
        }
    }
    false
}

// The first man of the colour in the diagram that no man of the position can come to be.
fn unreached(node: &Node, color: Color) -> Option<(Man, Square)> {
    let board = node.position.board();
    let goal = node.diagram.board();
    let mut own = goal.squares_of_color(color).squares();
    for _ in 0..64u8 {
        let Some(square) = own.next() else {
            return None;
        };
        if let Some(man) = goal.get(square) {
            if !comes(&board, man, square) {
                return Some((man, square));
            }
        }
    }
    None
}

// What the words begin with that no man of a colour comes to a square.
pub(crate) fn nowhere_name(color: Color) -> &'static str {
    match color {
        Color::White => "no man of white's can come to be ",
        Color::Black => "no man of black's can come to be ",
    }
}

// That a man of the diagram comes from nowhere.
pub(crate) fn write_nowhere(color: Color, missing: &Option<(Man, Square)>, text: &mut Sentence) {
    match missing {
        Some((man, square)) => {
            put_all(text, &[nowhere_name(color)]);
            put_man(text, man.kind, *square);
            put_all(text, &[" (travel)"]);
        }
        None => put_all(
            text,
            &[
                color_name(color),
                "'s men cannot come to their squares (travel)",
            ],
        ),
    }
}

// How castling helps to a need that is the least of these, if it does.
fn castling_of(ways: &Ways, need: u16) -> Castling {
    if ways.free == Some(need) {
        Castling::None
    } else if ways.short == Some(need) {
        Castling::KingSide
    } else {
        Castling::QueenSide
    }
}

// What travel excludes a colour by, of whose ways these are the values: it needs more moves than it has, or no number
// of moves is enough; none where it does not.
fn excess_of(node: &Node, color: Color, ways: &Ways) -> Option<Excess> {
    let own = own_plies(node, color);
    let Some(need) = ways.need() else {
        return Some(Excess::Nowhere(unreached(node, color)));
    };
    if need <= u16::from(own) {
        return None;
    }
    Some(Excess::Travel {
        need,
        own,
        castling: castling_of(ways, need),
    })
}

// The same by distances that serve for the diagram and the colour.
fn travel_by(distances: &Distances, node: &Node, color: Color) -> Option<Excess> {
    match distances.need_beyond(node.position, color, own_plies(node, color)) {
        Need::Within => None,
        Need::Nowhere(missing) => Some(Excess::Nowhere(missing)),
        Need::Beyond(ways) => excess_of(node, color, &ways),
    }
}

// What travel excludes a colour by, by distances where they serve; none where it does not.
pub(crate) fn travel_of(
    distances: &Option<&Distances>,
    node: &Node,
    color: Color,
) -> Option<Excess> {
    match distances {
        Some(distances) if distances.has_all_men_of(node.diagram, color) => travel_by(
            distances, node, color,
        ),
        _ => {
            let ways = Ways::new(color, node.diagram, node.position);
            excess_of(node, color, &ways)
        }
    }
}
