//! What a cut by journeys says, in words.

use crate::journeys::{Captured, Lack, Landing, Needed, Obstacle, obstacle_of};
use crate::names::{color_name, kind_name, put_all, put_man, put_many, put_number, put_square};
use crate::numbers::Node;
use crate::sentences::Sentence;
use crate::travel::nowhere_name;
use crate::words::write_excess;
use pg_board::{Color, Kind, Square, SquareSet};

// What stands before one of so many squares.
fn joint(i: u8, count: u8) -> &'static str {
    if i == 0 {
        ""
    } else if i.saturating_add(1) == count {
        " or "
    } else {
        ", "
    }
}

// Squares by name, as in `f3, g5 or h4`; of more than three their number alone, behind some words.
fn put_squares(squares: SquareSet, words: &str, text: &mut Sentence) {
    let count = squares.len();
    if count > 3 {
        put_all(text, &[words]);
        put_number(text, u64::from(count));
        put_all(text, &[" squares"]);
        return;
    }
    let mut left = squares;
    for i in 0..3u8 {
        let Some(square) = left.pop_first() else {
            return;
        };
        put_all(text, &[joint(i, count)]);
        put_square(text, square);
    }
}

// How many of the moves that are left are captures.
fn put_captures(own: u8, owed: u8, text: &mut Sentence) {
    if owed < own {
        put_all(text, &[", "]);
        put_many(text, u64::from(owed), "none", "1", "");
        let words = if owed > 1 {
            " of them captures,"
        } else {
            " of them a capture,"
        };
        put_all(text, &[words]);
    } else if own == 1 {
        put_all(text, &[", a capture,"]);
    } else {
        put_all(text, &[", all captures,"]);
    }
}

// How many moves a colour has.
fn put_own(color: Color, own: u8, text: &mut Sentence) {
    put_all(text, &[color_name(color), " has "]);
    put_many(
        text,
        u64::from(own),
        "no move left",
        "1 move left",
        " moves left",
    );
}

// What a colour has and what it needs.
fn put_needed(lack: &Lack, text: &mut Sentence) {
    match lack.needed {
        Needed::Endless if lack.captures.is_some() => {
            put_all(text, &[color_name(lack.color), " has no plan"]);
        }
        Needed::Endless => {
            put_all(
                text,
                &[
                    color_name(lack.color),
                    "'s men cannot come to their squares",
                ],
            );
        }
        Needed::Nobody(man, square) => {
            put_all(text, &[nowhere_name(lack.color)]);
            put_man(text, man.kind, square);
        }
        Needed::Moves(moves) => {
            put_own(lack.color, lack.own, text);
            put_all(text, &[" and needs "]);
            put_number(text, u64::from(moves));
        }
        Needed::QuietMoves { quiet, owed } => {
            put_own(lack.color, lack.own, text);
            put_captures(lack.own, owed, text);
            put_all(text, &[" and needs "]);
            put_many(
                text,
                u64::from(quiet),
                "no quiet move",
                "1 quiet move",
                " quiet moves",
            );
        }
        Needed::Way => {
            put_own(lack.color, lack.own, text);
            put_all(text, &[" and no plan by both measures"]);
        }
    }
}

// That a man must be captured, and where.
fn put_way_of(squares: SquareSet, other: Color, text: &mut Sentence) {
    if squares.is_empty() {
        put_all(
            text,
            &[
                " must be captured, and ",
                color_name(other),
                " captures nowhere",
            ],
        );
    } else {
        put_all(text, &[" must come to "]);
        put_squares(squares, "one of ", text);
        put_all(text, &[" to be captured"]);
    }
}

// That a man of a kind must be captured, and where.
fn put_some(kind: Kind, squares: SquareSet, other: Color, text: &mut Sentence) {
    put_all(text, &["a ", kind_name(kind)]);
    put_way_of(squares, other, text);
}

// That a colour must capture so many men, and where it does.
fn put_anyone(landing: &Landing, other: Color, text: &mut Sentence) {
    put_all(text, &[color_name(other)]);
    if landing.squares.is_empty() {
        put_all(text, &[" must capture "]);
        put_many(text, u64::from(landing.men), "no man", "1 man", " men");
        put_all(text, &[" and captures nowhere"]);
    } else {
        put_all(text, &[" captures on "]);
        put_squares(landing.squares, "", text);
        put_all(text, &[" alone"]);
    }
}

// Which captures make the need so great.
fn put_landing(color: Color, landing: &Landing, text: &mut Sentence) {
    let other = color.other();
    put_all(text, &[": "]);
    match landing.captured {
        Captured::The(kind, square) => {
            put_man(text, kind, square);
            put_way_of(landing.squares, other, text);
        }
        Captured::Some(kind) => put_some(kind, landing.squares, other, text),
        Captured::Anyone => put_anyone(landing, other, text),
    }
}

// What a colour without a plan lacks.
fn write_lack(lack: &Lack, text: &mut Sentence) {
    put_needed(lack, text);
    if let Some(landing) = lack.captures {
        put_landing(lack.color, &landing, text);
    }
    put_all(text, &[" (journeys)"]);
}

// That a pawn of the diagram on its home rank does not stand there any more.
pub(crate) fn put_lost_pawn(square: Square, text: &mut Sentence) {
    put_man(text, Kind::Pawn, square);
    put_all(text, &[" of the diagram has left its square"]);
}

// What excludes a node.
fn write_obstacle(obstacle: &Obstacle, text: &mut Sentence) {
    match obstacle {
        Obstacle::Wall(square) => {
            put_lost_pawn(*square, text);
            put_all(text, &[" (journeys)"]);
        }
        Obstacle::Captures(color, excess) => write_excess(*color, excess, text),
        Obstacle::Plans(lack) => write_lack(lack, text),
    }
}

// Writes why the bound by journeys excludes a node; whether it does.
pub(crate) fn write_journeys(node: &Node, text: &mut Sentence) -> bool {
    match obstacle_of(node) {
        Some(obstacle) => {
            write_obstacle(&obstacle, text);
            true
        }
        None => false,
    }
}
