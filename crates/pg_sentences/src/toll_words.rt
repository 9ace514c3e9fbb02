//! What a cut by tolls says, in words.

use crate::fares::{GrowingFares, number_of};
use crate::journey_words::put_lost_pawn;
use crate::names::{color_name, put_all, put_many, put_number, put_square};
use crate::numbers::Node;
use crate::sentences::Sentence;
use crate::tolls::{Barrier, Shortage, barrier_of};
use crate::words::write_too_many;
use pg_board::Square;
use pg_certificate::Bare;

// One square more, behind a joint.
fn put_next(square: &Option<Square>, joint: &str, text: &mut Sentence) {
    if let Some(square) = square {
        put_all(text, &[joint]);
        put_square(text, *square);
    }
}

// Where the cheapest plans differ, as in `on f3, g5 and h4`, where they do.
fn put_squares(squares: &[Option<Square>; 3], text: &mut Sentence) {
    let words = ": their cheapest plans disagree about captures on ";
    let second = if squares[2].is_some() { ", " } else { " and " };
    put_next(&squares[0], words, text);
    put_next(&squares[1], second, text);
    put_next(&squares[2], " and ", text);
}

// How many plies both colours need, how many they have, and where their cheapest plans differ.
fn put_shortage(shortage: &Shortage, text: &mut Sentence) {
    put_all(text, &["white and black together need "]);
    match shortage.needed {
        Some(plies) => put_many(text, u64::from(plies), "no ply", "1 ply", " plies"),
        None => put_all(text, &["more than 255 plies"]),
    }
    put_all(text, &[" and have "]);
    put_number(text, u64::from(shortage.left));
    put_squares(&shortage.squares, text);
    put_all(text, &[" (tolls)"]);
}

// What excludes a node.
fn put_barrier(barrier: &Barrier, text: &mut Sentence) {
    match barrier {
        Barrier::Wall(square) => {
            put_lost_pawn(*square, text);
            put_all(text, &[" (tolls)"]);
        }
        Barrier::TooMany(color, owed) => write_too_many(*color, *owed, text),
        Barrier::NoPlan(color) => put_all(text, &[color_name(*color), " has no plan (tolls)"]),
        Barrier::Plies(shortage) => put_shortage(shortage, text),
    }
}

// Writes why the tariff that a code names excludes a node; whether it is seen to.
pub(crate) fn write_tolls(
    fares: &mut GrowingFares<'_>,
    node: &Node,
    code: u8,
    text: &mut Sentence,
) -> bool {
    let Some(number) = number_of(code, fares.count()) else {
        return false;
    };
    match barrier_of(fares, node, number) {
        Some(barrier) => {
            put_barrier(&barrier, text);
            true
        }
        None => false,
    }
}

impl GrowingFares<'_> {
    /// Writes why the tariff excludes that cuts a node into a sentence that is empty, and hands out the code of the
    /// cut. None, and nothing is written, where no tariff of these cuts the node, where it is not seen to exclude, and
    /// where memory for its tables is refused. No clause speaks of the words.
    pub fn put_reason_of_cut(
        &mut self,
        node: &Node,
        said: &Bare,
        text: &mut Sentence,
    ) -> Option<u8> {
        let Bare::Cut(code) = said else {
            return None;
        };
        if write_tolls(self, node, *code, text) {
            Some(*code)
        } else {
            None
        }
    }
}
