//! The place of a move among all 64 * 64 * 7: by its squares and its promotion.
ghost use Rattle.std.specs.Prelude.{◌≡◌, ◌≢◌, ◌+◌, ◌<◌, ◌≤◌};
ghost use Rattle.pg_moves.specs.Moves.{promotion_number};

use pg_board::{Kind, Square};
use pg_position::Move;

// The promotion of a number, in the order none, pawn, knight, bishop, rook, queen, king.
pub(crate) fn promotion_at(number: u8) -> Option<Kind>
    requires { number < 7 }
    ensures { promotion_number result ≡ number }
{
    match number {
        0 => None,
        1 => Some(Kind::Pawn),
        2 => Some(Kind::Knight),
        3 => Some(Kind::Bishop),
        4 => Some(Kind::Rook),
        5 => Some(Kind::Queen),
        _ => Some(Kind::King),
    }
}

// The number of a promotion in that order.
pub(crate) fn promotion_number(promotion: Option<Kind>) -> u8
    ensures value { result ≡ promotion_number promotion }
    ensures bound { result < 7 }
{
    match promotion {
        None => 0,
        Some(Kind::Pawn) => 1,
        Some(Kind::Knight) => 2,
        Some(Kind::Bishop) => 3,
        Some(Kind::Rook) => 4,
        Some(Kind::Queen) => 5,
        Some(Kind::King) => 6,
    }
}

// A target of a man and the number of a promotion, from where on his moves are searched: 7 is past all promotions.
#[derive(Clone, Copy)]
pub(crate) struct Target {
    pub(crate) to: Square,
    pub(crate) number: u8,
    pub(crate) ghost few: { number ≤ 7 },
}

impl Target {
    // Before all of his moves.
    pub(crate) fn first() -> Target
        ensures to { result.to ≡ 0 }
        ensures number { result.number ≡ 0 }
    {
        Target {
            to: Square::at(0),
            number: 0,
        }
    }

    // Past a move of his.
    pub(crate) fn past(m: &Move) -> Target
        ensures to { result.to ≡ m.now.to }
        ensures number { result.number ≡ promotion_number m.now.promotion + 1 }
        ensures bound { result.to < 64 }
    {
        // A fact for the proof: the square is on the board.
        m.to.index();
        Target {
            to: m.to,
            number: promotion_number(m.promotion) + 1,
        }
    }

    // Where the search goes on with a square: from this promotion on if it is the target, past it from the first.
    pub(crate) fn resume_at(&self, square: Square) -> Target
        ensures to { result.to ≡ square }
        ensures at { square ≡ self.now.to → result.number ≡ self.now.number }
        ensures past { square ≢ self.now.to → result.number ≡ 0 }
    {
        Target {
            to: square,
            number: if square == self.to { self.number } else { 0 },
        }
    }

    // Where the search goes on with a man: from here on if he is the one it began with, past him with all his moves.
    pub(crate) fn resume_of(&self, from: Square, start: Square) -> Target
        ensures at { from ≡ start → (result.to ≡ self.now.to) × (result.number ≡ self.now.number) }
        ensures past { from ≢ start → (result.to ≡ 0) × (result.number ≡ 0) }
    {
        if from == start {
            *self
        } else {
            Target::first()
        }
    }

    // The square from which it goes on where each square has one move: the target before its move, the next after it.
    pub(crate) fn next_square(&self) -> u8
        ensures before { self.now.number ≡ 0 → result ≡ self.now.to }
        ensures after { self.now.number ≢ 0 → result ≡ self.now.to + 1 }
    {
        if self.number == 0 {
            self.to.index()
        } else {
            self.to.index() + 1
        }
    }
}
