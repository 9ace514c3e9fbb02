//! What is known of either colour at a node, and how a move changes it.

use crate::known::MISSING;
use pg_board::{Board, Color, Kind, Man, Square, SquareSet};
use pg_position::{Move, Position, Rights, Wing, castling_homes, king_home, rook_home};
use pg_prices::{Needs, color_key, man_key, right_key};

/// One colour at a node: the key of its men and rights, what they need, and how many men, pawns and ways
/// to castle or not it has.
#[derive(Clone, Copy)]
pub struct Side {
    /// The key of its men and rights.
    pub key: u64,
    /// What they need, where it is known.
    pub needs: Needs,
    /// How many men it has.
    pub men: u8,
    /// How many of them are pawns.
    pub pawns: u8,
    /// How many ways it has: one, and one more for each right to castle.
    pub ways: u8,
}

/// Both colours at a node.
#[derive(Clone, Copy)]
pub struct Sides {
    /// What is known of White.
    pub white: Side,
    /// What is known of Black.
    pub black: Side,
}

impl Sides {
    // Both colours where nothing is known.
    pub(crate) fn none() -> Sides {
        let none = Side {
            key: 0,
            needs: MISSING,
            men: 0,
            pawns: 0,
            ways: 0,
        };
        Sides {
            white: none,
            black: none,
        }
    }

    /// What is known of a colour.
    pub fn of(&self, color: Color) -> &Side {
        match color {
            Color::White => &self.white,
            Color::Black => &self.black,
        }
    }

    // Something else is known of a colour from now on.
    pub(crate) fn set(&mut self, color: Color, side: Side) {
        match color {
            Color::White => self.white = side,
            Color::Black => self.black = side,
        }
    }
}

// A colour's key and numbers, before its needs are known.
pub(crate) fn side_of(board: &Board, rights: Rights, color: Color, needs: Needs) -> Side {
    let pawn = Man::new(color, Kind::Pawn);
    let short = u8::from(rights.holds(color, Wing::KingSide));
    let long = u8::from(rights.holds(color, Wing::QueenSide));
    Side {
        key: color_key(board, rights, color),
        needs,
        men: board.squares_of_color(color).len(),
        pawns: board.squares_of(pawn).len(),
        ways: 1 + short + long,
    }
}

/// What a move changes of one colour: its key, by exclusive or, and how many men, pawns and ways are
/// gone.
#[derive(Clone, Copy)]
pub struct Change {
    key: u64,
    men: u8,
    pawns: u8,
    ways: u8,
}

/// What a move changes of its own colour and of the other one.
#[derive(Clone, Copy)]
pub struct Changes {
    /// What it changes of the colour that moves.
    pub own: Change,
    /// What it changes of the other colour, where it captures.
    pub other: Option<Change>,
}

impl Change {
    // Nothing.
    pub(crate) fn none() -> Change {
        Change {
            key: 0,
            men: 0,
            pawns: 0,
            ways: 0,
        }
    }

    /// The colour after the move, with its needs.
    pub fn applied(&self, side: &Side, needs: Needs) -> Side {
        Side {
            key: self.key_after(side),
            needs,
            men: self.men_after(side),
            pawns: side.pawns.saturating_sub(self.pawns),
            ways: side.ways.saturating_sub(self.ways),
        }
    }

    // The colour's key after the move.
    pub(crate) fn key_after(&self, side: &Side) -> u64 {
        side.key ^ self.key
    }

    // What is changed where the man that was lifted is put on a square.
    pub(crate) fn with_man(&self, man: Man, square: Square) -> Change {
        Change {
            key: self.key ^ man_key(man, square.index()),
            men: self.men,
            pawns: self.pawns,
            ways: self.ways,
        }
    }

    // How many men it has after the move.
    pub(crate) fn men_after(&self, side: &Side) -> u8 {
        side.men.saturating_sub(self.men)
    }
}

// The home squares of a colour's king and rook.
fn homes(color: Color, wing: Wing) -> SquareSet {
    SquareSet::single(king_home(color)) | SquareSet::single(rook_home(color, wing))
}

// The rights of a colour that are lost where men leave squares: their keys, and how many.
fn lost(rights: Rights, color: Color, squares: SquareSet) -> (u64, u8) {
    let mut key = 0u64;
    let mut count = 0u8;
    if !squares.meets(castling_homes()) {
        return (0, 0);
    }
    for wing in [Wing::KingSide, Wing::QueenSide] {
        if rights.holds(color, wing) && squares.meets(homes(color, wing)) {
            key ^= right_key(color, wing);
            count = count.saturating_add(1);
        }
    }
    (key, count)
}

// What changes of a man's colour where he leaves a square, by a move of his or taken.
fn left_by(rights: Rights, man: Man, square: Square, taken: bool) -> Change {
    let (lost_key, ways) = lost(rights, man.color, SquareSet::single(square));
    Change {
        key: man_key(man, square.index()) ^ lost_key,
        men: u8::from(taken),
        pawns: u8::from(taken && man.kind == Kind::Pawn),
        ways,
    }
}

// Whether a move changes more than the squares that it leaves and reaches, or the man that moves:
// castling, a capture en passant, a promotion.
pub(crate) fn is_special(man: Man, taken: Option<Man>, m: &Move) -> bool {
    match man.kind {
        Kind::King => m.from.file().abs_diff(m.to.file()) == 2,
        Kind::Pawn => { m.promotion.is_some() || (taken.is_none() && m.from.file() != m.to.file()) }
        _ => false,
    }
}

// What changes of a man's colour where he is lifted from a square. With him put on another square it is what a plain
// move of his changes: there is no man of his colour, so a right that is held is not lost by him coming there.
pub(crate) fn lifted(rights: Rights, man: Man, from: Square) -> Change {
    left_by(rights, man, from, false)
}

/// What a legal move changes; none where it is castling, a capture en passant or a promotion.
pub fn changes_of(position: &Position, m: &Move) -> Option<Changes> {
    let board = position.board();
    let Some(man) = board.get(m.from) else {
        return None;
    };
    let taken = board.get(m.to);
    if is_special(man, taken, m) {
        return None;
    }
    let rights = position.rights();
    let other = match taken {
        Some(other) => Some(left_by(rights, other, m.to, true)),
        None => None,
    };
    Some(Changes {
        own: lifted(rights, man, m.from).with_man(man, m.to),
        other,
    })
}
