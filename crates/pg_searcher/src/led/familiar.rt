//! The moves that are familiar: those that men of either colour make in games that are known.

use pg_board::{Board, Color, Kind, Man, Square, SquareSet};
use pg_position::{Move, Position};
use pg_san::Games;
use std::alloc::{AllocError, Global};

// How many sets of squares there are: one for each kind of a man, or what a pawn becomes, and each square.
const ROWS: usize = 768;

const KINDS: [Kind; 6] = [
    Kind::Pawn,
    Kind::Knight,
    Kind::Bishop,
    Kind::Rook,
    Kind::Queen,
    Kind::King,
];

// What a pawn may become, in the order of moves.
pub(crate) const PROMOTED: [Kind; 4] = [Kind::Knight, Kind::Bishop, Kind::Rook, Kind::Queen];

// For one colour the squares to which its men go in games, by kind and by the square that they leave;
// promotions stand apart, by what the pawn becomes. Castling is the king's move. And by kind all squares that
// men leave.
#[derive(Drop)]
struct Ways {
    rows: Vec<SquareSet>,
    sources: [SquareSet; 6],
}

// The ways of either colour.
#[derive(Drop)]
pub(crate) struct Familiar {
    white: Ways,
    black: Ways,
}

// The row of a man of this kind on a square, or of a pawn there that becomes this.
fn row_of(kind: Kind, promotion: Option<Kind>, from: Square) -> usize {
    let number = match promotion {
        None => kind.number(),
        Some(kind) => kind.number().saturating_add(6),
    };
    usize::from(number)
        .saturating_mul(64)
        .saturating_add(usize::from(from.index()))
}

impl Ways {
    // None yet.
    fn none(alloc: Global) -> Result<Ways, AllocError> {
        Ok(Ways {
            rows: vec![in alloc; SquareSet::empty(); ROWS]?,
            sources: [SquareSet::empty(); 6],
        })
    }

    // Adds a move of a man of this kind.
    fn add(&mut self, kind: Kind, m: &Move) {
        if let Some(set) = self.rows.get_mut(row_of(kind, m.promotion, m.from)) {
            *set = *set | SquareSet::single(m.to);
        }
        if let Some(set) = self.sources.get_mut(usize::from(kind.number())) {
            *set = *set | SquareSet::single(m.from);
        }
    }

    // Where a man of this kind goes from a square, or a pawn that becomes this.
    fn row(&self, kind: Kind, promotion: Option<Kind>, from: Square) -> SquareSet {
        match self.rows.get(row_of(kind, promotion, from)) {
            Some(set) => *set,
            None => SquareSet::empty(),
        }
    }
}

impl Familiar {
    // The moves of all games of a list.
    pub(crate) fn of(alloc: Global, games: &Games) -> Result<Familiar, AllocError> {
        let mut familiar = Familiar {
            white: Ways::none(alloc)?,
            black: Ways::none(alloc)?,
        };
        for i in 0..games.len() {
            if let Some(game) = games.game(i) {
                familiar.add_game(game);
            }
        }
        Ok(familiar)
    }

    // Adds the moves of a game.
    fn add_game(&mut self, game: &[Move]) {
        let mut position = Position::array();
        for m in game {
            self.add(&position, m);
            match position.play(*m) {
                Ok(next) => position = next,
                Err(_) => return,
            }
        }
    }

    // Adds a move from a position.
    fn add(&mut self, position: &Position, m: &Move) {
        let Some(man) = position.board().get(m.from) else {
            return;
        };
        match position.side() {
            Color::White => self.white.add(man.kind, m),
            Color::Black => self.black.add(man.kind, m),
        }
    }

    // The ways of a colour.
    fn ways(&self, color: Color) -> &Ways {
        match color {
            Color::White => &self.white,
            Color::Black => &self.black,
        }
    }

    // The men of a colour on a board that leave their squares in games.
    pub(crate) fn sources(&self, board: &Board, color: Color) -> SquareSet {
        let ways = self.ways(color);
        let mut sources = SquareSet::empty();
        for kind in KINDS {
            if let Some(set) = ways.sources.get(usize::from(kind.number())) {
                sources = sources | (board.squares_of(Man::new(color, kind)) & *set);
            }
        }
        sources
    }

    // Where a man goes from a square by moves that are no promotions.
    pub(crate) fn row(&self, man: Man, from: Square) -> SquareSet {
        self.ways(man.color).row(man.kind, None, from)
    }

    // Where a pawn goes from a square by promotions.
    pub(crate) fn promotions(&self, man: Man, from: Square) -> SquareSet {
        let ways = self.ways(man.color);
        let mut squares = SquareSet::empty();
        for kind in PROMOTED {
            squares = squares | ways.row(man.kind, Some(kind), from);
        }
        squares
    }

    // Whether a move of a man is one of them.
    pub(crate) fn has(&self, man: Man, m: &Move) -> bool {
        self.ways(man.color)
            .row(man.kind, m.promotion, m.from)
            .contains(m.to)
    }
}
