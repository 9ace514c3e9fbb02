//! What is known of an open node that judges its moves before they are made.

use crate::judge::{CutBy, Means};
use crate::sides::{Sides, is_special};
use pg_board::{Color, Kind, Man, Square, SquareSet};
use pg_position::{Move, Position};
use pg_prices::{Leasts, Rest, Rows};

// What is known of an open node: both colours, how many plies are left after a move, the least distances of the men of
// the side to move, all men, and that side's numbers after a move of its own that takes nothing. There are men of that
// side after each plain move of whom a bound excludes, whatever the move: those men, and the bound. The king, who may
// castle, is known.
#[derive(Clone, Copy)]
pub(crate) struct Outlook {
    pub(crate) sides: Sides,
    pub(crate) left: u8,
    pub(crate) means: Means,
    pub(crate) bound: CutBy,
    leasts: Leasts,
    occupied: SquareSet,
    men_too_far: SquareSet,
    kings: SquareSet,
}

// The man of a node whose moves are judged, and the least distances of the others; at first none, on the
// square 64. Where a bound excludes after each plain move of his, the distances are not known.
#[derive(Clone, Copy)]
pub(crate) struct Mover {
    rest: Rest,
    from: u8,
    man: Man,
    is_too_far: bool,
}

// A plain move, which takes no man and is no castling, capture en passant or promotion: the man that moves, and
// its colour's need of travel then.
#[derive(Clone, Copy)]
pub(crate) struct PlainMove {
    pub(crate) man: Man,
    pub(crate) need: u8,
}

// What is known of a move by its colour's travel: it is not plain; or it is, and a bound excludes, or none does.
#[derive(Clone, Copy)]
pub(crate) enum Plain {
    No,
    Cut(CutBy),
    Stays(PlainMove),
}

impl Mover {
    // No man yet.
    pub(crate) fn none() -> Mover {
        Mover {
            rest: Rest::none(),
            from: 64,
            man: Man::new(Color::White, Kind::Pawn),
            is_too_far: false,
        }
    }
}

impl Outlook {
    // Of a node no move of which is taken for plain.
    pub(crate) fn of(sides: &Sides, left: u8) -> Outlook {
        Outlook {
            sides: *sides,
            left,
            means: Means { owed: 0, plies: 0 },
            bound: CutBy::Travel,
            leasts: Leasts::none(),
            occupied: SquareSet::full(),
            men_too_far: SquareSet::empty(),
            kings: SquareSet::empty(),
        }
    }

    // What is known of a position, by the rows of the side to move.
    pub(crate) fn new(
        sides: &Sides,
        left: u8,
        rows: &Rows,
        position: &Position,
        means: Means,
    ) -> Outlook {
        let board = position.board();
        let leasts = Leasts::new(rows, &board, position.rights());
        Outlook {
            sides: *sides,
            left,
            means,
            bound: CutBy::Travel,
            leasts,
            occupied: board.occupied(),
            men_too_far: leasts.cut_off(rows, &board, means.plies),
            kings: board.squares_of(Man::new(position.side(), Kind::King)),
        }
    }

    // What is known of a position in which captures exclude after each move of the side to move that takes nothing.
    pub(crate) fn owing(sides: &Sides, left: u8, position: &Position, means: Means) -> Outlook {
        let board = position.board();
        Outlook {
            sides: *sides,
            left,
            means,
            bound: CutBy::Captures,
            leasts: Leasts::none(),
            occupied: board.occupied(),
            men_too_far: SquareSet::full(),
            kings: board.squares_of(Man::new(position.side(), Kind::King)),
        }
    }

    // Whether the bound excludes after each move of the man on a square to a set, which are all without promotion or
    // capture en passant.
    #[inline(always)]
    pub(crate) fn cuts_all(&self, from: Square, targets: SquareSet) -> bool {
        (self.men_too_far - self.kings).contains(from) && !targets.meets(self.occupied)
    }

    // The man on a square is judged from now on.
    fn turn(&self, mover: &mut Mover, rows: &Rows, position: &Position, from: Square) {
        if let Some(man) = position.board().get(from) {
            mover.man = man;
            mover.from = from.index();
            mover.is_too_far = self.men_too_far.contains(from);
            if !mover.is_too_far {
                mover.rest = self.leasts.without(rows, man.kind, from);
            }
        }
    }

    // What is known of a legal move. After one that is plain what either colour owes by captures,
    // promotions and pawn files is as before, and so is the need of the other colour.
    pub(crate) fn plain(
        &self,
        rows: &Rows,
        position: &Position,
        mover: &mut Mover,
        m: &Move,
    ) -> Plain {
        if self.occupied.contains(m.to) {
            return Plain::No;
        }
        if mover.from != m.from.index() {
            self.turn(mover, rows, position, m.from);
        }
        if is_special(mover.man, None, m) {
            return Plain::No;
        }
        if mover.is_too_far {
            return Plain::Cut(self.bound);
        }
        let man = mover.man;
        let need = mover.rest.need(rows.distances(man.kind, m.to));
        if need > self.means.plies {
            Plain::Cut(CutBy::Travel)
        } else {
            Plain::Stays(PlainMove { man, need })
        }
    }
}
