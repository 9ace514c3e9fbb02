//! The plain moves of an open node, judged before they are made.
ghost use Rattle.std.specs.Prelude.{◌≡◌};

use crate::judge::{Judge, PlainTest};
use crate::led::familiar::Familiar;
use crate::sides::{Change, Side, Sides, is_special, lifted};
use pg_board::{Color, Kind, Man, Square, SquareSet};
use pg_position::{Move, Position};

// What stays the same while the moves of a node are played: its position, at which ply it stands, how many plies are
// left after a move, all men, what is known of the colour that moves, and what judges its plain moves.
#[derive(Clone, Copy)]
pub(crate) struct Scene {
    pub(crate) position: Position,
    pub(crate) ply: usize,
    pub(crate) left: u8,
    occupied: SquareSet,
    own: Side,
    plain_test: PlainTest,
}

// The man of a node whose moves are judged: what changes where he is lifted, and where he goes by familiar moves
// that are no promotions. At first none, on the square 64.
#[derive(Clone, Copy)]
pub(crate) struct LedMover {
    lifted: Change,
    familiar: SquareSet,
    from: u8,
    man: Man,
}

// What is known of a move: it is not plain; or it is, and a cut excludes, or none does, and this is its colour then.
#[derive(Clone, Copy)]
pub(crate) enum LedPlain {
    No,
    Cut,
    Stays(Side),
}

impl LedMover {
    // No man yet.
    pub(crate) fn none() -> LedMover {
        LedMover {
            lifted: Change::none(),
            familiar: SquareSet::empty(),
            from: 64,
            man: Man::new(Color::White, Kind::Pawn),
        }
    }

    // The man on a square is judged from now on.
    #[inline(always)]
    pub(crate) fn turn(&mut self, familiar: &Familiar, position: &Position, from: Square) {
        if self.from == from.index() {
            return;
        }
        if let Some(man) = position.board().get(from) {
            self.from = from.index();
            self.man = man;
            self.familiar = familiar.row(man, from);
            self.lifted = lifted(position.rights(), man, from);
        }
    }

    // Whether a move of the man is familiar.
    #[inline(always)]
    pub(crate) fn is_familiar(&self, familiar: &Familiar, m: &Move) -> bool {
        if m.promotion.is_some() {
            familiar.has(self.man, m)
        } else {
            self.familiar.contains(m.to)
        }
    }
}

impl Scene {
    // What is known of a node at a ply, after whose moves `left` plies are left.
    pub(crate) fn new(
        judge: &Judge,
        position: &Position,
        sides: &Sides,
        ply: usize,
        left: u8,
    ) -> Scene
        ensures { result.position ≡ position.now }
    {
        let color = position.side();
        Scene {
            position: *position,
            ply,
            left,
            occupied: position.board().occupied(),
            own: *sides.of(color),
            plain_test: judge.plain_test(color, sides, left),
        }
    }

    // What is known of a legal move of the man that is judged.
    #[inline(always)]
    pub(crate) fn plain(&self, judge: &Judge, mover: &LedMover, m: &Move) -> LedPlain {
        if self.occupied.contains(m.to) || is_special(mover.man, None, m) {
            return LedPlain::No;
        }
        let change = mover.lifted.with_man(mover.man, m.to);
        match judge.needs_after(&self.plain_test, change.key_after(&self.own)) {
            Some(needs) => LedPlain::Stays(change.applied(&self.own, needs)),
            None => LedPlain::Cut,
        }
    }
}
