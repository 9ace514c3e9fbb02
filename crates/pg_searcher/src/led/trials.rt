//! The familiar moves of a node, found by the few men that make one.
ghost use Rattle.std.specs.Prelude.{IfSome};
ghost use Rattle.pg_position.specs.Step.{IsLegal};

use crate::led::familiar::Familiar;
use crate::nearing::pseudo_moves;
use pg_board::{Kind, Square, SquareSet};
use pg_position::{Move, Position};

// The familiar moves that are still to be tried: the men of which none was tried yet, where the man that is tried
// stands and still goes, and what he becomes there first, where he is a pawn that promotes.
#[derive(Clone, Copy)]
pub(crate) struct Trials {
    sources: SquareSet,
    targets: SquareSet,
    from: Square,
    promotion: Option<Kind>,
}

// The most men that are tried. With more it is cheaper to go through all legal moves.
const FEW: u8 = 6;

// What a pawn becomes in the move after that by which it becomes this.
fn next_promotion(kind: Kind) -> Option<Kind> {
    match kind {
        Kind::Knight => Some(Kind::Bishop),
        Kind::Bishop => Some(Kind::Rook),
        Kind::Rook => Some(Kind::Queen),
        _ => None,
    }
}

impl Trials {
    // None.
    pub(crate) fn none() -> Trials {
        Trials {
            sources: SquareSet::empty(),
            targets: SquareSet::empty(),
            from: Square::at(0),
            promotion: None,
        }
    }

    // Those of the men of a position that leave their squares in games.
    pub(crate) fn of(familiar: &Familiar, position: &Position) -> Trials {
        let mut trials = Trials::none();
        trials.sources = familiar.sources(&position.board(), position.side());
        trials
    }

    // Whether few men are to be tried.
    pub(crate) fn are_few(&self) -> bool {
        self.sources.len() <= FEW
    }

    // The man on a square is tried from now on.
    fn turn(&mut self, familiar: &Familiar, position: &Position, from: Square) {
        let Some(man) = position.board().get(from) else {
            return;
        };
        let row = familiar.row(man, from);
        self.from = from;
        self.promotion = None;
        self.targets = row & pseudo_moves(position, man, from);
        if man.kind == Kind::Pawn && row.is_empty() {
            self.promotion = Some(Kind::Knight);
            self.targets = familiar.promotions(man, from) & pseudo_moves(position, man, from);
        }
    }

    // The move to a square, which is the first where the man still goes, is tried.
    fn take(&mut self, to: Square) -> Move {
        let m = Move {
            from: self.from,
            to,
            promotion: self.promotion,
        };
        let next = match self.promotion {
            Some(kind) => next_promotion(kind),
            None => None,
        };
        if next.is_none() {
            self.targets = self.targets - SquareSet::single(to);
        }
        if self.promotion.is_some() {
            self.promotion = Some(next.unwrap_or(Kind::Knight));
        }
        m
    }

    // The next move that is tried, in the order of moves.
    fn next(&mut self, familiar: &Familiar, position: &Position) -> Option<Move> {
        for _ in 0..65u8 {
            if let Some(to) = self.targets.first() {
                return Some(self.take(to));
            }
            let Some(from) = self.sources.pop_first() else {
                return None;
            };
            self.turn(familiar, position, from);
        }
        None
    }

    // The next legal one that is not this move.
    pub(crate) fn next_legal(
        &mut self,
        familiar: &Familiar,
        position: &Position,
        but: &Option<Move>,
    ) -> Option<Move>
        ensures { IfSome result (λ m. IsLegal position.now m) }
    {
        for _ in 0..u16::MAX {
            let Some(m) = self.next(familiar, position) else {
                return None;
            };
            if *but != Some(m) && is_familiar(familiar, position, &m) && position.is_legal(&m) {
                return Some(m);
            }
        }
        None
    }
}

// Whether a move that is tried is familiar: each is, but for promotions, of which those to a square are tried where one
// of them is.
fn is_familiar(familiar: &Familiar, position: &Position, m: &Move) -> bool {
    if m.promotion.is_none() {
        return true;
    }
    match position.board().get(m.from) {
        Some(man) => familiar.has(man, m),
        None => false,
    }
}
