//! The other men that could make a move to the same square, and what tells a man apart from them.
ghost use Rattle.std.specs.Prelude.{◌≡◌, ◌≢◌, ◌↔◌, IsTrue};
ghost use Rattle.pg_position.specs.Position.{Stands};
ghost use Rattle.pg_position.specs.Step.{IsLegal};
ghost use Rattle.pg_moves.specs.Targets.{plain_move};
ghost use Rattle.pg_board.specs.SquareSets.{IsSetOf};
ghost use Rattle.pg_san.specs.Writing.{HasRival, IsHint, Counts};

use pg_board::{Kind, Man, Square, SquareSet};
use pg_position::{Move, Position};

/// Which squares count.
#[derive(Clone, Copy, Debug, PartialEq, Eq)]
pub enum Among {
    Anywhere,
    SameFile,
    SameRank,
}

impl Among {
    // Whether the square `other` counts, beside `square`.
    fn counts(self, other: Square, square: Square) -> bool
        ensures { IsTrue result ↔ Counts self other square }
    {
        match self {
            Among::Anywhere => true,
            Among::SameFile => other.file() == square.file(),
            Among::SameRank => other.rank() == square.rank(),
        }
    }
}

/// The file and the rank that tell a man apart, 1 to 8.
#[derive(Clone, Copy, Debug)]
pub struct Hint {
    pub file: Option<u8>,
    pub rank: Option<u8>,
}

fn may_go(position: &Position, from: Square, to: Square) -> bool
    ensures { IsTrue result ↔ IsLegal position.now (plain_move from to) }
{
    let m = Move {
        from,
        to,
        promotion: None,
    };
    position.is_legal(&m)
}

// The squares of the other men of this kind.
fn others(position: &Position, kind: Kind, m: &Move) -> SquareSet
    ensures { IsSetOf result (λ q. Stands position.now.board position.now.side kind q × (q ≢ m.now.from)) }
{
    position.board().squares_of(Man::new(position.side(), kind)) - SquareSet::single(m.from)
}

// Whether the square counts, and a man there has a legal move to the same target.
fn is_rival(position: &Position, m: &Move, among: Among, square: Square) -> bool
    ensures { IsTrue result ↔ (Counts among square m.now.from × IsLegal position.now (plain_move square m.now.to)) }
{
    among.counts(square, m.from) && may_go(position, square, m.to)
}

// Whether another man of this kind, on a square that counts, has a legal move to the same target. Only
// the squares of such men are gone over.
fn has_rival(position: &Position, kind: Kind, m: &Move, among: Among) -> bool
    requires { kind ≢ Kind.Pawn }
    ensures { IsTrue result ↔ HasRival position.now kind m.now among }
{
    let men = others(position, kind, m);
    let mut at = 0;
    while let Some(square) = men.first_from(at) {
        if is_rival(position, m, among, square) {
            return true;
        }
        at = square.index() + 1;
    }
    false
}

/// What tells a man other than a pawn apart.
pub fn hint_of(position: &Position, kind: Kind, m: &Move) -> Hint
    requires { kind ≢ Kind.Pawn }
    ensures { IsHint position.now kind m.now result.file result.rank }
{
    let file = m.from.file();
    let rank = m.from.rank();
    if !has_rival(position, kind, m, Among::Anywhere) {
        Hint {
            file: None,
            rank: None,
        }
    } else if !has_rival(position, kind, m, Among::SameFile) {
        Hint {
            file: Some(file),
            rank: None,
        }
    } else if !has_rival(position, kind, m, Among::SameRank) {
        Hint {
            file: None,
            rank: Some(rank),
        }
    } else {
        Hint {
            file: Some(file),
            rank: Some(rank),
        }
    }
}
