//! What keeps the king of the side to move: which men may be pinned, and where the others have to go.
ghost use Rattle.std.specs.Prelude.{◌≡◌, ◌≢◌, ℕ, ◌<◌, false, None};
ghost use Rattle.pg_board.specs.Bits.{has};
ghost use Rattle.pg_board.specs.Men.{other};
ghost use Rattle.pg_board.specs.Placement.{get};
ghost use Rattle.pg_position.specs.Position.{Stands};
ghost use Rattle.pg_moves.specs.Targets.{IsOwn};
ghost use Rattle.pg_moves.specs.inner.Guards.{GuardsOff};
ghost use Rattle.pg_moves.specs.inner.Parries.{AreParries, IsLineAttacker, IsLineKind, IsPinnedAlong};

use crate::parries::{line_parries, parries_with};
use crate::pawns::home;
use crate::pins::{attacked_alone, men_of};
use crate::player::Player;
use pg_board::{Board, Color, Kind, Man, Square, SquareSet};
use pg_position::attacks_from;

// The king, the squares of him and of men that may be pinned, and the squares to which all other men may
// go so that he is not attacked.
#[derive(Clone, Copy)]
pub(crate) struct Guard {
    pub(crate) pinned: SquareSet,
    pub(crate) goals: SquareSet,
    pub(crate) king: Square,
}

// Of the lines of a kind: the men that may be pinned there, and where a man may come against the attacks along them.
#[derive(Clone, Copy)]
struct Lines {
    pinned: SquareSet,
    kept: SquareSet,
}

// The men that a slider of the other colour sees from one side and the square from the other, along the lines of
// the kind: of the colour's men those that are pinned there, and no others; and the parries along these lines.
// Where no slider would attack with none of the colour's men on the board, there is nothing to look for.
fn pinned_along(board: &Board, square: Square, color: Color, kind: Kind) -> Lines
    requires kind { IsLineKind kind }
    requires held { get board.now square ≢ None }
    ensures pinned { (r : ℕ) → r < 64 → IsOwn board.now color r → has result.pinned r ≡ false
        → ¬ IsPinnedAlong board.now color kind square r }
    ensures kept { AreParries board.now (other color) square
        (IsLineAttacker board.now (other color) kind square) result.kept }
{
    let by = color.other();
    let man = Man::new(by, kind);
    let queens = board.squares_of(Man::new(by, Kind::Queen));
    let sliders = board.squares_of(man) | queens;
    let attackers = attacks_from(&men_of(board, by), man, square) & sliders;
    if attackers.is_empty() {
        return Lines {
            pinned: SquareSet::empty(),
            kept: SquareSet::full(),
        };
    }
    let seen = attacks_from(board, man, square);
    let mut found = SquareSet::empty();
    let mut left = attackers - seen;
    while let Some(attacker) = left.pop_first() {
        found = found | (seen & attacks_from(board, man, attacker));
    }
    Lines {
        pinned: found,
        kept: line_parries(board, square, by, kind, seen),
    }
}

// Whether there is none whom to guard serves: besides the king only pawns that promote, whose moves are tried one
// by one.
#[inline(always)]
fn guards_none(board: &Board, color: Color, king: Square) -> bool {
    let pawns = board.squares_of(Man::new(color, Kind::Pawn)) & home(color.other());
    (board.squares_of_color(color) - SquareSet::single(king) - pawns).is_empty()
}

// The parries of an attack hold for each man that covers the king from no other: so they are found once for
// all of them, and only men that may be pinned are lifted off the board, each for himself.
#[inline(always)]
pub(crate) fn find_guard(player: &Player<'_>) -> Guard
    ensures king { Stands player.now.board player.now.side Kind.King result.king }
    ensures guards { GuardsOff player.now result.pinned result.goals }
{
    let side = player.color();
    let board = player.board();
    match board.king(side) {
        Some(king) => {
            if !attacked_alone(board, king, side) {
                Guard {
                    pinned: SquareSet::single(king),
                    goals: SquareSet::full(),
                    king,
                }
            } else if guards_none(board, side, king) {
                Guard {
                    pinned: SquareSet::full(),
                    goals: SquareSet::full(),
                    king,
                }
            } else {
                let straight = pinned_along(board, king, side, Kind::Rook);
                let diagonal = pinned_along(board, king, side, Kind::Bishop);
                Guard {
                    pinned: straight.pinned | diagonal.pinned | SquareSet::single(king),
                    goals: parries_with(board, king, side.other(), straight.kept, diagonal.kept),
                    king,
                }
            }
        }
        None => unreachable!(),
    }
}
