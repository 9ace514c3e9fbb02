//! Where a man has to go whose king would be attacked without him.
ghost use Rattle.std.specs.Prelude.{◌≡◌, ◌≢◌, ℕ, ◌<◌, true, false, None};
ghost use Rattle.pg_board.specs.Bits.{has};
ghost use Rattle.pg_board.specs.Placement.{get};
ghost use Rattle.pg_board.specs.SquareSets.{IsSetOf};
ghost use Rattle.pg_position.specs.Attack.{AttacksFrom, Reaches};
ghost use Rattle.pg_position.specs.Position.{Stands};
ghost use Rattle.pg_moves.specs.Targets.{IsOrdinary};
ghost use Rattle.pg_moves.specs.inner.Sources.{IsExact};
ghost use Rattle.pg_moves.specs.inner.Parries.{IsInVain, IsInShelter, IsLineKind, IsStepKind, IsLineAttacker};
ghost use Rattle.pg_moves.specs.inner.Parries.{IsStepAttacker, AreParries};

use crate::targets::advances;
use pg_board::{Board, Color, Kind, Man, Square, SquareSet};
use pg_position::{Position, attacks_from};

// Where a man may come against men of the colour that are of the kind, or queens, and attack the square
// along the kind's lines: to the square of the only one, or between him and the square. What is seen from there
// along these lines is handed in.
pub(crate) fn line_parries(
    board: &Board,
    square: Square,
    by: Color,
    kind: Kind,
    seen: SquareSet,
) -> SquareSet
    requires kind { IsLineKind kind }
    requires held { get board.now square ≢ None }
    requires seen { IsSetOf seen (Reaches board.now by kind square) }
    ensures { AreParries board.now by square (IsLineAttacker board.now by kind square) result }
{
    // A fact for the proof: the square is on the board.
    square.index();
    let man = Man::new(by, kind);
    let queens = board.squares_of(Man::new(by, Kind::Queen));
    let attackers = seen & (board.squares_of(man) | queens);
    let mut kept = SquareSet::full();
    let mut at = 0;
    while let Some(attacker) = attackers.first_from(at) {
        let between = seen & attacks_from(board, man, attacker);
        kept = kept & (between | SquareSet::single(attacker));
        at = attacker.index() + 1;
    }
    kept
}

// Where a man may come against men of the colour and kind that attack the square by one step: to the square
// of the only one.
fn step_parries(board: &Board, square: Square, by: Color, kind: Kind) -> SquareSet
    requires { IsStepKind kind }
    ensures { AreParries board.now by square (IsStepAttacker board.now by kind square) result }
{
    let men = board.squares_of(Man::new(by, kind));
    let attackers = attacks_from(board, Man::new(by.other(), kind), square) & men;
    let mut kept = SquareSet::full();
    let mut at = 0;
    while let Some(attacker) = attackers.first_from(at) {
        kept = kept & SquareSet::single(attacker);
        at = attacker.index() + 1;
    }
    kept
}

// Where a man may come against men of the colour that attack the square along the lines of the kind.
fn parries_along(board: &Board, square: Square, by: Color, kind: Kind) -> SquareSet
    requires kind { IsLineKind kind }
    requires held { get board.now square ≢ None }
    ensures { AreParries board.now by square (IsLineAttacker board.now by kind square) result }
{
    let seen = attacks_from(board, Man::new(by, kind), square);
    line_parries(board, square, by, kind, seen)
}

// Each square to which a man may come so that the colour attacks the square no more: he takes the man
// that attacks, or stands in between. Where he may come against attacks along lines is handed in.
pub(crate) fn parries_with(
    board: &Board,
    square: Square,
    by: Color,
    straight: SquareSet,
    diagonal: SquareSet,
) -> SquareSet
    requires straight { AreParries board.now by square (IsLineAttacker board.now by Kind.Rook square) straight }
    requires diagonal { AreParries board.now by square (IsLineAttacker board.now by Kind.Bishop square) diagonal }
    ensures { AreParries board.now by square (λ x. AttacksFrom board.now by x square) result }
{
    straight
        & diagonal
        & step_parries(board, square, by, Kind::Knight)
        & step_parries(board, square, by, Kind::Pawn)
        & step_parries(board, square, by, Kind::King)
}

// The same where nothing is known of attacks along lines.
fn all_parries(board: &Board, square: Square, by: Color) -> SquareSet
    requires { get board.now square ≢ None }
    ensures { AreParries board.now by square (λ x. AttacksFrom board.now by x square) result }
{
    let straight = parries_along(board, square, by, Kind::Rook);
    let diagonal = parries_along(board, square, by, Kind::Bishop);
    parries_with(board, square, by, straight, diagonal)
}

// Each square to which the man on `from`, no king, may go, en passant apart, so that his king is not
// attacked.
pub(crate) fn parries(position: &Position, kind: Kind, from: Square) -> SquareSet
    requires stands { Stands position.now.board position.now.side kind from }
    requires king { kind ≢ Kind.King }
    ensures vain { (s : ℕ) → s < 64 → has result s ≡ false → IsInVain position.now from s }
    ensures safe { (s : ℕ) → s < 64 → has result s ≡ true → IsInShelter position.now from s }
{
    let side = position.side();
    let board = position.board();
    match board.king(side) {
        Some(king) => {
            let mut rest = board;
            rest.take(from);
            all_parries(&rest, king, side.other())
        }
        None => unreachable!(),
    }
}

// The squares to which the legal moves of a man go that may be pinned, if he neither promotes nor captures
// en passant: not inlined, since few men may be pinned.
#[inline(never)]
pub(crate) fn parrying(position: &Position, kind: Kind, from: Square) -> SquareSet
    requires stands { Stands position.now.board position.now.side kind from }
    requires king { kind ≢ Kind.King }
    requires ordinary { IsOrdinary position.now kind from }
    ensures { IsExact position.now from result }
{
    // A fact for the proof: the square is on the board.
    from.index();
    let board = position.board();
    advances(&board, position.side(), kind, from) & parries(position, kind, from)
}
