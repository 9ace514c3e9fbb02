//! The men of a diagram that do not stand where they are to stand.
ghost use Rattle.std.specs.Prelude.{◌≡◌, ℕ, ◌<◌, ◌⊎◌};
ghost use Rattle.pg_board.specs.SquareSets.{IsSetOf};
ghost use Rattle.pg_position.specs.Squares.{king_crossed, king_target};
ghost use Rattle.pg_travel.specs.inner.Within.{CostsOnly, CostsEach};

use pg_board::{Board, Color, SquareSet};
use pg_position::{Wing, castling_homes, king_crossed, king_target};

// The squares whose men may cost something.
pub(crate) fn to_come(board: &Board, goal: &Board, color: Color, way: Option<Wing>) -> SquareSet
    ensures { CostsOnly board.now goal.now color way result }
{
    let own = goal.squares_of_color(color);
    let moved = board.differing(goal);
    match way {
        None => own & moved,
        Some(_) => own & (moved | castling_homes()),
    }
}

// Where the castling king goes, and what it crosses.
#[inline(always)]
fn target_and_crossed(color: Color, wing: Wing) -> SquareSet
    ensures { IsSetOf result (λ q. (q ≡ king_target color wing) ⊎ (q ≡ king_crossed color wing)) }
{
    SquareSet::single(king_target(color, wing)) | SquareSet::single(king_crossed(color, wing))
}

// The squares that castling brings king and rook to. Each case stands apart, so that the sets are
// four constants to choose from.
pub(crate) fn castled_squares(color: Color, wing: Wing) -> SquareSet
    ensures { IsSetOf result (λ q. (q ≡ king_target color wing) ⊎ (q ≡ king_crossed color wing)) }
{
    match color {
        Color::White => match wing {
            Wing::KingSide => target_and_crossed(Color::White, Wing::KingSide),
            Wing::QueenSide => target_and_crossed(Color::White, Wing::QueenSide),
        },
        Color::Black => match wing {
            Wing::KingSide => target_and_crossed(Color::Black, Wing::KingSide),
            Wing::QueenSide => target_and_crossed(Color::Black, Wing::QueenSide),
        },
    }
}

// Squares each of whose men costs something.
pub(crate) fn sure_to_cost(
    board: &Board,
    goal: &Board,
    color: Color,
    way: Option<Wing>,
) -> SquareSet
    ensures { CostsEach board.now goal.now color way result }
{
    let own = goal.squares_of_color(color);
    let moved = board.differing(goal);
    match way {
        None => own & moved,
        Some(wing) => (own & moved) - castled_squares(color, wing),
    }
}
