//! Facts on the games that are left, as sets of squares.
ghost use Rattle.std.specs.Prelude.{◌≡◌, ◌<◌, ◌≤◌};
ghost use Rattle.pg_board.specs.SquareSets.{IsSetOf};
ghost use Rattle.pg_board.specs.Squares.{rank as rank_of};
ghost use Rattle.pg_journeys.specs.FirstFacts.{IsWallOf};
ghost use Rattle.pg_journeys.specs.Known.{landing};

use pg_board::{Board, Color, Kind, Man, SquareSet};

/// Facts on the games that are left from one position to a diagram: squares whose men stay, and squares where captures
/// may land. A capture en passant lands where the pawn that takes comes to, and not where the other one stood.
#[derive(Clone, Copy, Debug, PartialEq, Eq)]
pub struct Facts {
    /// The squares whose men stay where they stand in that position, in each of these games.
    pub still: SquareSet,
    /// The squares where White's captures may land.
    pub white: SquareSet,
    /// The squares where Black's captures may land.
    pub black: SquareSet,
}

impl Facts {
    /// The squares where captures by a colour may land.
    pub fn lands(&self, color: Color) -> SquareSet
        ensures { result ≡ landing self.now color }
    {
        match color {
            Color::White => self.white,
            Color::Black => self.black,
        }
    }
}

// The squares of a rank.
pub(crate) fn rank_set(rank: u8) -> SquareSet
    requires low { 1 ≤ rank }
    requires high { rank ≤ 8 }
    ensures { IsSetOf result (λ s. rank_of s ≡ rank) }
{
    SquareSet::of_bits(0xffu64 << (8 * (rank - 1)))
}

/// The walls of a placement: its pawns on their home ranks, of both colours.
pub fn walls(goal: &Board) -> SquareSet
    ensures { IsSetOf result (IsWallOf goal.now) }
{
    (goal.squares_of(Man::new(Color::White, Kind::Pawn)) & rank_set(2))
        | (goal.squares_of(Man::new(Color::Black, Kind::Pawn)) & rank_set(7))
}
