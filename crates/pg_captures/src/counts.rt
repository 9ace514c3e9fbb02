//! Counting men on a board by its sets of squares.
ghost use Rattle.std.specs.Prelude.{◌≡◌, ℕ, ◌<◌, ◌≤◌};
ghost use Rattle.pg_board.specs.Bits.{has};
ghost use Rattle.pg_board.specs.Men.{passes};
ghost use Rattle.pg_board.specs.Placement.{get};
ghost use Rattle.pg_captures.specs.Counting.{of_color, men, any_man, any_pawn, in_class};

use crate::classes::Class;
use pg_board::{Board, Color, Kind, Man, SquareSet};

/// How many men the colour has.
pub fn all_men(board: &Board, color: Color) -> u8
    ensures value { result ≡ men color any_man board.now }
    ensures few { result ≤ 64 }
{
    board.squares_of_color(color).len()
}

/// How many pawns the colour has.
pub fn pawns(board: &Board, color: Color) -> u8
    ensures value { result ≡ men color any_pawn board.now }
    ensures few { result ≤ 64 }
{
    board.count(Man::new(color, Kind::Pawn))
}

// The squares of the colour's men of a class.
fn class_set(board: &Board, color: Color, class: Class) -> SquareSet
    ensures { (q : ℕ) → q < 64 → has result q ≡ passes (of_color color (in_class class) q) (get board.now q) }
{
    match class {
        Class::Queens => board.squares_of(Man::new(color, Kind::Queen)),
        Class::Rooks => board.squares_of(Man::new(color, Kind::Rook)),
        Class::Knights => board.squares_of(Man::new(color, Kind::Knight)),
        Class::LightBishops => {
            board.squares_of(Man::new(color, Kind::Bishop)) & SquareSet::light()
        }
        Class::DarkBishops => {
            board.squares_of(Man::new(color, Kind::Bishop)) & SquareSet::dark()
        }
    }
}

/// How many men of a class the colour has.
pub fn class_men(board: &Board, color: Color, class: Class) -> u8
    ensures value { result ≡ men color (in_class class) board.now }
    ensures few { result ≤ 64 }
{
    class_set(board, color, class).len()
}
