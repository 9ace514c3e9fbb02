//! Squares and ranks as a colour sees them: forward, where its men begin, where its king castles.
ghost use Rattle.std.specs.Prelude.{◌≡◌, ◌↔◌, ◌<◌, ◌≤◌, IsTrue};
ghost use Rattle.pg_position.specs.Step.{MustPromote};
ghost use Rattle.pg_board.specs.SquareSets.{IsSetOf};
ghost use Rattle.pg_position.specs.Squares.{ahead, HasAhead, king_home, rook_home, IsCastlingHome, passed_rank};
ghost use Rattle.pg_position.specs.Squares.{home_rank, last_rank, king_crossed, king_target};

use crate::rights::Wing;
use pg_board::{Color, Kind, Square, SquareSet};

/// The square `ranks` ranks forward, which is on the board: towards rank 8 for White, towards rank 1
/// for Black (FIDE article 3.7.1).
#[inline(always)]
pub fn ahead(color: Color, ranks: u8, square: Square) -> Square
    requires { HasAhead color ranks square }
    ensures { result ≡ ahead color ranks square }
{
    let index = square.index();
    match color {
        Color::White => Square::at(index + 8 * ranks),
        Color::Black => Square::at(index - 8 * ranks),
    }
}

/// Whether the square `ranks` ranks forward is on the board.
#[inline(always)]
pub fn has_ahead(color: Color, ranks: u8, square: Square) -> bool
    requires { ranks < 8 }
    ensures { IsTrue result ↔ HasAhead color ranks square }
{
    let index = square.index();
    match color {
        Color::White => index + 8 * ranks < 64,
        Color::Black => index >= 8 * ranks,
    }
}

/// The rank where a game begins with the colour's pawns, 2 or 7 (FIDE article 2.3).
#[inline(always)]
pub fn home_rank(color: Color) -> u8
    ensures value { result ≡ home_rank color }
    ensures bound { result ≤ 8 }
{
    match color {
        Color::White => 2,
        Color::Black => 7,
    }
}

/// The rank furthest from the colour, where its pawns promote, 8 or 1 (FIDE article 3.7.3.3).
#[inline(always)]
pub fn last_rank(color: Color) -> u8
    ensures value { result ≡ last_rank color }
    ensures bound { result ≤ 8 }
{
    match color {
        Color::White => 8,
        Color::Black => 1,
    }
}

/// The rank of a passed square with the colour to move, 6 or 3 (FIDE article 3.7.3.1).
#[inline(always)]
pub fn passed_rank(color: Color) -> u8
    ensures value { result ≡ passed_rank color }
    ensures bound { result ≤ 8 }
{
    match color {
        Color::White => 6,
        Color::Black => 3,
    }
}

/// Whether a man of this kind and colour promotes when it comes to the square: a pawn on its last
/// rank (FIDE article 3.7.3.3).
#[inline(always)]
pub fn must_promote(kind: Kind, color: Color, square: Square) -> bool
    ensures { IsTrue result ↔ MustPromote kind color square }
{
    kind == Kind::Pawn && square.rank() == last_rank(color)
}

/// Where a game begins with the king: e1, e8 (FIDE article 2.3).
pub fn king_home(color: Color) -> Square
    ensures { result ≡ king_home color }
{
    match color {
        Color::White => Square::at(4),
        Color::Black => Square::at(60),
    }
}

/// Where a game begins with the rook of a wing: h1, a1, h8, a8 (FIDE article 2.3).
pub fn rook_home(color: Color, wing: Wing) -> Square
    ensures { result ≡ rook_home color wing }
{
    match color {
        Color::White => match wing {
            Wing::KingSide => Square::at(7),
            Wing::QueenSide => Square::at(0),
        },
        Color::Black => match wing {
            Wing::KingSide => Square::at(63),
            Wing::QueenSide => Square::at(56),
        },
    }
}

/// The squares where a game begins with kings and rooks: a1, e1, h1, a8, e8 and h8 (FIDE article 2.3).
/// A move that touches none of them leaves each right to castle as it was.
#[inline(always)]
pub fn castling_homes() -> SquareSet
    ensures { IsSetOf result IsCastlingHome }
{
    SquareSet::of_bits(0x9100_0000_0000_0091)
}

/// What the castling king crosses, and where the rook comes to stand: f1, d1, f8, d8 (FIDE
/// article 3.8.1).
pub fn king_crossed(color: Color, wing: Wing) -> Square
    ensures { result ≡ king_crossed color wing }
{
    match color {
        Color::White => match wing {
            Wing::KingSide => Square::at(5),
            Wing::QueenSide => Square::at(3),
        },
        Color::Black => match wing {
            Wing::KingSide => Square::at(61),
            Wing::QueenSide => Square::at(59),
        },
    }
}

/// Where the castling king goes: g1, c1, g8, c8 (FIDE article 3.8.1).
pub fn king_target(color: Color, wing: Wing) -> Square
    ensures { result ≡ king_target color wing }
{
    match color {
        Color::White => match wing {
            Wing::KingSide => Square::at(6),
            Wing::QueenSide => Square::at(2),
        },
        Color::Black => match wing {
            Wing::KingSide => Square::at(62),
            Wing::QueenSide => Square::at(58),
        },
    }
}
