//! Colours, kinds and men.
ghost use Rattle.std.specs.Prelude.{◌≡◌, ◌<◌};
ghost use Rattle.pg_board.specs.Men.{man, number_of_kind, other};

/// The two sides (FIDE article 1.1).
#[derive(Clone, Copy, Debug, PartialEq, Eq, PartialOrd, Ord, Hash)]
pub enum Color {
    White,
    Black,
}

impl Color {
    /// The opponent's colour.
    pub fn other(self) -> Color
        ensures { result ≡ other self }
    {
        match self {
            Color::White => Color::Black,
            Color::Black => Color::White,
        }
    }
}

/// The six kinds of men, in the order by which moves are sorted (FIDE article 2.2).
#[derive(Clone, Copy, Debug, PartialEq, Eq, PartialOrd, Ord, Hash)]
pub enum Kind {
    Pawn,
    Knight,
    Bishop,
    Rook,
    Queen,
    King,
}

impl Kind {
    /// The kind's place in that order, 0 for a pawn to 5 for a king.
    pub fn number(self) -> u8
        ensures value { result ≡ number_of_kind self }
        ensures bound { result < 6 }
    {
        match self {
            Kind::Pawn => 0,
            Kind::Knight => 1,
            Kind::Bishop => 2,
            Kind::Rook => 3,
            Kind::Queen => 4,
            Kind::King => 5,
        }
    }
}

/// A man of the board: a pawn or a piece of one colour (FIDE article 2.2).
#[derive(Clone, Copy, Debug, PartialEq, Eq, PartialOrd, Ord, Hash)]
pub struct Man {
    pub color: Color,
    pub kind: Kind,
}

impl Man {
    /// The man of a colour and a kind.
    #[inline(always)]
    pub fn new(color: Color, kind: Kind) -> Man
        ensures { result ≡ man color kind }
    {
        Man { color, kind }
    }
}
