//! Castling rights.
ghost use Rattle.std.specs.Prelude.{◌≡◌};
ghost use Rattle.pg_position.specs.Position.{holds};

use pg_board::Color;

/// The two sides of the board to which a king castles (FIDE article 3.8).
#[derive(Clone, Copy, Debug, PartialEq, Eq)]
pub enum Wing {
    /// Towards the h-file.
    KingSide,
    /// Towards the a-file.
    QueenSide,
}

/// Which rights to castle are held: `K`, `Q`, `k` and `q` of a FEN (FIDE article 3.8.2.1; PGN
/// standard, section 16.1.3.3).
#[derive(Clone, Copy, Debug, PartialEq, Eq, Hash)]
pub struct Rights {
    /// White towards the h-file, `K`.
    pub white_king: bool,
    /// White towards the a-file, `Q`.
    pub white_queen: bool,
    /// Black towards the h-file, `k`.
    pub black_king: bool,
    /// Black towards the a-file, `q`.
    pub black_queen: bool,
}

impl Rights {
    /// Whether the colour may still castle towards the wing: neither its king nor that rook has moved
    /// (FIDE article 3.8.2.1).
    pub fn holds(&self, color: Color, wing: Wing) -> bool
        ensures { result ≡ holds self.now color wing }
    {
        match color {
            Color::White => match wing {
                Wing::KingSide => self.white_king,
                Wing::QueenSide => self.white_queen,
            },
            Color::Black => match wing {
                Wing::KingSide => self.black_king,
                Wing::QueenSide => self.black_queen,
            },
        }
    }
}
