//! Tariffs: what a step costs a colour, and what a capture on a square costs it and spares the other.
ghost use Rattle.std.specs.Prelude.{◌≡◌};
ghost use Rattle.pg_tolls.specs.Stated.{stated};

use pg_board::{Color, Square};

/// A weight for each colour, and a toll for each colour and square, in sixteenths of a ply: what a step of a colour's
/// man costs, and what a capture on the square costs the colour beside it, and spares the other. White's come first,
/// squares go from a1 to h1 and on to h8. All 130 bytes mean something: any tariff makes a bound that is sound.
#[derive(Clone, Copy, Debug, PartialEq, Eq)]
pub struct Tariff {
    pub weights: [u8; 2],
    pub tolls: [[i8; 64]; 2],
}

impl Tariff {
    /// What each step of a man of the colour costs.
    pub fn weight(&self, color: Color) -> u8
        ensures { result ≡ (stated self.now).weight color }
    {
        match color {
            Color::White => self.weights[0],
            Color::Black => self.weights[1],
        }
    }

    /// What a capture by the colour on the square costs it, and spares the other.
    pub fn toll(&self, color: Color, square: Square) -> i8
        ensures { result ≡ (stated self.now).toll color square }
    {
        let at = usize::from(square.index());
        match color {
            Color::White => self.tolls[0][at],
            Color::Black => self.tolls[1][at],
        }
    }
}
