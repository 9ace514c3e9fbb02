//! The men of a colour, one after the other.
ghost use Rattle.std.specs.Prelude.{◌≡◌, ◌<◌, ◌≤◌};
ghost use Rattle.pg_captures.specs.Counting.{men, any_man};
ghost use Rattle.pg_journeys.specs.inner.Sides.{AreMen};
ghost use Rattle.pg_journeys.specs.inner.Makings.{IsAdded};
ghost use Rattle.pg_journeys.specs.inner.Resting.{lifted};

use pg_board::{Board, Color, Kind, Square, SquareSet};

/// The men of a colour, sixteen at most, by their squares in ascending order: the first `count` of each list.
#[derive(Clone, Copy)]
pub struct Men {
    pub count: usize,
    pub kinds: [Kind; 16],
    pub squares: [Square; 16],
}

impl Men {
    // Adds a man.
    fn add(&mut self, kind: Kind, square: Square)
        requires { self.old.count < 16 }
        ensures { IsAdded self.old kind square self.new }
    {
        self.kinds[self.count] = kind;
        self.squares[self.count] = square;
        self.count += 1;
    }
}

/// The men of a colour on a board, without those on a set of squares: at most sixteen are left.
pub fn men_without(board: &Board, color: Color, resting: SquareSet) -> Men
    requires { men color any_man (lifted board.now resting) ≤ 16 }
    ensures all { AreMen (lifted board.now resting) color result }
    ensures count { result.count ≡ men color any_man (lifted board.now resting) }
{
    let mut men = Men {
        count: 0,
        kinds: [Kind::Pawn; 16],
        squares: [Square::at(0); 16],
    };
    let mut left = board.squares_of_color(color) - resting;
    while let Some(square) = left.pop_first() {
        if let Some(man) = board.get(square) {
            men.add(man.kind, square);
        }
    }
    men
}
