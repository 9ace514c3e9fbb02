//! One colour's half of a bound by tolls: what its men are charged.
ghost use Rattle.std.specs.Prelude.{◌≡◌, ℕ, get_or};
ghost use Rattle.pg_tolls.specs.inner.Tables.{entry};

use pg_board::{Color, Kind, Square, SquareSet};
use pg_journeys::Men;

// One colour's half of a bound: what a step weighs, what a man costs who is captured on a square (127 less the other
// colour's toll there), the squares that are no walls, the colour's men of the diagram, and the table of what walks
// are charged, a row for each number of marks, kind and square.
#[derive(Drop)]
pub(crate) struct Half {
    pub(crate) color: Color,
    pub(crate) weight: u8,
    pub(crate) lost: [u8; 64],
    pub(crate) free: SquareSet,
    pub(crate) goals: Men,
    pub(crate) rows: Vec<[u16; 16]>,
}

// The row of a man of a kind on a square who has `marks` marks left.
pub(crate) fn charges(half: &Half, marks: u8, kind: Kind, square: Square) -> [u16; 16]
    ensures { (e : ℕ) → get_or result e 0 ≡ entry half.now.rows.items marks kind square e }
{
    let kinds = usize::from(marks) * 6 + usize::from(kind.number());
    match half.rows.get(kinds * 64 + usize::from(square.index())) {
        Some(row) => *row,
        None => [0; 16],
    }
}
