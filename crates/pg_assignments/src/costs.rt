//! The costs of rows at columns.
ghost use Rattle.std.specs.Prelude.{◌≡◌, ◌<◌};
ghost use Rattle.pg_assignments.specs.Assignments.{cost};

/// What stands for no cost: the row may not go to the column.
pub const NONE: u8 = 255;

/// What each of the first `size` rows costs at each of the first `size` columns, at most 16: `rows[i][j]` is the cost
/// of row i at column j, from 0 to 254, or 255 (`NONE`) where the row may not go there. What stands beyond them should
/// be 255 too: other numbers there change no answer, but with them it may be the slow search that finds it.
#[derive(Clone, Copy, Debug, PartialEq, Eq)]
pub struct Costs {
    pub size: usize,
    pub rows: [[u8; 16]; 16],
}

impl Costs {
    /// The cost of a row at a column, or 255.
    #[tactic(auto, unfolding(crate::specs::Assignments::cost))]
    pub fn at(&self, row: usize, column: usize) -> u8
        requires row { row < 16 }
        requires column { column < 16 }
        ensures { result ≡ cost self.now row column }
    {
        self.rows[row][column]
    }
}
