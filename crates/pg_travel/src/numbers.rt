//! The number of a man among those of his colour: how many of them stand on the squares before.
ghost use Rattle.std.specs.Prelude.{◌≡◌, ℕ, ◌<◌, ltb};
ghost use Rattle.pg_board.specs.Bits.{has};
ghost use Rattle.pg_board.specs.Tally.{count_below};

use pg_board::{Square, SquareSet};

// The squares before one.
#[inline(always)]
fn squares_before(s: Square) -> SquareSet
    ensures members { (q : ℕ) → has result q ≡ ltb q s }
    ensures bound { s < 64 }
{
    SquareSet::of_bits((1u64 << s.index()) - 1)
}

// How many squares of a set are before one.
#[inline(always)]
pub(crate) fn number_before(set: SquareSet, s: Square) -> u8
    ensures { result ≡ count_below (has set) s }
{
    (set & squares_before(s)).len()
}
