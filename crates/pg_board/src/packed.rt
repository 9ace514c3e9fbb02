//! Boards in 32 bytes.
ghost use Rattle.std.specs.Prelude.{◌≡◌, ◌↔◌, IsTrue};
ghost use Rattle.std.specs.Cmp.{partial_equiv_from_equiv, decided};
ghost use Rattle.pg_board.specs.Equality.{placement_eq, placement_eq_decides};
ghost use Rattle.pg_board.specs.inner.Packed.{quarters_of, unpacked};
ghost use Rattle.pg_board.specs.inner.Sets.{IsSound};

use crate::board::Board;
use crate::sets::Sets;
use std::marker::Model;

// Each kind has a number: pawn 1, knight 2, bishop 3, rook 4, queen 5, king 6; `low`, `middle` and
// `high` are the squares where its three bits are 1.
#[derive(Clone, Copy, Debug, PartialEq, Eq)]
struct Quarters {
    low: u64,
    middle: u64,
    high: u64,
    black: u64,
}

// The four sets of eight.
fn quarters_of(sets: &Sets) -> Quarters
    ensures { result ≡ quarters_of sets.now }
{
    Quarters {
        low: sets.pawns | sets.bishops | sets.queens,
        middle: sets.knights | sets.bishops | sets.kings,
        high: sets.rooks | sets.queens | sets.kings,
        black: sets.black,
    }
}

// The eight sets of four.
fn unpacked(quarters: &Quarters) -> Sets
    ensures { result ≡ unpacked quarters.now }
{
    let bishops = quarters.low & quarters.middle;
    let queens = quarters.low & quarters.high;
    let kings = quarters.middle & quarters.high;
    Sets {
        pawns: quarters.low ^ (bishops | queens),
        knights: quarters.middle ^ (bishops | kings),
        bishops,
        rooks: quarters.high ^ (queens | kings),
        queens,
        kings,
        white: (quarters.low | quarters.middle | quarters.high) ^ quarters.black,
        black: quarters.black,
    }
}

fn same_quarters(a: &Quarters, b: &Quarters) -> bool
    ensures { IsTrue result ↔ (a.now ≡ b.now) }
{
    *a == *b
}

/// A board in 32 bytes, for keeping many of them. Contracts see it as a placement.
#[derive(Clone, Copy, Debug)]
pub struct PackedBoard {
    quarters: Quarters,
}

impl Model for PackedBoard {
    ghost use Rattle.pg_board.specs.Placement.{Placement, placement_of};
    ghost use Rattle.pg_board.specs.lemmas.Codes.{placement_code};
    ghost use Rattle.pg_board.specs.inner.Packed.{quarters_of, unpacked, quarters_back};
    ghost use Rattle.pg_board.specs.inner.Sets.{man_in, IsSound, sets_of};

    ghost Value = { Placement };

    ghost coded = { placement_code };

    ghost view = { λ b. placement_of (man_in (unpacked b.quarters)) };

    ghost invariant = { λ b. IsSound (unpacked b.quarters) };

    ghost inverse = { λ p. record { quarters = quarters_of (sets_of p) } };

    ghost inverse_ok = { λ b h i. record { quarters = quarters_back b.quarters h i } };
}

impl PackedBoard {
    /// The same board.
    pub fn board(&self) -> Board
        ensures { result ≡ self.now }
    {
        Board::of_sets(unpacked(&self.quarters))
    }
}

/// Two packed boards are equal where they are the same board.
impl PartialEq for PackedBoard {
    ghost eq = { placement_eq };

    ghost laws = { partial_equiv_from_equiv (decided placement_eq placement_eq_decides) };

    fn eq(&self, other: &PackedBoard) -> bool
        ensures value { result ≡ placement_eq self.now other.now }
        ensures same { IsTrue result ↔ (self.now ≡ other.now) }
    {
        same_quarters(&self.quarters, &other.quarters)
    }
}

impl Eq for PackedBoard {
    ghost laws = { decided placement_eq placement_eq_decides };
}

impl Board {
    /// The same board in 32 bytes.
    pub fn packed(&self) -> PackedBoard
        ensures { result ≡ self.now }
    {
        PackedBoard {
            quarters: quarters_of(self.sets()),
        }
    }
}
