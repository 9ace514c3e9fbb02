//! Which man stands where.
ghost use Rattle.std.specs.Prelude.{◌≡◌, ℕ, ◌<◌, ◌≢◌, ◌↔◌, IsTrue, MatchOption, Some, false};
ghost use Rattle.std.specs.Cmp.{partial_equiv_from_equiv, decided};
ghost use Rattle.pg_board.specs.Men.{king_of, is_man, is_of, is_held};
ghost use Rattle.pg_board.specs.Placement.{placement_of, get, empty, put, without, write, IsFirst};
ghost use Rattle.pg_board.specs.Equality.{placement_eq, placement_eq_decides};
ghost use Rattle.pg_board.specs.Tally.{count_of};
ghost use Rattle.pg_board.specs.Bits.{has};
ghost use Rattle.pg_board.specs.inner.Sets.{man_in, IsSound};

use crate::man::{Color, Kind, Man};
use crate::sets::{Sets, color_set, differing, man_at, man_set, relocated, replaced, same_sets};
use crate::square::Square;
use crate::square_set::SquareSet;
use std::marker::Model;

/// Which man stands on each of the 64 squares. Contracts see it as a placement, a finite map from
/// squares to men; it is kept as one 64-bit set of squares for each kind and each colour.
#[derive(Clone, Copy, Debug)]
pub struct Board {
    sets: Sets,
}

impl Model for Board {
    ghost use Rattle.pg_board.specs.Placement.{Placement, placement_of};
    ghost use Rattle.pg_board.specs.lemmas.Codes.{placement_code};
    ghost use Rattle.pg_board.specs.inner.Sets.{man_in, IsSound, sets_of, sets_of-placement_of};

    ghost Value = { Placement };

    ghost coded = { placement_code };

    ghost view = { λ b. placement_of (man_in b.sets) };

    ghost invariant = { λ b. IsSound b.sets };

    ghost inverse = { λ p. record { sets = sets_of p } };

    ghost inverse_ok = { λ b h i. record { sets = sets_of-placement_of b.sets h i } };
}

impl Board {
    /// The board with no man on any square.
    pub fn empty() -> Board
        ensures { result ≡ empty }
    {
        Board {
            sets: Sets {
                pawns: 0,
                knights: 0,
                bishops: 0,
                rooks: 0,
                queens: 0,
                kings: 0,
                white: 0,
                black: 0,
            },
        }
    }

    /// The board of these eight sets, in which each square is in none of them, or in one of a kind and
    /// in one of a colour.
    pub fn of_sets(sets: Sets) -> Board
        requires { IsSound sets }
        ensures { (q : ℕ) → q < 64 → get result q ≡ man_in sets q }
    {
        Board { sets }
    }

    /// The eight sets.
    pub fn sets(&self) -> &Sets
        ensures sound { IsSound result.now }
        ensures shown { placement_of (man_in result.now) ≡ self.now }
    {
        &self.sets
    }

    /// The man on a square; none where it is empty.
    pub fn get(&self, square: Square) -> Option<Man>
        ensures { result ≡ get self.now square }
    {
        man_at(&self.sets, square.index())
    }

    /// Puts a man on a square, in the place of what stood there. The other squares stay as they are.
    pub fn put(&mut self, square: Square, man: Man)
        ensures { self.new ≡ put self.old square man }
    {
        self.sets = replaced(&self.sets, square.index(), Some(man));
    }

    /// Takes what stands on a square away and gives it back; none where the square was empty
    /// already. The other squares stay as they are.
    pub fn take(&mut self, square: Square) -> Option<Man>
        ensures value { result ≡ get self.old square }
        ensures rest { self.new ≡ without self.old square }
    {
        let man = self.get(square);
        self.sets = replaced(&self.sets, square.index(), None);
        man
    }

    /// Takes what stands on `from` to `to`, in the place of what stood there, and leaves `from` empty. The
    /// other squares stay as they are; so does the whole board where both are the same square.
    #[inline(always)]
    pub fn relocate(&mut self, from: Square, to: Square)
        ensures { self.new ≡ write (without self.old from) to (get self.old from) }
    {
        self.sets = relocated(&self.sets, from.index(), to.index());
    }

    /// How many of this man stand on the board, 0 to 64.
    pub fn count(&self, man: Man) -> u8
        ensures { result ≡ count_of self.now man }
    {
        man_set(&self.sets, man).count_ones() as u8
    }

    /// The square of the colour's king: the one with the least index where there are several, none
    /// where there is no such king.
    pub fn king(&self, color: Color) -> Option<Square>
        ensures { MatchOption result ((q : ℕ) → get self.now q ≢ Some (king_of color))
            (λ s. IsFirst self.now (king_of color) s) }
    {
        let kings = man_set(&self.sets, Man::new(color, Kind::King));
        if kings == 0 {
            None
        } else {
            Some(Square::at(kings.trailing_zeros() as u8))
        }
    }

    /// The squares with this man.
    pub fn squares_of(&self, man: Man) -> SquareSet
        ensures { (q : ℕ) → q < 64 → has result q ≡ is_man man (get self.now q) }
    {
        SquareSet::of_bits(man_set(&self.sets, man))
    }

    /// The squares with a man of this colour.
    pub fn squares_of_color(&self, color: Color) -> SquareSet
        ensures { (q : ℕ) → q < 64 → has result q ≡ is_of color (get self.now q) }
    {
        SquareSet::of_bits(color_set(&self.sets, color))
    }

    /// The squares with a man.
    pub fn occupied(&self) -> SquareSet
        ensures { (q : ℕ) → q < 64 → has result q ≡ is_held (get self.now q) }
    {
        SquareSet::of_bits(self.sets.white | self.sets.black)
    }

    /// The squares that do not hold the same on both boards.
    pub fn differing(&self, other: &Board) -> SquareSet
        ensures { (q : ℕ) → q < 64 → (has result q ≡ false) ↔ (get self.now q ≡ get other.now q) }
    {
        SquareSet::of_bits(differing(&self.sets, &other.sets))
    }
}

/// Two boards are equal where they have the same man on each square.
impl PartialEq for Board {
    ghost eq = { placement_eq };

    ghost laws = { partial_equiv_from_equiv (decided placement_eq placement_eq_decides) };

    fn eq(&self, other: &Board) -> bool
        ensures value { result ≡ placement_eq self.now other.now }
        ensures same { IsTrue result ↔ (self.now ≡ other.now) }
    {
        same_sets(&self.sets, &other.sets)
    }
}

impl Eq for Board {
    ghost laws = { decided placement_eq placement_eq_decides };
}
