//! Sets of squares.
ghost use Rattle.std.specs.Prelude.{◌≡◌, ℕ, ◌+◌, ◌<◌, ◌≤◌, ◌^◌, ◌↔◌, ◌&&◌, ◌||◌, not, eqb, IsTrue, IfSome, IfNone};
ghost use Rattle.std.specs.Prelude.{MatchOption, cond, true, false, bit_and, bit_or, count_ones};
ghost use Rattle.std.specs.Int.{bit_not, w64};
ghost use Rattle.pg_board.specs.Bits.{has};
ghost use Rattle.pg_board.specs.Squares.{file, is_dark, is_light, rank};
ghost use Rattle.pg_board.specs.SquareSets.{IsSetOf, Meet, HasNoneFrom, IsFirstFrom, IsLastIn};
ghost use Rattle.pg_board.specs.Tally.{count_below};

use crate::square::Square;
use std::marker::Model;
use std::ops::{BitAnd, BitOr, Sub};

/// A set of squares. Contracts see it as a number: `has set q` is whether the square with index q is
/// in it.
#[derive(Clone, Copy, Debug, PartialEq, Eq)]
pub struct SquareSet {
    bits: u64,
}

impl Model for SquareSet {
    ghost Value = { ℕ };

    ghost view = { λ s. s.bits };

    ghost inverse = { λ n. record { bits = n } };

    ghost invariant = { λ s. s.bits < 2 ^ 64 };
}

impl SquareSet {
    /// The set of no square.
    #[inline(always)]
    pub fn empty() -> SquareSet
        ensures value { result ≡ 0 }
        ensures none { HasNoneFrom result 0 }
    {
        SquareSet { bits: 0 }
    }

    /// The set of all squares.
    #[inline(always)]
    pub fn full() -> SquareSet
        ensures { (q : ℕ) → q < 64 → has result q ≡ true }
    {
        SquareSet { bits: u64::MAX }
    }

    /// The light squares, b1 among them (FIDE article 2.1).
    #[inline(always)]
    pub fn light() -> SquareSet
        ensures { (q : ℕ) → q < 64 → has result q ≡ is_light q }
    {
        SquareSet {
            bits: 0x55aa_55aa_55aa_55aa,
        }
    }

    /// The dark squares, a1 among them (FIDE article 2.1).
    #[inline(always)]
    pub fn dark() -> SquareSet
        ensures { (q : ℕ) → q < 64 → has result q ≡ is_dark q }
    {
        SquareSet {
            bits: 0xaa55_aa55_aa55_aa55,
        }
    }

    /// The squares of the rank with this number; none where it is not one of 1 to 8.
    #[inline(always)]
    pub fn of_rank(number: u8) -> SquareSet
        ensures { IsSetOf result (λ q. rank q ≡ number) }
    {
        if number >= 1 && number <= 8 {
            SquareSet {
                bits: 0xffu64 << (8 * (number - 1)),
            }
        } else {
            SquareSet::empty()
        }
    }

    /// The squares of the file with this number, 1 for a to 8 for h; none where it is another.
    #[inline(always)]
    pub fn of_file(number: u8) -> SquareSet
        ensures { IsSetOf result (λ q. file q ≡ number) }
    {
        if number >= 1 && number <= 8 {
            SquareSet {
                bits: 0x0101_0101_0101_0101u64 << (number - 1),
            }
        } else {
            SquareSet::empty()
        }
    }

    /// The set whose squares are the bits of a number, a1 the lowest.
    #[inline(always)]
    pub fn of_bits(bits: u64) -> SquareSet
        ensures { result ≡ bits }
    {
        SquareSet { bits }
    }

    /// The squares as the bits of a number, a1 the lowest.
    #[inline(always)]
    pub fn bits(self) -> u64
        ensures { result ≡ self }
    {
        self.bits
    }

    /// The set of one square.
    #[inline(always)]
    pub fn single(square: Square) -> SquareSet
        ensures { IsSetOf result (λ q. q ≡ square) }
    {
        SquareSet {
            bits: 1u64 << square.index(),
        }
    }

    /// Whether the square is in the set.
    #[inline(always)]
    pub fn contains(self, square: Square) -> bool
        ensures value { result ≡ has self square }
        ensures bound { square < 64 }
    {
        (self.bits >> square.index()) & 1 == 1
    }

    /// Whether no square is in the set.
    #[inline(always)]
    pub fn is_empty(self) -> bool
        ensures value { result ≡ eqb self 0 }
        ensures none { IsTrue result ↔ HasNoneFrom self 0 }
    {
        self.bits == 0
    }

    /// How many squares are in the set, 0 to 64.
    #[inline(always)]
    pub fn len(self) -> u8
        ensures value { result ≡ count_ones self }
        ensures squares { result ≡ count_below (has self) 64 }
        ensures bound { result ≤ 64 }
    {
        self.bits.count_ones() as u8
    }

    /// Whether some square is in both sets.
    #[inline(always)]
    pub fn meets(self, other: SquareSet) -> bool
        ensures { IsTrue result ↔ Meet self other }
    {
        self.bits & other.bits != 0
    }

    /// The first square of the set, the one with the least index; none where it is empty.
    #[inline(always)]
    pub fn first(self) -> Option<Square>
        ensures { MatchOption result (HasNoneFrom self 0) (λ s. IsFirstFrom self 0 s) }
    {
        if self.bits == 0 {
            None
        } else {
            Some(Square::at(self.bits.trailing_zeros() as u8))
        }
    }

    /// The last square of the set, the one with the greatest index; none where it is empty.
    #[inline(always)]
    pub fn last(self) -> Option<Square>
        ensures { MatchOption result (HasNoneFrom self 0) (λ s. IsLastIn self s) }
    {
        if self.bits == 0 {
            None
        } else {
            Some(Square::at((63 - self.bits.leading_zeros()) as u8))
        }
    }

    /// Takes the first square out of the set; none where it is empty.
    #[inline(always)]
    pub fn pop_first(&mut self) -> Option<Square>
        ensures taken { MatchOption result (HasNoneFrom self.old 0) (λ s. IsFirstFrom self.old 0 s) }
        ensures rest { IfSome result (λ s. (q : ℕ) → q < 64 → has self.new q ≡ cond (eqb q s) false (has self.old q)) }
        ensures none { IfNone result (self.new ≡ self.old) }
    {
        match self.first() {
            Some(square) => {
                // What `n & (n - 1)` leaves: the wait for the square's number is not one for the rest of the set.
                let rest = *self - self.up_to_first();
                *self = rest;
                Some(square)
            }
            None => None,
        }
    }

    /// The first square of the set from the index `from` on; none where the set has no such square,
    /// as from 64 on.
    #[inline(always)]
    pub fn first_from(self, from: u8) -> Option<Square>
        ensures { MatchOption result (HasNoneFrom self from) (λ s. IsFirstFrom self from s) }
    {
        if from >= 64 {
            return None;
        }
        let rest = self.bits & (u64::MAX << from);
        if rest == 0 {
            None
        } else {
            Some(Square::at(rest.trailing_zeros() as u8))
        }
    }

    /// The squares up to the first of the set, that one too; all where the set is empty.
    #[inline(always)]
    pub fn up_to_first(self) -> SquareSet
        ensures { IsSetOf result (λ q. (t : ℕ) → t < q → has self t ≡ false) }
    {
        // Up to its first bit, and no further, a number has each bit unlike the number before it.
        SquareSet {
            bits: self.bits ^ self.bits.wrapping_sub(1),
        }
    }

    /// The squares from the last of the set on, that one too; all where the set is empty.
    #[inline(always)]
    pub fn from_last(self) -> SquareSet
        ensures { IsSetOf result (λ q. (t : ℕ) → q < t → t < 64 → has self t ≡ false) }
    {
        // With a1 in the set it has a last square, and the squares from that one on stay the same.
        let last = 63 - (self.bits | 1).leading_zeros();
        SquareSet {
            bits: u64::MAX << last,
        }
    }

    /// The squares of the set in ascending order.
    #[inline(always)]
    pub fn squares(self) -> Squares
        ensures set { result.set ≡ self }
        ensures all { result.from ≡ 0 }
    {
        Squares { set: self, from: 0 }
    }
}

/// The squares that are in both sets.
impl BitAnd for SquareSet {
    type Output = SquareSet;

    ghost bitand_gives = { λ a b r. r ≡ bit_and a b };

    #[inline(always)]
    fn bitand(self, other: SquareSet) -> SquareSet
        ensures value { result ≡ bit_and self other }
        ensures members { (q : ℕ) → has result q ≡ (has self q && has other q) }
    {
        SquareSet {
            bits: self.bits & other.bits,
        }
    }
}

/// The squares that are in one of the sets, or in both.
impl BitOr for SquareSet {
    type Output = SquareSet;

    ghost bitor_gives = { λ a b r. r ≡ bit_or a b };

    #[inline(always)]
    fn bitor(self, other: SquareSet) -> SquareSet
        ensures value { result ≡ bit_or self other }
        ensures members { (q : ℕ) → has result q ≡ (has self q || has other q) }
    {
        SquareSet {
            bits: self.bits | other.bits,
        }
    }
}

/// The squares that are in the first set and not in the second.
impl Sub for SquareSet {
    type Output = SquareSet;

    ghost sub_gives = { λ a b r. r ≡ bit_and a (bit_not w64 b) };

    #[inline(always)]
    fn sub(self, other: SquareSet) -> SquareSet
        ensures value { result ≡ bit_and self (bit_not w64 other) }
        ensures members { (q : ℕ) → q < 64 → has result q ≡ (has self q && not (has other q)) }
    {
        SquareSet {
            bits: self.bits & !other.bits,
        }
    }
}

/// The squares of a set, one at a time in ascending order: those from the index `from` on are left.
#[derive(Clone, Copy, Debug, PartialEq, Eq)]
pub struct Squares {
    pub set: SquareSet,
    pub from: u8,
}

impl Squares {
    /// Takes the first square that is left; none where none is left.
    #[inline(always)]
    pub fn next(&mut self) -> Option<Square>
        ensures same { self.new.set ≡ self.old.set }
        ensures found { MatchOption result (HasNoneFrom self.old.set self.old.from)
            (λ s. IsFirstFrom self.old.set self.old.from s) }
        ensures beyond { IfSome result (λ s. self.new.from ≡ s + 1) }
        ensures none { IfNone result (self.new ≡ self.old) }
    {
        match self.set.first_from(self.from) {
            Some(square) => {
                self.from = square.index() + 1;
                Some(square)
            }
            None => None,
        }
    }
}
