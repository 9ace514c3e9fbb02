//! The eight sets, a bit for each square.
ghost use Rattle.std.specs.Prelude.{◌≡◌, ℕ, ◌+◌, ◌<◌, ◌^◌, ◌↔◌, cond, IsTrue, bit_and, eqb, None, true, false};
ghost use Rattle.pg_board.specs.Men.{is_kind, is_of};
ghost use Rattle.pg_board.specs.Bits.{has};
ghost use Rattle.pg_board.specs.inner.Sets.{kind_in, man_in, set_of, set_of_kind, set_of_color, unlike, Replaces};
ghost use Rattle.pg_board.specs.inner.Sets.{AreWords, IsSound};

use crate::man::{Color, Kind, Man};

/// The squares of each kind and of each colour: bit q is the square with index q.
#[derive(Clone, Copy, Debug, PartialEq, Eq)]
pub struct Sets {
    pub pawns: u64,
    pub knights: u64,
    pub bishops: u64,
    pub rooks: u64,
    pub queens: u64,
    pub kings: u64,
    pub white: u64,
    pub black: u64,
}

// Whether a set has a square.
fn contains(set: u64, i: u8) -> bool
    requires { i < 64 }
    ensures { result ≡ has set i }
{
    (set >> i) & 1 == 1
}

/// The set with the square, or without it.
pub fn adjusted(set: u64, i: u8, on: bool) -> u64
    requires { i < 64 }
    ensures bits { (q : ℕ) → q < 64 → has result q ≡ cond (eqb q i) on (has set q) }
    ensures fits { result < 2 ^ 64 }
{
    let bit = 1u64 << i;
    if on { set | bit } else { set & !bit }
}

fn is_of_kind(man: Option<Man>, kind: Kind) -> bool
    ensures { result ≡ is_kind kind man }
{
    match man {
        Some(man) => man.kind == kind,
        None => false,
    }
}

fn is_of_color(man: Option<Man>, color: Color) -> bool
    ensures { result ≡ is_of color man }
{
    match man {
        Some(man) => man.color == color,
        None => false,
    }
}

fn kind_at(sets: &Sets, i: u8) -> Kind
    requires { i < 64 }
    ensures { result ≡ kind_in sets.now i }
{
    if contains(sets.pawns, i) {
        Kind::Pawn
    } else if contains(sets.knights, i) {
        Kind::Knight
    } else if contains(sets.bishops, i) {
        Kind::Bishop
    } else if contains(sets.rooks, i) {
        Kind::Rook
    } else if contains(sets.queens, i) {
        Kind::Queen
    } else {
        Kind::King
    }
}

/// The man on a square.
pub fn man_at(sets: &Sets, i: u8) -> Option<Man>
    requires { i < 64 }
    ensures { result ≡ man_in sets.now i }
{
    if contains(sets.white, i) {
        Some(Man::new(Color::White, kind_at(sets, i)))
    } else if contains(sets.black, i) {
        Some(Man::new(Color::Black, kind_at(sets, i)))
    } else {
        None
    }
}

/// The sets after the square got this man, or none.
pub fn replaced(sets: &Sets, i: u8, man: Option<Man>) -> Sets
    requires { i < 64 }
    ensures square { Replaces sets.now i man result }
    ensures words { AreWords result }
{
    Sets {
        pawns: adjusted(sets.pawns, i, is_of_kind(man, Kind::Pawn)),
        knights: adjusted(sets.knights, i, is_of_kind(man, Kind::Knight)),
        bishops: adjusted(sets.bishops, i, is_of_kind(man, Kind::Bishop)),
        rooks: adjusted(sets.rooks, i, is_of_kind(man, Kind::Rook)),
        queens: adjusted(sets.queens, i, is_of_kind(man, Kind::Queen)),
        kings: adjusted(sets.kings, i, is_of_kind(man, Kind::King)),
        white: adjusted(sets.white, i, is_of_color(man, Color::White)),
        black: adjusted(sets.black, i, is_of_color(man, Color::Black)),
    }
}

// The set in which the square `to` is as `from` was, and `from` is no more; `others` are the squares
// but these two. There is no branch and no choice in it, so that all eight sets are made at once.
#[inline(always)]
fn shifted(set: u64, from: u8, to: u8, others: u64) -> u64
    requires from { from < 64 }
    requires to { to < 64 }
    requires others { (q : ℕ) → q < 64 → has others q ≡ cond (eqb q to) false (cond (eqb q from) false true) }
    ensures bits { (q : ℕ) → q < 64 →
        has result q ≡ cond (eqb q to) (has set from) (cond (eqb q from) false (has set q)) }
    ensures fits { result < 2 ^ 64 }
{
    (set & others) | (((set >> from) & 1) << to)
}

// The squares but these two.
#[inline(always)]
fn all_but(from: u8, to: u8) -> u64
    requires from { from < 64 }
    requires to { to < 64 }
    ensures { (q : ℕ) → q < 64 → has result q ≡ cond (eqb q to) false (cond (eqb q from) false true) }
{
    adjusted(adjusted(u64::MAX, from, false), to, false)
}

/// The sets after what stands on the square `from` went to `to`, in the place of what stood there.
#[inline(always)]
pub fn relocated(sets: &Sets, from: u8, to: u8) -> Sets
    requires from { from < 64 }
    requires to { to < 64 }
    requires sound { IsSound sets.now }
    ensures sound { IsSound result }
    ensures men { (q : ℕ) → q < 64 →
        man_in result q ≡ cond (eqb q to) (man_in sets.now from) (cond (eqb q from) None (man_in sets.now q)) }
{
    let others = all_but(from, to);
    Sets {
        pawns: shifted(sets.pawns, from, to, others),
        knights: shifted(sets.knights, from, to, others),
        bishops: shifted(sets.bishops, from, to, others),
        rooks: shifted(sets.rooks, from, to, others),
        queens: shifted(sets.queens, from, to, others),
        kings: shifted(sets.kings, from, to, others),
        white: shifted(sets.white, from, to, others),
        black: shifted(sets.black, from, to, others),
    }
}

fn kind_set(sets: &Sets, kind: Kind) -> u64
    ensures { result ≡ set_of_kind sets.now kind }
{
    match kind {
        Kind::Pawn => sets.pawns,
        Kind::Knight => sets.knights,
        Kind::Bishop => sets.bishops,
        Kind::Rook => sets.rooks,
        Kind::Queen => sets.queens,
        Kind::King => sets.kings,
    }
}

pub fn color_set(sets: &Sets, color: Color) -> u64
    ensures { result ≡ set_of_color sets.now color }
{
    match color {
        Color::White => sets.white,
        Color::Black => sets.black,
    }
}

/// The squares with this man.
pub fn man_set(sets: &Sets, man: Man) -> u64
    ensures { result ≡ set_of sets.now man }
{
    color_set(sets, man.color) & kind_set(sets, man.kind)
}

pub fn same_sets(a: &Sets, b: &Sets) -> bool
    ensures { IsTrue result ↔ (a.now ≡ b.now) }
{
    *a == *b
}

/// The squares that are in a set of the one and not of the other. Kings need no look: a man of no
/// other kind is a king.
pub fn differing(a: &Sets, b: &Sets) -> u64
    ensures { result ≡ unlike a.now b.now }
{
    (a.white ^ b.white)
        | (a.black ^ b.black)
        | (a.pawns ^ b.pawns)
        | (a.knights ^ b.knights)
        | (a.bishops ^ b.bishops)
        | (a.rooks ^ b.rooks)
        | (a.queens ^ b.queens)
}
