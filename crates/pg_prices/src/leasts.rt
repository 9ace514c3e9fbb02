//! The least distances of a colour's men to the targets, kept so that one man can be counted on another square.

use crate::assignment::MOST_MEN;
use crate::rows::{KINDS, Rows};
use pg_board::{Board, Color, Kind, Man, Square, SquareSet};
use pg_position::{Rights, Wing, king_home, rook_home};
use std::simd::u8x16;

// Rows are gone through as vectors: a loop over the numbers of an array keeps it in memory from one man to the next.

// For each target the least distance of a man to it, and the least one of the others.
#[derive(Clone, Copy)]
struct Two {
    first: [u8; MOST_MEN],
    second: [u8; MOST_MEN],
}

// With a man more that has these distances.
#[inline(always)]
fn entered(two: Two, row: [u8; MOST_MEN]) -> Two {
    let row = u8x16::from_array(row);
    let first = u8x16::from_array(two.first);
    let second = u8x16::from_array(two.second);
    let behind = first.simd_max(row);
    Two {
        first: first.simd_min(row).to_array(),
        second: second.simd_min(behind).to_array(),
    }
}

// The least distances without the man that has these. Where another is as near to a target, the second is the same.
#[inline(always)]
fn without(two: Two, row: [u8; MOST_MEN]) -> [u8; MOST_MEN] {
    let first = u8x16::from_array(two.first);
    let second = u8x16::from_array(two.second);
    let are_his = first.simd_eq(u8x16::from_array(row));
    are_his.select(second, first).to_array()
}

// The sum of the lesser of two distances to each target.
#[inline(always)]
fn sum_of_least(a: [u8; MOST_MEN], b: [u8; MOST_MEN]) -> u16 {
    let least = u8x16::from_array(a).simd_min(u8x16::from_array(b));
    sum_of(least.to_array())
}

// With these men of a kind more.
#[inline(always)]
fn with_men(two: Two, rows: &Rows, kind: Kind, men: SquareSet) -> Two {
    let mut two = two;
    let mut men = men;
    for _ in 0..64u8 {
        let Some(square) = men.pop_first() else {
            return two;
        };
        two = entered(two, rows.distances(kind, square));
    }
    two
}

// The least distances of the men of a board on some squares.
fn least_of(rows: &Rows, board: &Board, squares: SquareSet) -> Two {
    let none = rows.without_men();
    let mut two = Two {
        first: none,
        second: none,
    };
    for kind in KINDS {
        let men = board.squares_of(Man::new(rows.color(), kind));
        two = with_men(two, rows, kind, men & squares);
    }
    two
}

// The squares that a king and a rook leave when they castle.
fn homes(color: Color, wing: Wing) -> SquareSet {
    SquareSet::single(king_home(color)) | SquareSet::single(rook_home(color, wing))
}

// The squares of the king and the rooks that may castle.
fn castling_men(color: Color, rights: Rights) -> SquareSet {
    let mut men = SquareSet::empty();
    for wing in [Wing::KingSide, Wing::QueenSide] {
        if rights.holds(color, wing) {
            men = men | homes(color, wing);
        }
    }
    men
}

// A way with castling: the squares that king and rook leave, and the least distances with both where they
// castle to.
#[derive(Clone, Copy)]
struct Castled {
    homes: SquareSet,
    least: Two,
}

// The way of a wing, by the least distances of the men that cannot castle; none where it never takes fewer plies than
// the way without castling.
fn way_of(two: Two, rows: &Rows, rights: Rights, wing: Wing, other: Wing) -> Option<Castled> {
    let color = rows.color();
    if !rights.holds(color, wing) || !rows.may_pay(wing) {
        return None;
    }
    let (king, rook) = rows.castled_distances(wing);
    let mut least = entered(entered(two, king), rook);
    if rights.holds(color, other) {
        least = entered(least, rows.distances(Kind::Rook, rook_home(color, other)));
    }
    Some(Castled {
        homes: homes(color, wing),
        least,
    })
}

// The way without castling, by the least distances of the men that cannot castle.
fn free(two: Two, rows: &Rows, board: &Board, men: SquareSet) -> Two {
    let color = rows.color();
    let mut least = two;
    for kind in [Kind::Rook, Kind::King] {
        let standing = board.squares_of(Man::new(color, kind));
        least = with_men(least, rows, kind, standing & men);
    }
    least
}

/// The least distances of the men of a colour to the targets, for each way that its rights allow and that may take
/// fewer plies than the one without castling, kept so that any man can be left out.
#[derive(Clone, Copy)]
pub struct Leasts {
    free: Two,
    king_side: Option<Castled>,
    queen_side: Option<Castled>,
}

/// The least distances of all men of a colour but one to the targets, for each way that is left when that one moves.
#[derive(Clone, Copy)]
pub struct Rest {
    free: [u8; MOST_MEN],
    king_side: Option<[u8; MOST_MEN]>,
    queen_side: Option<[u8; MOST_MEN]>,
}

// A way with castling without a man on a square who has these distances; none where he is needed for it.
fn castled_without(
    way: &Option<Castled>,
    square: Square,
    row: [u8; MOST_MEN],
) -> Option<[u8; MOST_MEN]> {
    match way {
        Some(castled) if !castled.homes.contains(square) => Some(without(castled.least, row)),
        _ => None,
    }
}

// The sum of the least distances to all targets.
#[inline(always)]
fn sum_of(least: [u8; MOST_MEN]) -> u16 {
    let mut sum = 0u16;
    for t in 0..MOST_MEN {
        sum = sum.wrapping_add(u16::from(least[t]));
    }
    sum
}

// The least distances that a move may lower: no man has 255, which stands for those to targets that are reached
// already.
fn lowerable(least: [u8; MOST_MEN]) -> [u8; MOST_MEN] {
    let least = u8x16::from_array(least);
    let are_reached = least.simd_eq(u8x16::splat(0));
    are_reached.select(u8x16::splat(255), least).to_array()
}

// How many of the least distances are those of a man.
#[inline(always)]
fn count_own(least: [u8; MOST_MEN], row: [u8; MOST_MEN]) -> u32 {
    let are_his = u8x16::from_array(least).simd_eq(u8x16::from_array(row));
    are_his.to_bitmask().count_ones()
}

// The men of a kind of whom fewer than `most` of the least distances are.
#[inline(always)]
fn of_few(least: [u8; MOST_MEN], most: u32, rows: &Rows, kind: Kind, men: SquareSet) -> SquareSet {
    let mut few = SquareSet::empty();
    let mut men = men;
    for _ in 0..64u8 {
        let Some(square) = men.pop_first() else {
            return few;
        };
        if count_own(least, rows.distances(kind, square)) < most {
            few = few | SquareSet::single(square);
        }
    }
    few
}

// The men of a board after any move of whom the sum of the least distances and `more` is above `plies`. A
// move brings a man nearer to a target by one at most, which lowers the sum by one only where no man was nearer to it.
// So all that has to be known of a man is how many of the least distances are his.
fn cut_off_by(two: &Two, more: u16, plies: u8, rows: &Rows, board: &Board) -> SquareSet {
    let sum = sum_of(two.first).saturating_add(more);
    let above = u32::from(sum.saturating_sub(u16::from(plies)));
    let mut men = SquareSet::empty();
    if above == 0 {
        return men;
    }
    let least = lowerable(two.first);
    for kind in KINDS {
        let all = board.squares_of(Man::new(rows.color(), kind));
        men = men | of_few(least, above, rows, kind, all);
    }
    men
}

// The same for a way with castling, which takes a ply more and is none for the men that castle.
fn cut_off_castled(way: &Option<Castled>, plies: u8, rows: &Rows, board: &Board) -> SquareSet {
    match way {
        Some(castled) => castled.homes | cut_off_by(&castled.least, 1, plies, rows, board),
        None => SquareSet::full(),
    }
}

impl Leasts {
    /// No man and no target.
    pub fn none() -> Leasts {
        Leasts {
            free: Two {
                first: [0; MOST_MEN],
                second: [0; MOST_MEN],
            },
            king_side: None,
            queen_side: None,
        }
    }

    /// The least distances of the men of a board, with these rights.
    pub fn new(rows: &Rows, board: &Board, rights: Rights) -> Leasts {
        let men = castling_men(rows.color(), rights);
        let abroad = least_of(rows, board, SquareSet::full() - men);
        let (short, long) = (Wing::KingSide, Wing::QueenSide);
        Leasts {
            free: free(abroad, rows, board, men),
            king_side: way_of(abroad, rows, rights, short, long),
            queen_side: way_of(abroad, rows, rights, long, short),
        }
    }

    /// The men of a board after each move of whom, whatever its square, the least distances sum to more than `plies` in
    /// each way, with or without castling, so that the need of travel is above them: no move brings a man
    /// nearer to a target than by one. The board is that of which these distances are.
    pub fn cut_off(&self, rows: &Rows, board: &Board, plies: u8) -> SquareSet {
        let men = cut_off_by(&self.free, 0, plies, rows, board);
        let short = cut_off_castled(&self.king_side, plies, rows, board);
        let long = cut_off_castled(&self.queen_side, plies, rows, board);
        men & short & long
    }

    // The need of travel.
    pub(crate) fn need(&self) -> u16 {
        let mut need = sum_of(self.free.first);
        if let Some(castled) = &self.king_side {
            need = need.min(sum_of(castled.least.first).saturating_add(1));
        }
        if let Some(castled) = &self.queen_side {
            need = need.min(sum_of(castled.least.first).saturating_add(1));
        }
        need
    }

    /// The least distances without the man of this kind on a square.
    pub fn without(&self, rows: &Rows, kind: Kind, square: Square) -> Rest {
        let row = rows.distances(kind, square);
        Rest {
            free: without(self.free, row),
            king_side: castled_without(&self.king_side, square, row),
            queen_side: castled_without(&self.queen_side, square, row),
        }
    }
}

impl Rest {
    /// No man and no target.
    pub fn none() -> Rest {
        Rest {
            free: [0; MOST_MEN],
            king_side: None,
            queen_side: None,
        }
    }

    /// The need of travel where the man that was left out has these distances, at most 250.
    pub fn need(&self, row: [u8; MOST_MEN]) -> u8 {
        let mut need = sum_of_least(self.free, row);
        if let Some(least) = &self.king_side {
            need = need.min(sum_of_least(*least, row).saturating_add(1));
        }
        if let Some(least) = &self.queen_side {
            need = need.min(sum_of_least(*least, row).saturating_add(1));
        }
        need.min(250) as u8
    }
}
