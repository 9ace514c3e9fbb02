//! Distances: the least number of steps of a man that is alone on the board. 64 stands for none.
ghost use Rattle.std.specs.Prelude.{◌≡◌, ◌≢◌, ℕ, ◌+◌, ◌-◌, ◌*◌, ◌/◌, ◌%◌, ◌<◌, ◌≤◌, ◌&&◌, ◌||◌, cond, eqb, min, max};
ghost use Rattle.std.specs.Prelude.{IsTrue};
ghost use Rattle.pg_travel.specs.Walks.{DistanceIs};
ghost use Rattle.pg_travel.specs.inner.Formulas.{files, ranks, king, rook, bishop, queen, knight, is_corner, long_way};
ghost use Rattle.pg_travel.specs.inner.Formulas.{knight_by, piece, rank_for};
ghost use Rattle.pg_travel.specs.inner.Formulas.{mirrored, pawn, soonest, is_promoted, least_steps, from_pawn};
ghost use Rattle.pg_travel.specs.inner.Formulas.{distance_of};
ghost use Rattle.pg_travel.specs.inner.Promoted.{told, ArePromoted};

use crate::pawn_table::WHITE_PAWN;
use crate::promotion_table::WHITE_PROMOTED;
use pg_board::{Color, Kind, Man, Square};

fn files(from: Square, to: Square) -> u8
    ensures value { result ≡ files from to }
    ensures low { result < 8 }
{
    from.file().abs_diff(to.file())
}

fn ranks(from: Square, to: Square) -> u8
    ensures value { result ≡ ranks from to }
    ensures low { result < 8 }
{
    // Facts for the proof: both squares are on the board.
    from.index();
    to.index();
    from.rank().abs_diff(to.rank())
}

#[tactic(auto, unfolding(crate::specs::inner::Formulas::king))]
fn king_steps(from: Square, to: Square) -> u8
    ensures value { result ≡ king from to }
    ensures low { result ≤ 64 }
{
    files(from, to).max(ranks(from, to))
}

#[tactic(auto, unfolding(crate::specs::inner::Formulas::rook))]
fn rook_steps(from: Square, to: Square) -> u8
    ensures value { result ≡ rook from to }
    ensures low { result ≤ 64 }
{
    if from.index() == to.index() {
        0
    } else if files(from, to) == 0 || ranks(from, to) == 0 {
        1
    } else {
        2
    }
}

#[tactic(auto, unfolding(crate::specs::inner::Formulas::bishop))]
fn bishop_steps(from: Square, to: Square) -> u8
    ensures value { result ≡ bishop from to }
    ensures low { result ≤ 64 }
{
    let files = files(from, to);
    let ranks = ranks(from, to);
    if from.index() == to.index() {
        0
    } else if files == ranks {
        1
    } else if (files + ranks) % 2 == 0 {
        2
    } else {
        64
    }
}

#[tactic(auto, unfolding(crate::specs::inner::Formulas::queen))]
fn queen_steps(from: Square, to: Square) -> u8
    ensures value { result ≡ queen from to }
    ensures low { result ≤ 64 }
{
    let files = files(from, to);
    let ranks = ranks(from, to);
    if from.index() == to.index() {
        0
    } else if files == 0 || ranks == 0 || files == ranks {
        1
    } else {
        2
    }
}

fn is_corner(s: Square) -> bool
    ensures { result ≡ is_corner s }
{
    let index = s.index();
    index == 0 || index == 7 || index == 56 || index == 63
}

// A knight goes at most two squares along files or along ranks in a move, three in all, and each move
// changes the colour of its square. So it needs as many moves as this, and no more but near by.
fn long_way(x: u8, y: u8) -> u8
    requires { (x < 8) × (y < 8) }
    ensures value { result ≡ long_way x y }
    ensures low { result ≤ 64 }
{
    let n = ((x + 1) / 2).max((x + y + 2) / 3);
    n + (n + x + y) % 2
}

// The same, but for three cases near by that take more moves.
fn knight_by(x: u8, y: u8, corner: bool) -> u8
    requires { (x < 8) × (y < 8) }
    ensures value { result ≡ knight_by x y corner }
    ensures low { result ≤ 64 }
{
    if x == 1 && y == 0 {
        3
    } else if x == 2 && y == 2 {
        4
    } else if x == 1 && y == 1 {
        if corner { 4 } else { 2 }
    } else {
        long_way(x, y)
    }
}

#[tactic(auto, unfolding(crate::specs::inner::Formulas::knight))]
fn knight_steps(from: Square, to: Square) -> u8
    ensures value { result ≡ knight from to }
    ensures low { result ≤ 64 }
{
    let files = files(from, to);
    let ranks = ranks(from, to);
    knight_by(
        files.max(ranks),
        files.min(ranks),
        is_corner(from) || is_corner(to),
    )
}

fn steps(kind: Kind, from: Square, to: Square) -> u8
    ensures value { result ≡ piece kind from to }
    ensures low { result ≤ 64 }
{
    match kind {
        Kind::Pawn => 64,
        Kind::Knight => knight_steps(from, to),
        Kind::Bishop => bishop_steps(from, to),
        Kind::Rook => rook_steps(from, to),
        Kind::Queen => queen_steps(from, to),
        Kind::King => king_steps(from, to),
    }
}

fn rank_for(color: Color, s: Square) -> u8
    ensures value { result ≡ rank_for color s }
    ensures low { result < 9 }
{
    // A fact for the proof: the square is on the board.
    s.index();
    match color {
        Color::White => s.rank(),
        Color::Black => 9 - s.rank(),
    }
}

// The index of the square as the other colour sees it: the ranks turned round.
fn mirrored(index: u8) -> u8
    requires { index < 64 }
    ensures value { result ≡ mirrored index }
    ensures low { result < 64 }
{
    8 * (7 - index / 8) + index % 8
}

fn pawn(color: Color, from: Square, to: Square) -> u8
    ensures value { result ≡ pawn color from to }
    ensures low { result ≤ 64 }
{
    let start = from.index();
    let end = to.index();
    match color {
        Color::White => WHITE_PAWN[start as usize][end as usize],
        Color::Black => WHITE_PAWN[mirrored(start) as usize][mirrored(end) as usize],
    }
}

// The distances of a pawn to the men that it can become, as digits to the base 16: knight, bishop, rook
// and queen from the lowest on, 15 for none. So the table of them has half the bytes.
fn promoted(color: Color, from: Square, to: Square) -> u16
    ensures { ArePromoted color from to result }
{
    let start = from.index();
    let end = to.index();
    match color {
        Color::White => WHITE_PROMOTED[start as usize][end as usize],
        Color::Black => WHITE_PROMOTED[mirrored(start) as usize][mirrored(end) as usize],
    }
}

// The distance that a digit tells.
fn told(digit: u16) -> u8
    requires { digit < 16 }
    ensures value { result ≡ told digit }
    ensures low { result ≤ 64 }
{
    if digit == 15 { 64 } else { digit as u8 }
}

fn from_pawn(kind: Kind, color: Color, from: Square, to: Square) -> u8
    ensures value { result ≡ from_pawn color kind from to }
    ensures low { result ≤ 64 }
{
    match kind {
        Kind::Pawn => pawn(color, from, to),
        Kind::Knight => told(promoted(color, from, to) % 16),
        Kind::Bishop => told(promoted(color, from, to) / 16 % 16),
        Kind::Rook => told(promoted(color, from, to) / 256 % 16),
        Kind::Queen => told(promoted(color, from, to) / 4096 % 16),
        Kind::King => 64,
    }
}

pub(crate) fn all_steps(man: Man, from: Square, kind: Kind, to: Square) -> u8
    ensures value { result ≡ distance_of man.color kind man.kind from to }
    ensures low { result ≤ 64 }
{
    match man.kind {
        Kind::Pawn => from_pawn(kind, man.color, from, to),
        _ => {
            if man.kind.number() == kind.number() {
                steps(man.kind, from, to)
            } else {
                64
            }
        }
    }
}

// How many steps a pawn needs at least to its last rank.
fn soonest(color: Color, from: Square) -> u8
    ensures { result ≡ soonest color from }
{
    let rank = rank_for(color, from);
    if rank <= 2 { 7 - rank } else { 8 - rank }
}

// Whether a pawn can become of the kind.
pub(crate) fn is_promoted(kind: Kind) -> bool
    ensures { result ≡ is_promoted kind }
{
    match kind {
        Kind::Pawn => false,
        Kind::Knight => true,
        Kind::Bishop => true,
        Kind::Rook => true,
        Kind::Queen => true,
        Kind::King => false,
    }
}

// Steps that a man needs at least to be of the kind on a square: those of a pawn to its last rank where
// it has to become of the kind, and else one, if it does not stand there.
pub(crate) fn least_steps(man: Man, from: Square, kind: Kind, to: Square) -> u8
    ensures { result ≡ least_steps man.color kind man.kind from to }
{
    if man.kind == Kind::Pawn && is_promoted(kind) {
        soonest(man.color, from)
    } else if from.index() == to.index() {
        0
    } else {
        1
    }
}

// The distance of a man to a kind on a square, where it is less than `best`.
pub(crate) fn closer(man: Man, from: Square, kind: Kind, to: Square, best: u8) -> u8
    ensures { result ≡ min best (distance_of man.color kind man.kind from to) }
{
    // Facts for the proof: both squares are on the board.
    from.index();
    to.index();
    if best <= least_steps(man, from, kind, to) {
        best
    } else {
        best.min(all_steps(man, from, kind, to))
    }
}

/// The distance of a man on one square to a kind on another: in how many free steps, at least, it
/// comes to be of that kind there, 0 to 10; none where it cannot. A free step is one of a man alone on
/// the board: a pawn steps one square forward, two from its home rank, or one diagonally forward, and
/// by the step onto the last rank it becomes a knight, bishop, rook or queen; any other man steps as
/// it attacks. A pawn on its last rank has no step.
pub fn distance(man: Man, from: Square, kind: Kind, to: Square) -> Option<u8>
    ensures { DistanceIs man.color man.kind from kind to result }
{
    // Facts for the proof: both squares are on the board.
    from.index();
    to.index();
    let n = all_steps(man, from, kind, to);
    if n == 64 { None } else { Some(n) }
}
