//! A man's cheapest walk, read off the table that it was filled into. Nothing is proved of it.
ghost use Rattle.pg_journeys.specs.inner.Grounds.{IsGround};

use crate::half::Half;
use crate::plans::Plan;
use crate::rows::raised;
use crate::tariff::Tariff;
use pg_board::{Kind, Square, SquareSet};
use pg_journeys::Ground;
use pg_position::must_promote;

// By what the men of a colour walk.
#[derive(Clone, Copy)]
pub(crate) struct March<'a> {
    pub(crate) half: &'a Half,
    pub(crate) tariff: &'a Tariff,
    pub(crate) ground: &'a Ground,
}

// A man on his walk: what he is, where he stands, and how many of his steps may still be marked.
#[derive(Clone, Copy)]
pub(crate) struct Walker {
    pub(crate) kind: Kind,
    pub(crate) square: Square,
    pub(crate) marks: u8,
}

// What a man on a cheapest walk does next.
#[derive(Clone, Copy)]
enum Turn {
    Stop,
    LeaveOver,
    Promote(Kind),
    Step(Square),
    Capture(Square),
}

// What a mark that is left over counts.
const MARK: u16 = 128;

// What it counts to go on from a square to a fate.
fn entry(half: &Half, kind: Kind, square: Square, marks: u8, fate: usize) -> u16 {
    let kinds = usize::from(marks) * 6 + usize::from(kind.number());
    match half.rows.get(kinds * 64 + usize::from(square.index())) {
        Some(row) => row[fate % 16],
        None => u16::MAX,
    }
}

// The same from where a man stands.
pub(crate) fn charge_at(half: &Half, walker: &Walker, fate: usize) -> u16 {
    entry(half, walker.kind, walker.square, walker.marks, fate)
}

// Whether a man is where his fate has him, and this is all that is left to be charged.
fn is_at_end(half: &Half, walker: &Walker, fate: usize, left: u16) -> bool {
    let over = MARK * u16::from(walker.marks);
    let fate = fate % 16;
    if fate < half.goals.count {
        return walker.kind == half.goals.kinds[fate]
            && walker.square == half.goals.squares[fate]
            && left == over;
    }
    let lost = u16::from(half.lost[usize::from(walker.square.index())]);
    half.free.contains(walker.square) && left == over + lost
}

// The piece that a pawn on the last rank becomes.
fn promoted(half: &Half, walker: &Walker, fate: usize, left: u16) -> Option<Kind> {
    if !must_promote(walker.kind, half.color, walker.square) {
        return None;
    }
    for kind in [Kind::Knight, Kind::Bishop, Kind::Rook, Kind::Queen] {
        if entry(half, kind, walker.square, walker.marks, fate) == left {
            return Some(kind);
        }
    }
    None
}

// Where a man may step without a mark.
fn plain_steps(ground: &Ground, kind: Kind, square: Square) -> SquareSet
    requires { IsGround ground.now }
{
    match kind {
        Kind::Pawn => ground.pushes_of(SquareSet::single(square)),
        Kind::Knight => ground.steps(Kind::Knight, square),
        Kind::Bishop => ground.steps(Kind::Bishop, square),
        Kind::Rook => ground.steps(Kind::Rook, square),
        Kind::Queen => ground.steps(Kind::Queen, square),
        Kind::King => ground.steps(Kind::King, square),
    }
}

// Where he may step with one.
fn marked_steps(ground: &Ground, kind: Kind, square: Square) -> SquareSet
    requires { IsGround ground.now }
{
    match kind {
        Kind::Pawn => ground.captures_of(SquareSet::single(square)),
        _ => plain_steps(ground, kind, square),
    }
}

// A square to which a step without a mark leaves the rest.
fn step_to(march: &March<'_>, walker: &Walker, fate: usize, left: u16) -> Option<Square>
    requires { IsGround march.now.ground.now }
{
    let rest = left.checked_sub(u16::from(march.half.weight))?;
    let mut squares = plain_steps(march.ground, walker.kind, walker.square);
    for _ in 0..64u8 {
        let square = squares.pop_first()?;
        if entry(march.half, walker.kind, square, walker.marks, fate) == rest {
            return Some(square);
        }
    }
    None
}

// A square to which a step with a mark leaves the rest.
fn capture_on(march: &March<'_>, walker: &Walker, fate: usize, left: u16) -> Option<Square>
    requires { IsGround march.now.ground.now }
{
    let marks = walker.marks.checked_sub(1)?;
    let rest = left.checked_sub(u16::from(march.half.weight))?;
    let mut squares = marked_steps(march.ground, walker.kind, walker.square);
    for _ in 0..64u8 {
        let square = squares.pop_first()?;
        let toll = raised(march.tariff, march.ground.color, square);
        let behind = entry(march.half, walker.kind, square, marks, fate);
        if behind.saturating_add(toll) == rest {
            return Some(square);
        }
    }
    None
}

// Whether he may as well go on with a mark less, which he leaves over.
fn may_leave_over(half: &Half, walker: &Walker, fate: usize, left: u16) -> bool {
    match walker.marks.checked_sub(1) {
        None => false,
        Some(marks) => {
            let behind = entry(half, walker.kind, walker.square, marks, fate);
            behind.saturating_add(MARK) == left
        }
    }
}

// What a man does next. He stops too where the table doesn't lead on.
fn next_turn(march: &March<'_>, walker: &Walker, fate: usize) -> Turn
    requires { IsGround march.now.ground.now }
{
    let half = march.half;
    let left = charge_at(half, walker, fate);
    if is_at_end(half, walker, fate, left) {
        return Turn::Stop;
    }
    if may_leave_over(half, walker, fate, left) {
        return Turn::LeaveOver;
    }
    if let Some(kind) = promoted(half, walker, fate, left) {
        return Turn::Promote(kind);
    }
    if let Some(square) = step_to(march, walker, fate, left) {
        return Turn::Step(square);
    }
    match capture_on(march, walker, fate, left) {
        Some(square) => Turn::Capture(square),
        None => Turn::Stop,
    }
}

// Adds a man's walk to his fate to a plan: its steps, the squares of those that are marked, and where he is captured.
pub(crate) fn walk(march: &March<'_>, from: &Walker, fate: usize, plan: &mut Plan)
    requires { IsGround march.now.ground.now }
{
    let mut walker = *from;
    for _ in 0..64u8 {
        match next_turn(march, &walker, fate) {
            Turn::Stop => break,
            Turn::LeaveOver => walker.marks = walker.marks.saturating_sub(1),
            Turn::Promote(kind) => walker.kind = kind,
            Turn::Step(square) => {
                walker.square = square;
                plan.steps = plan.steps.saturating_add(1);
            }
            Turn::Capture(square) => {
                walker.square = square;
                walker.marks = walker.marks.saturating_sub(1);
                plan.steps = plan.steps.saturating_add(1);
                plan.add_mark(square);
            }
        }
    }
    if fate >= march.half.goals.count {
        plan.add_death(walker.square);
    }
}
