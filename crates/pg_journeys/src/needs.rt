//! What a colour without a way alive needs, and whom of the diagram its men cannot become.
ghost use Rattle.std.specs.Prelude.{◌≡◌, ℕ, ◌<◌, ◌≤◌, ◌⊎◌, ◌↔◌, false, IfSome, IfNone, IsTrue, MatchOption};
ghost use Rattle.pg_board.specs.declared.man.Kind.{Kind as AnyKind};
ghost use Rattle.pg_board.specs.Placement.{Placement};
ghost use Rattle.pg_position.specs.Position.{Stands};
ghost use Rattle.pg_captures.specs.Counting.{men, any_man};
ghost use Rattle.pg_assignments.specs.Assignments.{IsLeast};
ghost use Rattle.pg_assignments.specs.Search.{lesser_of};
ghost use Rattle.pg_journeys.specs.Known.{known};
ghost use Rattle.pg_journeys.specs.Needs.{AsksForPlans, IsFirstDead, IsLeastNeed, IsReached};
ghost use Rattle.pg_journeys.specs.Plans.{Moves, QuietMoves};
ghost use Rattle.pg_journeys.specs.Rounds.{HasDeadColor};
ghost use Rattle.pg_journeys.specs.inner.Needing.{AreFirstBy, IsReachedIn, IsReachedOf, IsUnreached, PayInSome};
ghost use Rattle.pg_journeys.specs.inner.Needing.{PayInWay, counted_with};
ghost use Rattle.pg_journeys.specs.inner.Sides.{AreAims, IsSide};

use crate::course::Course;
use crate::facts::Facts;
use crate::ground::steps_table;
use crate::measured::Measured;
use crate::plans::{Aims, aim_within, charge, costs_in, counted, fill_aims, is_way};
use crate::rings::Rings;
use crate::rounds::{first_facts, has_few, has_fewer, has_walls, next_facts};
use crate::shown::{by_measure, is_dead, side_of};
use crate::side::Side;
use pg_assignments::least_total;
use pg_board::{Color, Square, SquareSet};
use pg_captures::all_men;
use pg_fen::Diagram;
use pg_position::{Position, Wing};

/// What a colour needs at least by each of the two measures, in moves of its own: the least over its ways of what
/// journeys cost. In quiet moves the captures that it owes come on top. None where it has no journeys that cost at
/// most `LeastCounts::MOST`.
#[derive(Clone, Copy)]
pub struct LeastCounts {
    /// The moves for all steps of the journeys.
    pub moves: Option<u8>,
    /// The moves for those steps that can be no capture.
    pub quiet_moves: Option<u8>,
}

impl LeastCounts {
    /// The greatest number that is counted.
    pub const MOST: u8 = 199;
}

/// A colour that has no way alive by these facts.
#[derive(Clone, Copy)]
pub struct DeadColor {
    pub color: Color,
    pub facts: Facts,
}

// The lesser of two numbers, where there are any.
#[tactic(auto, unfolding(pg_assignments::specs::Search::lesser_of))]
fn lesser(a: Option<u8>, b: Option<u8>) -> Option<u8>
    ensures { result ≡ lesser_of a b }
{
    match a {
        None => b,
        Some(x) => match b {
            None => a,
            Some(y) => Some(x.min(y)),
        },
    }
}

// The total of paths and what a way counts beside them, where both together are not too much.
#[tactic(auto, unfolding(crate::specs::inner::Needing::counted_with))]
fn total_with(total: Option<u16>, charge: u8) -> Option<u8>
    requires { charge ≤ 1 }
    ensures { result ≡ counted_with total charge }
{
    match total {
        None => None,
        Some(total) => {
            if total > u16::from(LeastCounts::MOST - charge) {
                None
            } else {
                Some(total as u8 + charge)
            }
        }
    }
}

// What the plans of a way count at least.
fn least_in_way(measured: &Measured<'_>, way: Option<Wing>) -> Option<u8>
    requires { measured.now.most ≡ 199 }
    ensures { (d : Placement) → IsSide d measured.now.side.now →
        IsLeast (PayInWay d measured.now.side.now measured.now.is_quiet way) result }
{
    let side = measured.side;
    if !is_way(&side.position, &side.terrain.facts, side.terrain.color, way) {
        return None;
    }
    let costs = costs_in(measured, way);
    total_with(least_total(&costs), charge(way))
}

// What the plans of all ways count at least by a measure. A table of its own, since it is cleared where a function
// begins.
#[inline(never)]
fn least_in_all(side: &Side, is_quiet: bool) -> Option<u8>
    ensures { (d : Placement) → IsSide d side.now → IsLeast (PayInSome d side.now is_quiet) result }
{
    let mut aims = [Rings::none(); 17];
    fill_aims(side, is_quiet, LeastCounts::MOST, &mut aims);
    let measured = by_measure(side, is_quiet, LeastCounts::MOST, &aims);
    let none = least_in_way(&measured, None);
    let short = lesser(none, least_in_way(&measured, Some(Wing::KingSide)));
    lesser(short, least_in_way(&measured, Some(Wing::QueenSide)))
}

/// What a colour needs at least by each of the two measures, under facts. None where it has fewer men in the position
/// than in the diagram, or more than sixteen.
pub fn least_counts(
    diagram: &Diagram,
    position: &Position,
    facts: &Facts,
    color: Color,
) -> Option<LeastCounts>
    ensures moves { IfSome result (λ x.
        IsLeastNeed 199 (known facts.now) diagram.now position.now color Moves x.moves) }
    ensures quiet { IfSome result (λ x.
        IsLeastNeed 199 (known facts.now) diagram.now position.now color QuietMoves x.quiet_moves) }
    ensures some { IfSome result (λ x. (men color any_man diagram.now ≤ men color any_man position.now.board)
        × (men color any_man position.now.board ≤ 16)) }
    ensures none { IfNone result ((men color any_man position.now.board < men color any_man diagram.now)
        ⊎ (16 < men color any_man position.now.board)) }
{
    let here = all_men(&position.board(), color);
    if here < all_men(&diagram.board(), color) {
        return None;
    }
    if here > 16 {
        return None;
    }
    let table = steps_table(facts.still);
    let side = side_of(diagram, position, facts, color, SquareSet::empty(), &table);
    Some(LeastCounts {
        moves: least_in_all(&side, false),
        quiet_moves: least_in_all(&side, true),
    })
}

// Whether in an open way some man comes to be the man e of the diagram.
fn is_reached_in(side: &Side, aims: &Aims, way: Option<Wing>, e: usize) -> bool
    requires goal { e < side.now.goals.count }
    requires aims { AreAims side.now false aims.now }
    ensures { IsTrue result ↔ IsReachedIn side.now way e }
{
    if !is_way(&side.position, &side.terrain.facts, side.terrain.color, way) {
        return false;
    }
    let within = aim_within(side, false, aims, e, LeastCounts::MOST);
    for i in 0..side.men.count {
        let square = counted(side.terrain.color, way, side.men.squares[i]);
        if within[usize::from(side.men.kinds[i].number())].contains(square) {
            return true;
        }
    }
    false
}

// Whether in some way some man comes to be the man e of the diagram.
fn is_reached(side: &Side, aims: &Aims, e: usize) -> bool
    requires goal { e < side.now.goals.count }
    requires aims { AreAims side.now false aims.now }
    ensures { IsTrue result ↔ IsReachedOf side.now e }
{
    if is_reached_in(side, aims, None, e) {
        return true;
    }
    if is_reached_in(side, aims, Some(Wing::KingSide), e) {
        return true;
    }
    is_reached_in(side, aims, Some(Wing::QueenSide), e)
}

// The square of a man of the diagram to whom nobody comes in any way.
fn unreached_of(side: &Side, aims: &Aims) -> Option<Square>
    requires aims { AreAims side.now false aims.now }
    ensures { IsUnreached side.now result }
{
    for e in 0..side.goals.count {
        if !is_reached(side, aims, e) {
            return Some(side.goals.squares[e]);
        }
    }
    None
}

/// The square of a man of the diagram that no man of its colour comes to be under facts, in any way, by at most
/// `LeastCounts::MOST` steps. None where each is reached, and where the colour has fewer men in the position than in
/// the diagram, or more than sixteen.
pub fn unreached(
    diagram: &Diagram,
    position: &Position,
    facts: &Facts,
    color: Color,
) -> Option<Square>
    ensures some { IfSome result (λ t. (t < 64) × (j : AnyKind) × Stands diagram.now color j t
        × ¬ IsReached 199 (known facts.now) position.now color j t) }
    ensures none { IfNone result ((men color any_man position.now.board < men color any_man diagram.now)
        ⊎ ((16 < men color any_man position.now.board)
        ⊎ ((j : AnyKind) (t : ℕ) → t < 64 → Stands diagram.now color j t →
        IsReached 199 (known facts.now) position.now color j t))) }
{
    let here = all_men(&position.board(), color);
    if here < all_men(&diagram.board(), color) {
        return None;
    }
    if here > 16 {
        return None;
    }
    let table = steps_table(facts.still);
    let side = side_of(diagram, position, facts, color, SquareSet::empty(), &table);
    let mut aims = [Rings::none(); 17];
    fill_aims(&side, false, LeastCounts::MOST, &mut aims);
    unreached_of(&side, &aims)
}

// The first colour that has no way alive by facts, White first.
fn first_dead(course: &Course<'_>, facts: &Facts) -> Option<DeadColor>
    ensures { AreFirstBy facts.now course.now.diagram.now course.now.position.now course.now.left result }
{
    if is_dead(course, facts, Color::White) {
        return Some(DeadColor {
            color: Color::White,
            facts: *facts,
        });
    }
    if is_dead(course, facts, Color::Black) {
        return Some(DeadColor {
            color: Color::Black,
            facts: *facts,
        });
    }
    None
}

// The first colour that has no way alive in one of the four rounds.
fn dead_in_rounds(course: &Course<'_>) -> Option<DeadColor>
    ensures { MatchOption result
        (¬ HasDeadColor course.now.diagram.now course.now.position.now course.now.left) (λ x.
        IsFirstDead course.now.diagram.now course.now.position.now course.now.left x.color (known x.facts)) }
{
    let mut facts = first_facts(course.diagram, course.position);
    for _ in 0..3u8 {
        match next_facts(course, &facts) {
            None => return first_dead(course, &facts),
            Some(next) => {
                if next == facts {
                    return None;
                }
                facts = next;
            }
        }
    }
    first_dead(course, &facts)
}

/// The first colour that has no way alive in one of the four rounds, White first in each, with the facts of that round:
/// by these its men cannot do in `left` plies what the diagram wants. None where the bound by journeys does not exclude
/// by plans: a pawn of the diagram on its home rank does not stand there, the position has fewer men of a colour than
/// the diagram, or more than sixteen, or each colour has a way alive in each round.
pub fn dead_color(diagram: &Diagram, position: &Position, left: u8) -> Option<DeadColor>
    ensures asks { IfSome result (λ x. AsksForPlans diagram.now position.now) }
    ensures first { IfSome result (λ x. IsFirstDead diagram.now position.now left x.color (known x.facts)) }
    ensures none { IfNone result (AsksForPlans diagram.now position.now →
        ¬ HasDeadColor diagram.now position.now left) }
{
    if !has_walls(diagram, position) {
        return None;
    }
    if has_fewer(diagram, position) {
        return None;
    }
    if !has_few(position) {
        return None;
    }
    let course = Course {
        diagram,
        position,
        left,
    };
    dead_in_rounds(&course)
}
