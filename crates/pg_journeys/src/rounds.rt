//! The four rounds.
ghost use Rattle.std.specs.Prelude.{◌≡◌, ℕ, ◌<◌, ◌⊎◌, ◌↔◌, IsTrue, IfSome, IfNone, true, All};
ghost use Rattle.pg_board.specs.Bits.{has};
ghost use Rattle.pg_board.specs.SquareSets.{IsSetOf};
ghost use Rattle.pg_board.specs.declared.man.Color.{Color as AnyColor};
ghost use Rattle.pg_board.specs.declared.man.Color.TheVariants.{White, Black};
ghost use Rattle.pg_captures.specs.Owed.{victims};
ghost use Rattle.pg_journeys.specs.Facts.{FactsHold};
ghost use Rattle.pg_journeys.specs.declared.facts.Facts.{Facts as FactSets};
ghost use Rattle.pg_journeys.specs.FirstFacts.{AreFirst, HasWalls, IsWallOf};
ghost use Rattle.pg_journeys.specs.Known.{known};
ghost use Rattle.pg_journeys.specs.Rounds.{HasFew, AreFacts, HasDeadColor, JourneysHold};
ghost use Rattle.pg_journeys.specs.inner.Grounds.{HasSteps};
ghost use Rattle.pg_journeys.specs.inner.Courses.{IsDeadOn, IsNextOn};
ghost use Rattle.pg_journeys.specs.inner.Remembering.{IsRemembered};
ghost use Rattle.pg_journeys.specs.inner.Showing.{Shows};
ghost use Rattle.pg_journeys.specs.inner.Walking.{HasFewer, IsKept, MayLand, IsNext};

use crate::course::Course;
use crate::facts::{Facts, walls};
use crate::ground::steps_table;
use crate::known::{FirstAims, known_steps};
use crate::known_paths::KnownPaths;
use crate::memory::{Memory, Remembered, shown_in, steps_in};
use crate::plans::budget;
use crate::round::Round;
use crate::shown::{Shown, is_dead};
use crate::steps::Steps;
use pg_board::{Board, Color, SquareSet};
use pg_captures::{all_men, victims_of};
use pg_fen::Diagram;
use pg_position::Position;

// Where captures of a colour may land at first: nowhere where it owes none.
fn first_landing(goal: &Board, board: &Board, color: Color, walls: SquareSet) -> SquareSet
    requires { IsSetOf walls (IsWallOf goal.now) }
    ensures { IsSetOf result (λ s. (victims color goal.now < victims color board.now) × ¬ IsWallOf goal.now s) }
{
    if victims_of(goal, color) < victims_of(board, color) {
        SquareSet::full() - walls
    } else {
        SquareSet::empty()
    }
}

// The first facts.
pub(crate) fn first_facts(diagram: &Diagram, position: &Position) -> Facts
    ensures { AreFirst (known result) diagram.now position.now }
{
    let goal = diagram.board();
    let board = position.board();
    let walls = walls(&goal);
    Facts {
        still: walls,
        white: first_landing(&goal, &board, Color::White, walls),
        black: first_landing(&goal, &board, Color::Black, walls),
    }
}

// The men of a colour who stand as in the diagram and do not change.
fn stays(diagram: &Diagram, position: &Position, color: Color, shown: &Shown) -> SquareSet
    ensures { IsSetOf result (IsKept diagram.now position.now.board color shown.now.changed) }
{
    let board = position.board();
    (board.squares_of_color(color) - board.differing(&diagram.board())) - shown.changed
}

// The squares that are still after a round.
fn still_after(
    diagram: &Diagram,
    position: &Position,
    still: SquareSet,
    white: &Shown,
    black: &Shown,
) -> SquareSet
    ensures { IsSetOf result (λ s. (has still s ≡ true)
        ⊎ ((IsKept diagram.now position.now.board White white.now.changed s)
        ⊎ (IsKept diagram.now position.now.board Black black.now.changed s))) }
{
    still
        | (stays(diagram, position, Color::White, white)
            | stays(diagram, position, Color::Black, black))
}

// Where captures of a colour may land after a round.
fn landing_after(before: SquareSet, still: SquareSet, own: &Shown, theirs: &Shown) -> SquareSet
    ensures { IsSetOf result (MayLand before still own.now theirs.now) }
{
    (before & (own.lands & own.quiet_lands & theirs.falls & theirs.quiet_falls)) - still
}

// The facts that follow from what the plans show.
fn narrowed(
    diagram: &Diagram,
    position: &Position,
    facts: &Facts,
    white: &Shown,
    black: &Shown,
) -> Facts
    ensures { (k : ℕ) → Shows (known facts.now) diagram.now position.now k White white.now →
        Shows (known facts.now) diagram.now position.now k Black black.now →
        IsNext (known facts.now) (known result) diagram.now position.now k }
{
    let still = still_after(diagram, position, facts.still, white, black);
    Facts {
        still,
        white: landing_after(facts.white, still, white, black),
        black: landing_after(facts.black, still, black, white),
    }
}

// Whether a colour owes more captures than it has plies: by no facts has it a way alive.
fn owes_more(course: &Course<'_>, color: Color) -> bool
    ensures { (f : FactSets) → IsTrue result → IsDeadOn course.now f color }
{
    match budget(course.diagram, course.position, color, course.left, true) {
        None => true,
        Some(_) => false,
    }
}

// The facts that follow; none where a colour has no way alive. One table has the steps of both colours.
fn facts_by_plans(course: &Course<'_>, round: &Round<'_>, shown: &mut [Remembered]) -> Option<Facts>
    requires { All (IsRemembered course.now.diagram.now) shown.old }
    ensures next { IsNextOn course.now round.now.facts result }
    ensures remembered { All (IsRemembered course.now.diagram.now) shown.new }
{
    let (diagram, position) = (course.diagram, course.position);
    match shown_in(shown, course, round, Color::White) {
        None => None,
        Some(white) => match shown_in(shown, course, round, Color::Black) {
            None => None,
            Some(black) => Some(narrowed(diagram, position, &round.facts, &white, &black)),
        },
    }
}

// The facts that follow; none where a colour has no way alive. What both may spend is asked before any plan is looked
// for.
fn next_by(course: &Course<'_>, round: &Round<'_>, shown: &mut [Remembered]) -> Option<Facts>
    requires { All (IsRemembered course.now.diagram.now) shown.old }
    ensures next { IsNextOn course.now round.now.facts result }
    ensures remembered { All (IsRemembered course.now.diagram.now) shown.new }
{
    if owes_more(course, Color::White) {
        return None;
    }
    if owes_more(course, Color::Black) {
        return None;
    }
    facts_by_plans(course, round, shown)
}

// The same, by a table of steps that is made here and nothing that is remembered.
pub(crate) fn next_facts(course: &Course<'_>, facts: &Facts) -> Option<Facts>
    ensures { IsNextOn course.now facts.now result }
{
    let table = steps_table(facts.still);
    let round = Round {
        facts: *facts,
        table: &table,
        known: &[],
    };
    next_by(course, &round, &mut [])
}

// The table of steps where these squares are still, as it is known beforehand, or remembered.
fn table_by(beforehand: &[KnownPaths], steps: &mut [Steps], still: SquareSet) -> [SquareSet; 384]
    ensures { HasSteps still result }
{
    match known_steps(beforehand, still) {
        Some(table) => *table,
        None => steps_in(steps, still),
    }
}

// Whether by these facts a colour has no way alive.
fn any_dead(course: &Course<'_>, facts: &Facts) -> bool
    ensures { IsTrue result ↔ ((c : AnyColor) × IsDeadOn course.now facts.now c) }
{
    is_dead(course, facts, Color::White) || is_dead(course, facts, Color::Black)
}

// The facts of the last round; none where in a round a colour has no way alive. Facts that stay the same are those
// of each later round too, and the facts of the last round are not narrowed.
fn last_facts(
    course: &Course<'_>,
    beforehand: &[KnownPaths],
    shown: &mut [Remembered],
    steps: &mut [Steps],
) -> Option<Facts>
    requires { All (IsRemembered course.now.diagram.now) shown.old }
    ensures dead { IfNone result (HasDeadColor course.now.diagram.now course.now.position.now course.now.left) }
    ensures alive { IfSome result (λ f.
        ¬ HasDeadColor course.now.diagram.now course.now.position.now course.now.left) }
    ensures facts { IfSome result (λ f.
        AreFacts course.now.diagram.now course.now.position.now course.now.left 3 (known f)) }
    ensures remembered { All (IsRemembered course.now.diagram.now) shown.new }
{
    let mut facts = first_facts(course.diagram, course.position);
    for _ in 0..3u8 {
        let table = table_by(beforehand, steps, facts.still);
        let round = Round {
            facts,
            table: &table,
            known: beforehand,
        };
        match next_by(course, &round, shown) {
            None => return None,
            Some(next) => {
                if next == facts {
                    return Some(facts);
                }
                facts = next;
            }
        }
    }
    if any_dead(course, &facts) {
        return None;
    }
    Some(facts)
}

/// Whether each wall of the diagram, a pawn on its home rank, stands in the position.
pub fn has_walls(diagram: &Diagram, position: &Position) -> bool
    ensures { IsTrue result ↔ HasWalls diagram.now position.now }
{
    let goal = diagram.board();
    !walls(&goal).meets(position.board().differing(&goal))
}

/// Whether the position has fewer men of a colour than the diagram.
pub fn has_fewer(diagram: &Diagram, position: &Position) -> bool
    ensures { IsTrue result ↔ HasFewer diagram.now position.now }
{
    let goal = diagram.board();
    let board = position.board();
    all_men(&board, Color::White) < all_men(&goal, Color::White)
        || all_men(&board, Color::Black) < all_men(&goal, Color::Black)
}

/// Whether the position has at most sixteen men of each colour.
pub fn has_few(position: &Position) -> bool
    ensures { IsTrue result ↔ HasFew position.now }
{
    let board = position.board();
    all_men(&board, Color::White) <= 16 && all_men(&board, Color::Black) <= 16
}

// The facts of the last round, and the first ones where a colour has more than sixteen men; none where the bound by
// journeys excludes. What is known beforehand makes them sooner.
pub(crate) fn facts_by(
    diagram: &Diagram,
    position: &Position,
    left: u8,
    beforehand: &[KnownPaths],
    shown: &mut [Remembered],
    steps: &mut [Steps],
) -> Option<Facts>
    requires { All (IsRemembered diagram.now) shown.old }
    ensures holds { IfSome result (λ f. FactsHold (known f) diagram.now position.now left) }
    ensures last { IfSome result (λ f. HasFew position.now → AreFacts diagram.now position.now left 3 (known f)) }
    ensures first { IfSome result (λ f. ¬ HasFew position.now → AreFirst (known f) diagram.now position.now) }
    ensures some { IfSome result (λ f. ¬ JourneysHold diagram.now position.now left) }
    ensures none { IfNone result (JourneysHold diagram.now position.now left) }
    ensures remembered { All (IsRemembered diagram.now) shown.new }
{
    // A fact for the proof: what is handed in is a position.
    position.side();
    if !has_walls(diagram, position) {
        return None;
    }
    if has_fewer(diagram, position) {
        return None;
    }
    if !has_few(position) {
        return Some(first_facts(diagram, position));
    }
    let course = Course {
        diagram,
        position,
        left,
    };
    last_facts(&course, beforehand, shown, steps)
}

/// Facts that hold for the games of `left` plies from the position to the diagram: the squares whose men stay where
/// they are, and for each colour those where its captures may land. They are the facts of the last round, and the
/// first ones where a colour has more than sixteen men. None where the bound by journeys excludes, and only there.
pub fn facts_for(diagram: &Diagram, position: &Position, left: u8) -> Option<Facts>
    ensures holds { IfSome result (λ f. FactsHold (known f) diagram.now position.now left) }
    ensures last { IfSome result (λ f. HasFew position.now → AreFacts diagram.now position.now left 3 (known f)) }
    ensures first { IfSome result (λ f. ¬ HasFew position.now → AreFirst (known f) diagram.now position.now) }
    ensures some { IfSome result (λ f. ¬ JourneysHold diagram.now position.now left) }
    ensures none { IfNone result (JourneysHold diagram.now position.now left) }
{
    facts_by(diagram, position, left, &[], &mut [], &mut [])
}

/// Whether the bound by journeys excludes every game of `left` plies from the position to the diagram.
pub fn journeys_hold(diagram: &Diagram, position: &Position, left: u8) -> bool
    ensures { IsTrue result ↔ JourneysHold diagram.now position.now left }
{
    facts_for(diagram, position, left).is_none()
}

/// The same, sooner where `aims` are those of the diagram; they change no answer.
pub fn journeys_hold_by(aims: &FirstAims, diagram: &Diagram, position: &Position, left: u8) -> bool
    ensures { IsTrue result ↔ JourneysHold diagram.now position.now left }
{
    facts_by(diagram, position, left, aims.known(), &mut [], &mut []).is_none()
}

/// The same, sooner where `memory` is of the diagram: what was shown in a position before is remembered for the next
/// ones. What it holds changes no answer.
pub fn journeys_hold_with(
    memory: &mut Memory,
    aims: &FirstAims,
    diagram: &Diagram,
    position: &Position,
    left: u8,
) -> bool
    ensures { IsTrue result ↔ JourneysHold diagram.now position.now left }
{
    memory.facts(aims, diagram, position, left).is_none()
}
