//! What is known beforehand of the paths of men to those of a diagram, under the facts that its first round may have.
ghost use Rattle.std.specs.Prelude.{◌≡◌, ◌<◌, ◌≤◌, IsTrue, IfSome, IfOk, true, false};
ghost use Rattle.pg_board.specs.Placement.{Placement};
ghost use Rattle.pg_captures.specs.Counting.{men};
ghost use Rattle.pg_journeys.specs.inner.Grounds.{HasSteps};
ghost use Rattle.pg_journeys.specs.inner.Knowing.{HasFewMen};
ghost use Rattle.pg_journeys.specs.inner.Sides.{AreAims, AreSameMen, IsLike};

use crate::facts::{Facts, walls};
use crate::ground::{ground_of, steps_table};
use crate::known_paths::KnownPaths;
use crate::men::{Men, men_without};
use crate::plans::fill_ends;
use crate::rings::Rings;
use crate::side::Side;
use pg_board::{Board, Color, Square, SquareSet};
use pg_captures::all_men;
use pg_fen::Diagram;
use std::alloc::{AllocError, Global};
use std::marker::Model;

// How far rings go that are made beforehand: twelve are kept.
const FAR: u8 = 11;

// Adds what is known of a colour under facts. Who stands on a still square is left out.
fn add_color(
    known: &mut Vec<KnownPaths>,
    goal: &Board,
    facts: &Facts,
    color: Color,
    table: &[SquareSet; 384],
) -> Result<(), AllocError>
    requires steps { HasSteps facts.now.still table.now }
    requires few { HasFewMen goal.now }
{
    let ground = ground_of(facts, color, table);
    let goals = men_without(goal, color, facts.still);
    // For the borrow checker, which wants the type of squares told.
    let _first: Square = goals.squares[0];
    let mut moves = [Rings::none(); 17];
    fill_ends(&ground, &goals, true, false, FAR, &mut moves);
    let mut quiet = [Rings::none(); 17];
    fill_ends(&ground, &goals, true, true, FAR, &mut quiet);
    known.push(KnownPaths {
        terrain: ground,
        goals,
        moves,
        quiet,
    })?;
    Ok(())
}

// Adds what is known of both colours where these squares are still and captures of either colour land on these.
fn add_both(
    known: &mut Vec<KnownPaths>,
    goal: &Board,
    facts: &Facts,
    table: &[SquareSet; 384],
) -> Result<(), AllocError>
    requires steps { HasSteps facts.now.still table.now }
    requires few { HasFewMen goal.now }
{
    add_color(known, goal, facts, Color::White, table)?;
    add_color(known, goal, facts, Color::Black, table)
}

// Adds what is known under each facts that a first round may have: walls are still, and captures of either colour
// land anywhere else or nowhere.
fn add_all(known: &mut Vec<KnownPaths>, goal: &Board) -> Result<(), AllocError>
    requires few { HasFewMen goal.now }
{
    let still = walls(goal);
    let table = steps_table(still);
    let open = SquareSet::full() - still;
    let none = SquareSet::empty();
    add_both(known, goal, &facts_with(still, open, open), &table)?;
    add_both(known, goal, &facts_with(still, open, none), &table)?;
    add_both(known, goal, &facts_with(still, none, open), &table)?;
    add_both(known, goal, &facts_with(still, none, none), &table)
}

// Facts of these sets.
fn facts_with(still: SquareSet, white: SquareSet, black: SquareSet) -> Facts
    ensures { result.still ≡ still }
{
    Facts {
        still,
        white,
        black,
    }
}

// Whether both list the same men.
fn same_men(one: &Men, other: &Men) -> bool
    requires one { one.now.count ≤ 16 }
    requires other { other.now.count ≤ 16 }
    ensures { IsTrue result → AreSameMen one.now other.now }
{
    if one.count != other.count {
        return false;
    }
    for i in 0..one.count {
        let (here, there): (Square, Square) = (one.squares[i], other.squares[i]);
        if here != there || one.kinds[i].number() != other.kinds[i].number() {
            return false;
        }
    }
    true
}

// Whether both are the same colour.
pub(crate) fn same_color(one: Color, other: Color) -> bool
    ensures { IsTrue result → one ≡ other }
{
    match one {
        Color::White => match other {
            Color::White => true,
            Color::Black => false,
        },
        Color::Black => match other {
            Color::White => false,
            Color::Black => true,
        },
    }
}

// Whether these are paths of a side: of its colour, under its facts, to its men of the diagram.
fn are_of(known: &KnownPaths, side: &Side) -> bool
    ensures { IsTrue result → IsLike side.now known.now.terrain known.now.goals }
{
    if !same_color(side.terrain.color, known.terrain.color) {
        return false;
    }
    if side.terrain.facts == known.terrain.facts {
        return same_men(&side.goals, &known.goals);
    }
    false
}

// The paths of a side, if they are known.
pub(crate) fn known_for<'a>(known: &'a [KnownPaths], side: &Side) -> Option<&'a KnownPaths>
    ensures { IfSome result (λ k. AreAims side.now false k.now.moves × AreAims side.now true k.now.quiet) }
{
    for one in known {
        if are_of(one, side) {
            return Some(one);
        }
    }
    None
}

// The table of steps where these squares are still, if that is known.
pub(crate) fn known_steps(known: &[KnownPaths], still: SquareSet) -> Option<&[SquareSet; 384]>
    ensures { IfSome result (λ table. HasSteps still table.now) }
{
    for one in known {
        if one.terrain.facts.still == still {
            return Some(&one.terrain.table);
        }
    }
    None
}

/// Paths to the men of a diagram under the facts of a first round, for a bound that is asked often: made once, some
/// 190 KB. Contracts see them as the placement of the diagram. There are none where it has more than sixteen men of a
/// colour, as no diagram has that a game ends on.
#[derive(Drop)]
pub struct FirstAims {
    goal: Board,
    known: Vec<KnownPaths>,
}

impl Model for FirstAims {
    ghost use Rattle.pg_board.specs.Placement.{Placement};
    ghost use Rattle.pg_board.specs.lemmas.Codes.{placement_code};

    ghost Value = { Placement };

    ghost coded = { placement_code };

    ghost view = { λ a. a.goal };
}

impl FirstAims {
    /// The paths to the men of a diagram. What they take is taken from `alloc`.
    ///
    /// # Errors
    /// Where memory is refused.
    pub fn new(alloc: Global, diagram: &Diagram) -> Result<FirstAims, AllocError>
        ensures { IfOk result (λ aims. aims ≡ diagram.now) }
    {
        let goal = diagram.board();
        let mut known = Vec::new(alloc);
        if all_men(&goal, Color::White) <= 16 && all_men(&goal, Color::Black) <= 16 {
            add_all(&mut known, &goal)?;
        }
        Ok(FirstAims { goal, known })
    }

    // What is known.
    pub(crate) fn known(&self) -> &[KnownPaths] {
        self.known.as_slice()
    }
}
