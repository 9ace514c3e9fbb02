//! The halves of a tariff for a diagram.
ghost use Rattle.std.specs.Prelude.{◌≡◌, ◌≢◌, ℕ, ◌+◌, ◌<◌, ◌≤◌, IfOk, []};
ghost use Rattle.pg_board.specs.Men.{other};
ghost use Rattle.pg_position.specs.Position.{Stands};
ghost use Rattle.pg_captures.specs.Counting.{men, any_man};
ghost use Rattle.pg_journeys.specs.Known.{known};
ghost use Rattle.pg_journeys.specs.inner.Grounds.{IsGround};
ghost use Rattle.pg_journeys.specs.inner.Sides.{AreMen, kind_at, square_at};
ghost use Rattle.pg_tolls.specs.Charges.{AreOfWalls};
ghost use Rattle.pg_tolls.specs.Stated.{stated};
ghost use Rattle.pg_tolls.specs.Tariffs.{cheap, dear};
ghost use Rattle.pg_tolls.specs.inner.Halves.{AreLost, IsHalf};
ghost use Rattle.pg_tolls.specs.inner.Remembering.{IsTight};
ghost use Rattle.pg_tolls.specs.inner.Tables.{raised};

use crate::half::Half;
use crate::tables::{tables_of, untested_tables};
use crate::tariff::Tariff;
use pg_board::{Board, Color, Kind, Square, SquareSet};
use pg_captures::all_men;
use pg_journeys::{Facts, Ground, Men, men_without, walls};
use std::alloc::{AllocError, Global};

// The facts that the walls of a diagram tell: they are still, and captures of either colour may land on all other
// squares.
pub(crate) fn facts_of_walls(goal: &Board) -> Facts
    ensures { AreOfWalls (known result) goal.now }
{
    let still = walls(goal);
    let open = SquareSet::full() - still;
    Facts {
        still,
        white: open,
        black: open,
    }
}

// The men of a colour in the diagram; none where they are more than sixteen.
fn goals_of(goal: &Board, color: Color) -> Men
    ensures few { result.count ≤ 16 }
    ensures all { men color any_man goal.now ≤ 16 → AreMen goal.now color result }
    ensures standing { (i : ℕ) → i < result.count →
        Stands goal.now color (kind_at result i) (square_at result i) }
{
    if all_men(goal, color) > 16 {
        return Men {
            count: 0,
            kinds: [Kind::Pawn; 16],
            squares: [Square::at(0); 16],
        };
    }
    men_without(goal, color, SquareSet::empty())
}

// What it costs that the colour captures a man on a square: 127 less its toll.
fn lost_to(tariff: &Tariff, color: Color, square: Square) -> u8
    ensures lost { result + raised (stated tariff.now) color square ≡ 255 }
    ensures range { raised (stated tariff.now) color square + cheap (stated tariff.now) color square
        ≡ dear (stated tariff.now) color square + 128 }
{
    (127 - i16::from(tariff.toll(color, square))) as u8
}

// The same for each square.
fn lost_by(tariff: &Tariff, color: Color) -> [u8; 64]
    ensures { AreLost (stated tariff.now) color result 64 }
{
    let mut lost = [0u8; 64];
    for at in 0..64usize {
        lost[at] = lost_to(tariff, color, Square::at(at as u8));
    }
    lost
}

// The half of a colour, for the diagram with these men and the ground of the colour's steps.
pub(crate) fn half_of(
    alloc: Global,
    tariff: &Tariff,
    goal: &Board,
    ground: &Ground,
) -> Result<Half, AllocError>
    requires { IsGround ground.now }
    ensures color { IfOk result (λ x. x.color ≡ ground.now.color) }
    ensures lost { IfOk result (λ x. AreLost (stated tariff.now) (other ground.now.color) x.lost 64) }
    ensures tight { IfOk result (λ x. x.rows.items ≢ [] →
        IsTight (stated tariff.now) (known ground.now.facts) goal.now x) }
    ensures half { IfOk result (λ x. men ground.now.color any_man goal.now ≤ 16 →
        IsHalf (stated tariff.now) (known ground.now.facts) goal.now x) }
{
    let theirs = ground.color.other();
    let goals = goals_of(goal, ground.color);
    let most = usize::from(16u8.saturating_sub(all_men(goal, theirs)));
    let lost = lost_by(tariff, theirs);
    let rows = tables_of(alloc, tariff, ground, &goals, most)?;
    Ok(Half {
        color: ground.color,
        weight: tariff.weight(ground.color),
        lost,
        free: ground.free,
        goals,
        rows,
    })
}

// The half of a colour with a table for up to `most` marks, which is not tested.
pub(crate) fn untested_half(
    alloc: Global,
    tariff: &Tariff,
    goal: &Board,
    ground: &Ground,
    most: usize,
) -> Result<Half, AllocError>
    requires ground { IsGround ground.now }
    requires most { most ≤ 16 }
{
    let goals = goals_of(goal, ground.color);
    let weight = tariff.weight(ground.color);
    let rows = untested_tables(alloc, tariff, ground, &goals, most)?;
    Ok(Half {
        color: ground.color,
        weight,
        lost: lost_by(tariff, ground.color.other()),
        free: ground.free,
        goals,
        rows,
    })
}
