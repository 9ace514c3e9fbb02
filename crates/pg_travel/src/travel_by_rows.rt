//! The bound by travel for one diagram, by rows.
ghost use Rattle.std.specs.Prelude.{◌≡◌, ℕ, ◌↔◌, IsTrue};
ghost use Rattle.pg_position.specs.declared.state.State.{State};
ghost use Rattle.pg_position.specs.Step.{IsLegal, Legal};
ghost use Rattle.pg_travel.specs.Needs.{TravelTest, TravelHolds};

use crate::after_move::{above_after, far_off_after, is_told_by};
use crate::least_rows::excludes_by;
use crate::needs::excludes_for;
use crate::rows::Rows;
use crate::travel::{Travel, travel_holds};
use pg_board::Color;
use pg_captures::Bound;
use pg_fen::Diagram;
use pg_position::{Move, Position};

// Whether the test of a colour holds, by rows of the diagram where they have each man of the colour.
fn color_excludes(
    rows: &Rows,
    color: Color,
    diagram: &Diagram,
    position: &Position,
    left: u8,
) -> bool
    requires { rows.now ≡ diagram.now }
    ensures { IsTrue result ↔ TravelTest diagram.now position.now left color }
{
    if rows.men(color) <= 16 {
        excludes_by(rows, color, position, left)
    } else {
        excludes_for(color, diagram, position, left)
    }
}

// Whether the test of either colour holds, by rows of the diagram. The colour that has just moved is
// tried first.
fn either_excludes(rows: &Rows, diagram: &Diagram, position: &Position, left: u8) -> bool
    requires { rows.now ≡ diagram.now }
    ensures { IsTrue result ↔ TravelHolds diagram.now position.now left }
{
    let side = position.side();
    color_excludes(rows, side.other(), diagram, position, left)
        || color_excludes(rows, side, diagram, position, left)
}

// The same test, by rows where they are those of the diagram.
#[inline(always)]
fn travel_holds_by(rows: &Rows, diagram: &Diagram, position: &Position, left: u8) -> bool
    ensures { IsTrue result ↔ TravelHolds diagram.now position.now left }
{
    if rows.is_of(diagram) {
        either_excludes(rows, diagram, position, left)
    } else {
        travel_holds(diagram, position, left)
    }
}

// Whether the test of either colour holds after a legal move, where `above_after` was asked and said no: so the
// colour that has just moved hardly excludes, and is tried last.
#[inline(never)]
fn either_excludes_after(
    rows: &Rows,
    diagram: &Diagram,
    position: &Position,
    m: &Move,
    left: u8,
) -> bool
    requires rows { rows.now ≡ diagram.now }
    requires legal { IsLegal position.now m.now }
    ensures { (q : State) → Legal position.now m.now q → IsTrue result ↔ TravelHolds diagram.now q left }
{
    let there = position.after(m);
    let side = there.side();
    color_excludes(rows, side, diagram, &there, left)
        || color_excludes(rows, side.other(), diagram, &there, left)
}

// The same by rows where they are those of the diagram: from the position before the move, where that tells of the
// colour that moves. Where it does not, that colour is tried first, as for any position. A function of its own,
// since mostly no row is read.
#[inline(never)]
fn excludes_after_by(
    rows: &Rows,
    diagram: &Diagram,
    position: &Position,
    m: &Move,
    left: u8,
) -> bool
    requires { IsLegal position.now m.now }
    ensures { (q : State) → Legal position.now m.now q → IsTrue result ↔ TravelHolds diagram.now q left }
{
    if rows.is_of(diagram) {
        if !is_told_by(rows, position, m) {
            let there = position.after(m);
            return either_excludes(rows, diagram, &there, left);
        }
        if above_after(rows, position, m, left) {
            return true;
        }
        either_excludes_after(rows, diagram, position, m, left)
    } else {
        travel_holds(diagram, &position.after(m), left)
    }
}

/// The bound by travel, code 4, for many positions and one diagram: it excludes what `Travel` does, for
/// any diagram, and is several times as fast for the one that its rows are made of.
#[derive(Drop)]
pub struct TravelByRows {
    pub rows: Rows,
}

impl Bound for TravelByRows {
    ghost use Rattle.pg_board.specs.lemmas.Decisions.{answer_tells};
    ghost use Rattle.pg_travel.specs.Decided.{dec_travel, travel_test};
    ghost use Rattle.pg_travel.specs.lemmas.NeedLemmas.{travel_barren};

    ghost code_of = { λ b. 4 };

    ghost excluded = { λ b d p k. travel_test d p k };

    ghost sound = { λ b d p k valid h. travel_barren d p k valid ((answer_tells (dec_travel d p k)).0 h) };

    fn code(&self) -> u8
        ensures { result ≡ 4 }
    {
        Travel::CODE
    }

    fn excludes(&self, diagram: &Diagram, position: &Position, left: u8) -> bool
        ensures fixed { result ≡ travel_test diagram.now position.now left }
        ensures exact { IsTrue result ↔ TravelHolds diagram.now position.now left }
    {
        travel_holds_by(&self.rows, diagram, position, left)
    }

    fn excludes_after(&self, diagram: &Diagram, position: &Position, m: &Move, left: u8) -> bool {
        if far_off_after(diagram, position, m, left) {
            return true;
        }
        excludes_after_by(&self.rows, diagram, position, m, left)
    }
}
