//! A colour's cheapest plan, read off its tables. Nothing is proved of it.
ghost use Rattle.std.specs.Prelude.{◌≤◌, ◌<◌};
ghost use Rattle.pg_captures.specs.Counting.{men, any_man};
ghost use Rattle.pg_journeys.specs.inner.Grounds.{IsGround};

use crate::bills::{Bill, Party, bill_of, castled_of};
use crate::excluding::surplus;
use crate::half::Half;
use crate::values::{is_open, party_of, sum};
use crate::walking::{March, Walker, charge_at, walk};
use pg_assignments::{Costs, least_columns};
use pg_board::Square;
use pg_fen::Diagram;
use pg_journeys::{charge, counted};
use pg_position::{Position, Wing};

/// A plan of one colour's men.
#[derive(Clone, Copy)]
pub struct Plan {
    /// What it is charged, in sixteenths of a ply.
    pub charged: i64,
    /// How many steps its men make; a castling counts one.
    pub steps: u32,
    /// How many steps to each square are marked as captures.
    pub marks: [u8; 64],
    /// How many of its men are captured on each square.
    pub deaths: [u8; 64],
}

// A way with the columns to which the men go, and what they cost.
#[derive(Clone, Copy)]
struct Choice {
    way: Option<Wing>,
    columns: [u8; 16],
    cost: u32,
}

// The columns of least cost for the men of a bill.
fn choice_of(half: &Half, way: Option<Wing>, bill: &Bill) -> Option<Choice> {
    let size = bill.size.min(16);
    let costs = Costs {
        size,
        rows: bill.rows,
    };
    let columns = least_columns(&costs)?;
    let mut cost = u32::from(half.weight).saturating_mul(u32::from(charge(way)));
    for i in 0..size {
        let beyond = bill.rows[i][usize::from(columns[i]) % 16];
        cost = cost
            .saturating_add(u32::from(bill.leasts[i]))
            .saturating_add(u32::from(beyond));
    }
    Some(Choice { way, columns, cost })
}

// The cheaper of two, where there are any.
fn cheaper(one: &Option<Choice>, other: &Option<Choice>) -> Option<Choice> {
    match (one, other) {
        (None, _) => *other,
        (_, None) => *one,
        (Some(first), Some(second)) => {
            if second.cost < first.cost {
                Some(*second)
            } else {
                Some(*first)
            }
        }
    }
}

// The columns of least cost where the men of a party castle, if that is open, and may cost them less than their bill
// without it.
fn castled_choice(
    half: &Half,
    position: &Position,
    party: &Party,
    bill: &Bill,
    wing: Wing,
) -> Option<Choice>
    requires { party.now.men.count ≤ 16 }
{
    if !is_open(half, position, wing) {
        return None;
    }
    let castled = castled_of(half, party, bill, wing);
    if sum(&castled.spared, party.men.count) <= u32::from(half.weight) {
        return None;
    }
    choice_of(half, Some(wing), &castled.bill)
}

// The columns of least cost over all ways.
fn best_choice(half: &Half, position: &Position, party: &Party) -> Option<Choice>
    requires { party.now.men.count ≤ 16 }
{
    let bill = bill_of(half, party);
    let plain = choice_of(half, None, &bill);
    let short = castled_choice(half, position, party, &bill, Wing::KingSide);
    let long = castled_choice(half, position, party, &bill, Wing::QueenSide);
    cheaper(&cheaper(&plain, &short), &long)
}

// The square that a man of a party has just passed, if it costs him no more to be captured there than by his table.
fn passed_by(
    half: &Half,
    position: &Position,
    party: &Party,
    square: Square,
    walker: &Walker,
) -> Option<Square> {
    let passing = &party.passing;
    if passing.cost == u16::MAX || square != passing.square {
        return None;
    }
    if passing.cost > charge_at(half, walker, 15) {
        return None;
    }
    position.passed()
}

// The man of a party as he sets out.
fn walker_of(half: &Half, party: &Party, way: Option<Wing>, i: usize) -> Walker
    requires { i < 16 }
{
    Walker {
        kind: party.men.kinds[i],
        square: counted(half.color, way, party.men.squares[i]),
        marks: party.marks,
    }
}

// What a man of a party comes to: to be captured as he has just passed a square, or a walk to a column's fate.
fn add_man(
    march: &March<'_>,
    position: &Position,
    party: &Party,
    choice: &Choice,
    i: usize,
    plan: &mut Plan,
)
    requires ground { IsGround march.now.ground.now }
    requires man { i < 16 }
{
    let walker = walker_of(march.half, party, choice.way, i);
    let column = usize::from(choice.columns[i]);
    if column < march.half.goals.count {
        walk(march, &walker, column, plan);
        return;
    }
    match passed_by(march.half, position, party, party.men.squares[i], &walker) {
        Some(passed) => plan.add_death(passed),
        None => walk(march, &walker, 15, plan),
    }
}

impl Plan {
    // Counts a marked step to a square.
    pub(crate) fn add_mark(&mut self, square: Square) {
        let at = usize::from(square.index());
        self.marks[at] = self.marks[at].saturating_add(1);
    }

    // Counts a man who is captured on a square.
    pub(crate) fn add_death(&mut self, square: Square) {
        let at = usize::from(square.index());
        self.deaths[at] = self.deaths[at].saturating_add(1);
    }
}

// The cheapest plan of a colour that has sixteen men at most.
pub(crate) fn cheapest_plan(
    march: &March<'_>,
    diagram: &Diagram,
    position: &Position,
) -> Option<Plan>
    requires few { men march.now.half.now.color any_man position.now.board ≤ 16 }
    requires ground { IsGround march.now.ground.now }
{
    let half = march.half;
    let party = party_of(half, diagram, position);
    if party.men.count > 16 {
        return None;
    }
    let choice = best_choice(half, position, &party)?;
    let mut plan = Plan {
        charged: i64::from(choice.cost) - i64::from(surplus(half, diagram, position)),
        steps: u32::from(charge(choice.way)),
        marks: [0; 64],
        deaths: [0; 64],
    };
    for i in 0..party.men.count {
        add_man(march, position, &party, &choice, i, &mut plan);
    }
    Some(plan)
}
