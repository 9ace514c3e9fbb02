//! A tariff tried at one node, with the gradient there.
ghost use Rattle.pg_journeys.specs.inner.Grounds.{IsGround};

use crate::limits::paid;
use crate::points::Gradient;
use pg_board::Color;
use pg_captures::{plies_left, victims_of};
use pg_fen::Diagram;
use pg_journeys::Ground;
use pg_position::Position;
use pg_tolls::{Fares, Plan, Tariff};
use std::alloc::{AllocError, Global};

/// A node on the way to a diagram, and the ground of both colours' steps.
#[derive(Clone, Copy)]
pub(crate) struct Node<'a> {
    pub(crate) diagram: &'a Diagram,
    pub(crate) position: &'a Position,
    pub(crate) left: u8,
    pub(crate) white: &'a Ground,
    pub(crate) black: &'a Ground,
}

/// What a tariff came to at a node: a colour has no plan, so it excludes the node; or both have one, and it does where
/// the total is above 0.
#[derive(Clone, Copy)]
pub(crate) enum Outcome {
    NoPlan,
    Planned(Gradient),
}

// The cheapest plan of a colour, whose ground this is. Tables are made for what it owes here.
fn plan_of(
    alloc: Global,
    node: &Node<'_>,
    tariff: &Tariff,
    ground: &Ground,
) -> Result<Option<Plan>, AllocError>
    requires { IsGround ground.now }
{
    let here = victims_of(&node.position.board(), ground.color);
    let owed = here.saturating_sub(victims_of(&node.diagram.board(), ground.color));
    let fares = Fares::new(alloc, node.diagram, tariff, ground, owed)?;
    Ok(fares.plan(ground, node.position))
}

// How many more steps than plies a plan has.
fn steps_beyond(plan: &Plan, plies: u8) -> i64 {
    i64::from(plan.steps).saturating_sub(i64::from(plies))
}

// How many more captures one colour makes on each square than men of the other die there.
fn captures_beyond(plan: &Plan, other: &Plan) -> [i64; 64] {
    let mut beyond = [0i64; 64];
    for at in 0..64usize {
        beyond[at] = i64::from(plan.marks[at]).saturating_sub(i64::from(other.deaths[at]));
    }
    beyond
}

// What the cheapest plans of both colours come to.
fn gradient_of(node: &Node<'_>, tariff: &Tariff, white: &Plan, black: &Plan) -> Gradient {
    let side = node.position.side();
    let ours = plies_left(side, Color::White, node.left);
    let theirs = plies_left(side, Color::Black, node.left);
    let charged = white.charged.saturating_add(black.charged);
    let total = charged.saturating_sub(i64::from(paid(tariff, side, node.left)));
    Gradient {
        total,
        weights: [steps_beyond(white, ours), steps_beyond(black, theirs)],
        tolls: [captures_beyond(white, black), captures_beyond(black, white)],
    }
}

/// What a tariff comes to at a node, with the gradient there.
///
/// # Errors
/// Where memory is refused.
pub(crate) fn probe(alloc: Global, node: &Node<'_>, tariff: &Tariff) -> Result<Outcome, AllocError>
    requires white { IsGround node.now.white.now }
    requires black { IsGround node.now.black.now }
{
    let Some(white) = plan_of(alloc, node, tariff, node.white)? else {
        return Ok(Outcome::NoPlan);
    };
    let Some(black) = plan_of(alloc, node, tariff, node.black)? else {
        return Ok(Outcome::NoPlan);
    };
    Ok(Outcome::Planned(gradient_of(node, tariff, &white, &black)))
}
