//! One node of a led search: judged, and opened where nothing excludes it.
ghost use Rattle.std.specs.Prelude.{◌≡◌};
ghost use Rattle.pg_position.specs.Step.{IsLegal};

use crate::judge::{Cutting, Judge, is_cut_by_journeys};
use crate::led::barren::ANY;
use crate::led::machine::{Halt, LedQuestion, Open, Sieve};
use crate::led::order::Due;
use crate::led::plain::Scene;
use crate::sides::{Side, Sides, changes_of};
use pg_position::Position;
use pg_prices::node_key;
use std::alloc::AllocError;

// What becomes of a node: no game ends on the diagram below it; none with as many foreign moves as may
// come; or it opens.
#[derive(Drop)]
pub(crate) enum Entry {
    Barren,
    Refused,
    Opens(Open),
}

// How many plies are left at a node, and how many foreign moves may come.
#[derive(Clone, Copy)]
pub(crate) struct Allowance {
    pub(crate) left: u8,
    pub(crate) foreign: u8,
}

// A legal move that is not known to be cut, and its colour after it, where it is plain.
#[derive(Clone, Copy)]
pub(crate) struct LedUncut {
    pub(crate) due: Due,
    pub(crate) own: Option<Side>,
}

// Whether a cut excludes a node.
fn is_cut(verdict: Cutting) -> bool {
    match verdict {
        Cutting::Cut(_) | Cutting::Pawns(_) | Cutting::Travel(_) => true,
        Cutting::Stays | Cutting::Unknown => false,
    }
}

// A node that no cut by other bounds or by prices excludes: barren where one of the same future was, with as many
// foreign moves, or where journeys exclude, if they are asked. They are asked of the position and not of the key, which
// has the passed square only where a capture there is legal.
fn stay(
    question: &LedQuestion,
    sieve: &Sieve,
    position: &Position,
    sides: &Sides,
    allowance: Allowance,
) -> Entry {
    let key = node_key(
        sides.white.key,
        sides.black.key,
        position.side(),
        position.effective_passed(),
        allowance.left,
    );
    match sieve.barren.get(key) {
        Some(ANY) => return Entry::Barren,
        Some(foreign) if foreign >= allowance.foreign => return Entry::Refused,
        _ => {}
    }
    if is_cut_by_journeys(question.journeys, position, allowance.left) {
        return Entry::Barren;
    }
    Entry::Opens(Open::new(position, sides, key, allowance.foreign))
}

// Judges a node with at least two plies left, of which so much is known.
pub(crate) fn enter(
    question: &LedQuestion,
    sieve: &mut Sieve,
    position: &Position,
    known: Option<Sides>,
    allowance: Allowance,
) -> Result<Entry, AllocError> {
    let diagram = question.diagram;
    let (verdict, sides) = sieve.judge.enter(diagram, position, known, allowance.left)?;
    if is_cut(verdict) {
        Ok(Entry::Barren)
    } else {
        Ok(stay(question, sieve, position, &sides, allowance))
    }
}

// What is known of both colours after a move that no cut excludes, or nothing; none where a cut excludes.
#[inline(always)]
fn known_after(
    judge: &Judge,
    scene: &Scene,
    top: &Open,
    uncut: &LedUncut,
) -> Option<Option<Sides>> {
    let color = scene.position.side();
    let mut sides = top.sides;
    if let Some(own) = &uncut.own {
        sides.set(color, *own);
        return Some(Some(sides));
    }
    let Some(changes) = changes_of(&scene.position, &uncut.due.m) else {
        return Some(None);
    };
    let verdict = judge.quick(color, &mut sides, &changes, scene.left);
    if is_cut(verdict) {
        None
    } else {
        Some(Some(sides))
    }
}

// The node after a legal move of an open one, which was visited: the node where it opens.
pub(crate) fn child(
    question: &LedQuestion,
    sieve: &mut Sieve,
    top: &mut Open,
    scene: &Scene,
    uncut: &LedUncut,
) -> Result<Option<Open>, Halt>
    requires legal { IsLegal scene.now.position uncut.now.due.m }
    ensures moves { top.new.moves ≡ top.old.moves }
{
    let due = uncut.due;
    let Some(known) = known_after(&sieve.judge, scene, top, uncut) else {
        return Ok(None);
    };
    if due.is_foreign && top.foreign == 0 {
        top.refused = true;
        return Ok(None);
    }
    let allowance = Allowance {
        left: scene.left,
        foreign: top.foreign.saturating_sub(u8::from(due.is_foreign)),
    };
    let next = scene.position.after(&due.m);
    match enter(question, sieve, &next, known, allowance) {
        Ok(Entry::Barren) => Ok(None),
        Ok(Entry::Refused) => {
            top.refused = true;
            Ok(None)
        }
        Ok(Entry::Opens(opened)) => {
            top.played = Some(due.m);
            Ok(Some(opened))
        }
        Err(_) => Err(Halt::Memory),
    }
}
