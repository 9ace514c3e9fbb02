//! The search for a tariff that excludes a node, by steps of Polyak's.
ghost use Rattle.pg_journeys.specs.inner.Grounds.{IsGround};

use crate::points::{Course, Gradient, Point};
use crate::probing::{Node, Outcome, probe};
use pg_tolls::Tariff;
use std::alloc::{AllocError, Global};

// How many steps are made at most till a tariff is met that excludes the node: from one that nearly does, and from the
// plain one.
const STEPS: u8 = 24;

const PLAIN_STEPS: u8 = 32;

// How many further steps are made, for one that excludes it by more: it excludes more of the other nodes, too.
const FURTHER_STEPS: u8 = 24;

// A whole step, and the least part of one.
const WHOLE_PACE: i64 = 1_024;

const LEAST_PACE: i64 = 102;

// How many steps may bring nothing before the next ones are made smaller.
const PATIENCE: u8 = 4;

// How far steps go, of 1024 parts of a whole one: smaller and smaller ones where they bring nothing.
#[derive(Clone, Copy)]
struct Pace {
    parts: i64,
    best: i64,
    since: u8,
}

impl Pace {
    // Looks at what a tariff came to, and says whether steps still go far enough.
    fn heed(&mut self, total: i64) -> bool {
        if total > self.best {
            self.best = total;
            self.since = 0;
            return true;
        }
        self.since = self.since.saturating_add(1);
        if self.since >= PATIENCE {
            self.since = 0;
            self.parts = self.parts.saturating_mul(3) / 5;
        }
        self.parts >= LEAST_PACE
    }
}

// A search from one start: where it is and where it leads, how many steps are left, and the best tariff so far of those
// that exclude the node.
#[derive(Drop)]
struct Climb {
    point: Point,
    course: Course,
    pace: Pace,
    left: u8,
    best: Option<Tariff>,
}

impl Climb {
    fn from(point: Point, steps: u8) -> Climb {
        Climb {
            point,
            course: Course::NONE,
            pace: Pace {
                parts: WHOLE_PACE,
                best: i64::MIN,
                since: 0,
            },
            left: steps,
            best: None,
        }
    }

    // Keeps a tariff that excludes the node by more than any before. Behind the first one fewer steps are left.
    fn keep(&mut self, tariff: &Tariff, total: i64) {
        if total > self.pace.best.max(0) {
            if self.best.is_none() {
                self.left = FURTHER_STEPS.saturating_add(1);
            }
            self.best = Some(*tariff);
        }
    }

    // Goes on from a tariff with this gradient, where that leads anywhere and steps are left.
    fn step(&mut self, tariff: &Tariff, gradient: &Gradient) -> bool {
        self.keep(tariff, gradient.total);
        self.left = self.left.saturating_sub(1);
        if self.left == 0 || !self.pace.heed(gradient.total) {
            return false;
        }
        self.course = self.course.turned(gradient);
        self.point
            .step(&self.course, gradient.total, self.pace.parts)
    }
}

// Looks for a tariff by steps, and counts them.
fn find_by_steps(
    alloc: Global,
    node: &Node<'_>,
    mut climb: Climb,
    steps: &mut u64,
) -> Result<Option<Tariff>, AllocError>
    requires white { IsGround node.now.white.now }
    requires black { IsGround node.now.black.now }
{
    for _ in 0..PLAIN_STEPS + FURTHER_STEPS {
        let tariff = climb.point.rounded();
        *steps = steps.saturating_add(1);
        match probe(alloc, node, &tariff)? {
            Outcome::NoPlan => return Ok(Some(tariff)),
            Outcome::Planned(gradient) => {
                if !climb.step(&tariff, &gradient) {
                    return Ok(climb.best);
                }
            }
        }
    }
    Ok(climb.best)
}

/// Looks for a tariff that excludes a node, from one that nearly does where one is known, and counts the steps.
///
/// # Errors
/// Where memory is refused.
pub(crate) fn find_at(
    alloc: Global,
    node: &Node<'_>,
    nearest: Option<&Tariff>,
    steps: &mut u64,
) -> Result<Option<Tariff>, AllocError>
    requires white { IsGround node.now.white.now }
    requires black { IsGround node.now.black.now }
{
    let start = match nearest {
        Some(tariff) => Climb::from(Point::of(tariff), STEPS),
        None => Climb::from(Point::plain(), PLAIN_STEPS),
    };
    find_by_steps(alloc, node, start, steps)
}
