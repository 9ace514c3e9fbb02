//! Tariffs between those of whole sixteenths, and the steps of a search over them.

use pg_tolls::Tariff;

// A ply.
const PLY: i64 = 4_096;

// A sixteenth of one.
const SIXTEENTH: i64 = 256;

// What tolls may be: eight plies, of either sign.
const LEAST_TOLL: i64 = -32_768;

const MOST_TOLL: i64 = 32_768;

// The search goes on while some weight is above the first of these, and scales down above the second.
const LEAST_WEIGHT: i64 = 1_229;

const MOST_WEIGHT: i64 = 6_144;

// Each step aims at so much above what the plies pay for, or above where it begins if that is more: 0.6 of a ply.
const AIM: i64 = 2_458;

// The unit of a gradient, in parts of which a course is told.
const UNIT: i64 = 256;

/// What the cheapest plans of both colours are charged, less what the plies pay for, in sixteenths of a ply; and by how
/// much it grows with each weight and with each toll.
#[derive(Clone, Copy)]
pub(crate) struct Gradient {
    pub(crate) total: i64,
    pub(crate) weights: [i64; 2],
    pub(crate) tolls: [[i64; 64]; 2],
}

/// A weight for each colour, and a toll for each colour and square, in parts of which a ply has 4096.
#[derive(Clone, Copy)]
pub(crate) struct Point {
    weights: [i64; 2],
    tolls: [[i64; 64]; 2],
}

/// Where a step leads: how far each weight and each toll goes, in 256 parts of what a gradient has.
#[derive(Clone, Copy)]
pub(crate) struct Course {
    weights: [i64; 2],
    tolls: [[i64; 64]; 2],
}

// A number of sixteenths, as near as may be.
fn in_sixteenths(parts: i64, least: i64, most: i64) -> i64 {
    let sixteenths = parts.saturating_add(SIXTEENTH / 2) >> 8;
    sixteenths.max(least).min(most)
}

// Tolls in whole sixteenths.
fn rounded_tolls(tolls: &[i64; 64]) -> [i8; 64] {
    let mut rounded = [0i8; 64];
    for at in 0..64usize {
        rounded[at] = i8::try_from(in_sixteenths(tolls[at], -128, 127)).unwrap_or(0);
    }
    rounded
}

// A weight in whole sixteenths.
fn rounded_weight(weight: i64) -> u8 {
    u8::try_from(in_sixteenths(weight, 0, 255)).unwrap_or(0)
}

// Tolls in parts.
fn parts_of(tolls: &[i8; 64]) -> [i64; 64] {
    let mut parts = [0i64; 64];
    for at in 0..64usize {
        parts[at] = i64::from(tolls[at]).saturating_mul(SIXTEENTH);
    }
    parts
}

// The sum of products.
fn products(some: &[i64; 64], others: &[i64; 64]) -> i64 {
    let mut sum = 0i64;
    for at in 0..64usize {
        sum = sum.saturating_add(some[at].saturating_mul(others[at]));
    }
    sum
}

// Numbers in parts of their unit.
fn in_parts(numbers: &[i64; 64]) -> [i64; 64] {
    let mut parts = [0i64; 64];
    for at in 0..64usize {
        parts[at] = numbers[at].saturating_mul(UNIT);
    }
    parts
}

// A number with `kept` of 1024 parts of another.
fn with_kept(number: i64, before: i64, kept: i64) -> i64 {
    number.saturating_add(before.saturating_mul(kept) >> 10)
}

// Numbers, each with as much of another.
fn all_with_kept(numbers: &[i64; 64], before: &[i64; 64], kept: i64) -> [i64; 64] {
    let mut sums = [0i64; 64];
    for at in 0..64usize {
        sums[at] = with_kept(numbers[at], before[at], kept);
    }
    sums
}

// Tolls `by` parts further along a course.
fn moved(tolls: &[i64; 64], along: &[i64; 64], by: i64) -> [i64; 64] {
    let mut moved = *tolls;
    for at in 0..64usize {
        let next = tolls[at].saturating_add(along[at].saturating_mul(by) / UNIT);
        moved[at] = next.max(LEAST_TOLL).min(MOST_TOLL);
    }
    moved
}

// A number as a part of another one that stands for a ply.
fn scaled(number: i64, ply: i64) -> i64 {
    number.saturating_mul(PLY).checked_div(ply).unwrap_or(0)
}

// Tolls by the same scale.
fn scaled_tolls(tolls: &[i64; 64], ply: i64) -> [i64; 64] {
    let mut scaled_down = *tolls;
    for at in 0..64usize {
        scaled_down[at] = scaled(tolls[at], ply);
    }
    scaled_down
}

impl Course {
    /// Nowhere yet.
    pub(crate) const NONE: Course = Course {
        weights: [0; 2],
        tolls: [[0; 64]; 2],
    };

    // Along a gradient.
    fn along(gradient: &Gradient) -> Course {
        Course {
            weights: [
                gradient.weights[0].saturating_mul(UNIT),
                gradient.weights[1].saturating_mul(UNIT),
            ],
            tolls: [in_parts(&gradient.tolls[0]), in_parts(&gradient.tolls[1])],
        }
    }

    // Four times the product of two courses. A weight counts a quarter of a toll.
    fn four_products(&self, other: &Course) -> i64 {
        let ours = products(&self.tolls[0], &other.tolls[0]);
        let theirs = products(&self.tolls[1], &other.tolls[1]);
        ours.saturating_add(theirs)
            .saturating_mul(4)
            .saturating_add(self.weights[0].saturating_mul(other.weights[0]))
            .saturating_add(self.weights[1].saturating_mul(other.weights[1]))
    }

    /// The course along a gradient; where that leads back on the course so far, at a right angle to it, which keeps
    /// steps from going to and fro between the same few plans.
    pub(crate) fn turned(&self, gradient: &Gradient) -> Course {
        let ahead = Course::along(gradient);
        let back = 0i64.saturating_sub(ahead.four_products(self)).max(0);
        let kept = back
            .saturating_mul(1_024)
            .checked_div(self.four_products(self))
            .unwrap_or(0);
        Course {
            weights: [
                with_kept(ahead.weights[0], self.weights[0], kept),
                with_kept(ahead.weights[1], self.weights[1], kept),
            ],
            tolls: [
                all_with_kept(&ahead.tolls[0], &self.tolls[0], kept),
                all_with_kept(&ahead.tolls[1], &self.tolls[1], kept),
            ],
        }
    }

    // How far to go, in parts of which a ply has 4096, so that a total grows by what is missing; `pace` of 1024 parts of
    // that, and a whole ply at most.
    fn length(&self, missing: i64, pace: i64) -> Option<i64> {
        let four_lengths = self.four_products(self) / (UNIT * UNIT);
        let whole = missing.saturating_mul(pace).saturating_mul(4);
        let by = whole.checked_div(four_lengths.saturating_mul(1_024))?;
        Some(by.min(PLY))
    }
}

impl Point {
    /// A ply for each step, and no tolls.
    pub(crate) fn plain() -> Point {
        Point {
            weights: [PLY; 2],
            tolls: [[0; 64]; 2],
        }
    }

    /// A tariff.
    pub(crate) fn of(tariff: &Tariff) -> Point {
        Point {
            weights: [
                i64::from(tariff.weights[0]).saturating_mul(SIXTEENTH),
                i64::from(tariff.weights[1]).saturating_mul(SIXTEENTH),
            ],
            tolls: [parts_of(&tariff.tolls[0]), parts_of(&tariff.tolls[1])],
        }
    }

    /// The nearest tariff.
    pub(crate) fn rounded(&self) -> Tariff {
        Tariff {
            weights: [
                rounded_weight(self.weights[0]),
                rounded_weight(self.weights[1]),
            ],
            tolls: [rounded_tolls(&self.tolls[0]), rounded_tolls(&self.tolls[1])],
        }
    }

    // A weight further along a course, by a quarter of what tolls go.
    fn move_weight(&mut self, color: usize, along: i64, by: i64) {
        if color < 2 {
            let next = self.weights[color].saturating_add(along.saturating_mul(by) / (4 * UNIT));
            self.weights[color] = next.max(0);
        }
    }

    // Scales all down where a weight is large, so that the greater one is a ply.
    fn scale_down(&mut self) {
        let most = self.weights[0].max(self.weights[1]);
        if most > MOST_WEIGHT {
            let (white, black) = (scaled(self.weights[0], most), scaled(self.weights[1], most));
            self.weights = [white, black];
            let ours = scaled_tolls(&self.tolls[0], most);
            let theirs = scaled_tolls(&self.tolls[1], most);
            self.tolls = [ours, theirs];
        }
    }

    /// Makes a step of Polyak's along a course from where the total is this, `pace` of 1024 parts of a whole one, and
    /// says whether it leads anywhere.
    pub(crate) fn step(&mut self, course: &Course, total: i64, pace: i64) -> bool {
        let missing = AIM.saturating_sub(total.min(0).saturating_mul(SIXTEENTH));
        let Some(by) = course.length(missing, pace) else {
            return false;
        };
        let ours = moved(&self.tolls[0], &course.tolls[0], by);
        let theirs = moved(&self.tolls[1], &course.tolls[1], by);
        self.tolls = [ours, theirs];
        self.move_weight(0, course.weights[0], by);
        self.move_weight(1, course.weights[1], by);
        let goes_on = self.weights[0].max(self.weights[1]) >= LEAST_WEIGHT;
        self.scale_down();
        goes_on
    }
}
