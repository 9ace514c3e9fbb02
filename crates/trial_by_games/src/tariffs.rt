//! Tariffs that are drawn.
use crate::dice::Dice;
use pg_board::{Square, SquareSet};
use pg_tolls::Tariff;

// A weight: mostly up to 24, now and then 0 or any.
fn weight(dice: &mut Dice) -> u8 {
    let drawn = match dice.below(8) {
        0 => 0,
        1 => dice.between(0, 255),
        _ => dice.between(0, 24),
    };
    u8::try_from(drawn).unwrap_or(0)
}

// Tolls up to `most`, of either sign: each square has one with a chance of one in `rarity`.
fn drawn_tolls(dice: &mut Dice, most: i16, rarity: usize) -> [i8; 64] {
    let mut tolls = [0i8; 64];
    for at in 0..64usize {
        if dice.below(rarity) == 0 {
            let toll = dice.between(most.saturating_neg().saturating_sub(1), most);
            tolls[at] = i8::try_from(toll).unwrap_or(0);
        }
    }
    tolls
}

// A tariff whose tolls are small on a few squares or on many; now and then they are any.
pub(crate) fn drawn_tariff(dice: &mut Dice) -> Tariff {
    let most = match dice.below(4) {
        0 => 127,
        _ => dice.between(0, 16),
    };
    let rarity = dice.below(16).saturating_add(1);
    Tariff {
        weights: [weight(dice), weight(dice)],
        tolls: [
            drawn_tolls(dice, most, rarity),
            drawn_tolls(dice, most, rarity),
        ],
    }
}

// Tolls on some squares alone, of either sign, but mostly such as make a capture there cheaper than a step.
fn tolls_on(dice: &mut Dice, squares: SquareSet, weight: u8) -> [i8; 64] {
    let mut tolls = [0i8; 64];
    for at in 0..64u8 {
        if squares.contains(Square::at(at)) {
            let least = i16::from(weight).saturating_neg();
            let most = if dice.below(4) == 0 { 8 } else { 0 };
            let toll = dice.between(least, most);
            tolls[usize::from(at)] = i8::try_from(toll).unwrap_or(0);
        }
    }
    tolls
}

// A tariff with tolls on the squares alone where a game captures.
pub(crate) fn tight_tariff(dice: &mut Dice, captures: &[SquareSet; 2]) -> Tariff {
    let white = u8::try_from(dice.between(1, 24)).unwrap_or(1);
    let black = u8::try_from(dice.between(1, 24)).unwrap_or(1);
    Tariff {
        weights: [white, black],
        tolls: [
            tolls_on(dice, captures[0], white),
            tolls_on(dice, captures[1], black),
        ],
    }
}
