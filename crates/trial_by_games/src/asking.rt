//! What bounds are asked of a game.
use crate::play::Game;
use crate::refusal::Refusal;
use pg_board::Color;
use pg_captures::{Bound, plies_left};
use pg_fen::Diagram;
use pg_journeys::Journeys;
use pg_position::Position;
use pg_tolls::{Tariff, Tolls};
use std::alloc::Global;

// How many positions the bound by journeys was asked of, how many times tariffs were, and at how many of these times
// the cheapest plans cost all that the plies pay for.
#[derive(Clone, Copy, Default)]
pub(crate) struct Tally {
    pub(crate) by_journeys: u64,
    pub(crate) by_tariffs: u64,
    pub(crate) without_spare: u64,
}

// Asks the bound by journeys of each position of a game.
pub(crate) fn ask_journeys(game: &Game, number: u64, tally: &mut Tally) -> Result<(), Refusal> {
    let diagram = Diagram::of(&game.end);
    let mut left = game.positions.len();
    for position in game.positions.as_slice() {
        let plies = u8::try_from(left).unwrap_or(255);
        if Journeys.excludes(&diagram, position, plies) {
            return Err(Refusal::Excluded(number, plies));
        }
        tally.by_journeys = tally.by_journeys.saturating_add(1);
        left = left.saturating_sub(1);
    }
    Ok(())
}

// What `left` plies pay for by a tariff.
fn paid(tariff: &Tariff, position: &Position, left: u8) -> i64 {
    let white = plies_left(position.side(), Color::White, left);
    let black = plies_left(position.side(), Color::Black, left);
    i64::from(tariff.weight(Color::White))
        .saturating_mul(i64::from(white))
        .saturating_add(i64::from(tariff.weight(Color::Black)).saturating_mul(i64::from(black)))
}

// Whether the cheapest plans of a position cost all that the plies pay for, and these pay for something.
fn has_no_spare(bound: &Tolls, position: &Position, left: u8) -> bool {
    let paid = paid(bound.tariff(), position, left);
    match bound.leasts(position) {
        None => false,
        Some(leasts) => match (leasts.white, leasts.black) {
            (Some(white), Some(black)) => paid > 0 && white.saturating_add(black) == paid,
            _ => false,
        },
    }
}

// Asks the bound by tolls of each position of a game, by a tariff.
pub(crate) fn ask_tariff(
    alloc: Global,
    tariff: &Tariff,
    game: &Game,
    number: u64,
    tally: &mut Tally,
) -> anyhow::Result<()> {
    let diagram = Diagram::of(&game.end);
    let bound = Tolls::new(alloc, &diagram, tariff, Tolls::FIRST_CODE)?;
    let mut left = game.positions.len();
    for position in game.positions.as_slice() {
        let plies = u8::try_from(left).unwrap_or(255);
        if bound.excludes(&diagram, position, plies) {
            return Err(Refusal::ExcludedByTariff(number, plies))?;
        }
        if has_no_spare(&bound, position, plies) {
            tally.without_spare = tally.without_spare.saturating_add(1);
        }
        tally.by_tariffs = tally.by_tariffs.saturating_add(1);
        left = left.saturating_sub(1);
    }
    Ok(())
}
