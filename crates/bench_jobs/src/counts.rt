//! The job `counts`: the games of 4 plies from positions of random games, as texts.
use crate::dice::Dice;
use crate::digest::Digest;
use crate::fault::Fault;
use crate::games::{Manner, play};
use pg_fen::{FenGame, write_position};
use pg_report::{ToWrite, run_count};
use std::alloc::Global;

// How many plies are counted.
const PLIES: u8 = 4;

// `size` positions, each of a game of its own of 8 to 80 plies.
pub(crate) fn run(
    alloc: Global,
    dice: &mut Dice,
    size: u64,
    digest: &mut Digest,
) -> anyhow::Result<()> {
    for _ in 0..size {
        let plies = 8 + dice.below(73).min(100) as u8;
        let game = play(alloc, dice, Manner::Any, plies)?;
        let text = write_position(&FenGame {
            position: game.end,
            half: 0,
            full: 1,
        });
        let mut out = ToWrite::new(Vec::new(alloc));
        if run_count(alloc, text.as_str(), PLIES, &mut out).is_err() {
            return Err(Fault::NoAnswer("count"))?;
        }
        digest.text(out.into_inner().as_slice());
    }
    Ok(())
}
