//! The job `journeys`: what a searcher asks of the fifth bound. Along games of 8.0 to 25.0 moves each position is
//! asked for the diagram of the end, which excludes none, and four of its children by other moves, most of which
//! are excluded; and every fourth for the facts.
use crate::dice::Dice;
use crate::digest::Digest;
use crate::games::{Game, Manner, play};
use pg_captures::Bound;
use pg_fen::Diagram;
use pg_journeys::{Facts, Journeys, facts_for};
use pg_moves::legal_moves;
use pg_position::{Move, Position};
use std::alloc::Global;

fn take_facts(facts: Option<Facts>, digest: &mut Digest) {
    match facts {
        None => digest.number(0),
        Some(facts) => {
            digest.number(facts.still.bits());
            digest.number(facts.white.bits());
            digest.number(facts.black.bits());
        }
    }
}

// Asks of up to four children by other moves than the game's own, no two by the same one.
fn ask_children(
    alloc: Global,
    dice: &mut Dice,
    diagram: &Diagram,
    position: &Position,
    own: &Move,
    left: u8,
    digest: &mut Digest,
) -> anyhow::Result<()> {
    let moves = legal_moves(alloc, position)?;
    let start = dice.below(moves.len());
    let mut asked = 0u8;
    for i in 0..moves.len() {
        if asked == 4 {
            break;
        }
        let Some(m) = moves.get(start.saturating_add(i) % moves.len()) else {
            break;
        };
        if *m == *own {
            continue;
        }
        if let Ok(child) = position.play(*m) {
            digest.number(u64::from(Journeys.excludes(diagram, &child, left)));
            asked = asked.saturating_add(1);
        }
    }
    Ok(())
}

// What is asked along a game; how many positions it has.
fn along(alloc: Global, dice: &mut Dice, game: &Game, digest: &mut Digest) -> anyhow::Result<u64> {
    let diagram = game.diagram();
    let mut left = game.plies();
    for (position, own) in game.before.as_slice().iter().zip(game.moves.as_slice()) {
        digest.number(u64::from(Journeys.excludes(&diagram, position, left)));
        if left % 4 == 0 {
            take_facts(facts_for(&diagram, position, left), digest);
        }
        left = left.saturating_sub(1);
        ask_children(alloc, dice, &diagram, position, own, left, digest)?;
    }
    Ok(game.before.len() as u64)
}

// Games until `size` positions were asked.
pub(crate) fn run(
    alloc: Global,
    dice: &mut Dice,
    size: u64,
    digest: &mut Digest,
) -> anyhow::Result<()> {
    let mut asked = 0u64;
    for _ in 0..u64::MAX {
        if asked >= size {
            break;
        }
        let plies = 16 + dice.below(35).min(100) as u8;
        let game = play(alloc, dice, Manner::Thrifty, plies)?;
        asked = asked
            .saturating_add(along(alloc, dice, &game, digest)?)
            .saturating_add(1);
    }
    Ok(())
}
