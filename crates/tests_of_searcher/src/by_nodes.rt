//! Searches held to what an earlier form of the searcher said, which went from node to node and is gone: over games by
//! chance, with limits that suffice and others that do not. The rows were made by that form at commit 3b37d7f5.

mod journeys;
mod led;
mod searches;

use crate::shared::{Said, chosen, end_of, field, games_of, halves, next, number, words};
use pg_position::{Move, Position};
use pg_san::Games;
use pg_searcher::*;
use pg_trial::Digest;
use std::fmt::Write;
use std::process::Abort;

// Games that others begin with: none; with promotions of either side, castling on either wing, a capture en passant,
// and king and rooks that have moved, in reach; and one that ends by the capture en passant.
const BEGUN: &str = "
1. a4 h5 2. a5 h4 3. a6 h3 4. axb7 hxg2
1. e4 e5 2. Nf3 Nf6 3. Be2 Be7
1. d4 d5 2. Nc3 Nc6 3. Bf4 Bf5 4. Qd2 Qd7
1. e4 a6 2. e5 d5
1. h4 a5 2. Rh3 Ra6 3. Rb3 Rh6
1. e4 a6 2. e5 d5 3. exd6";

// All that was told, as a digest.
#[derive(Drop)]
struct Heard {
    digest: Digest,
}

impl Heard {
    fn new() -> Heard {
        Heard {
            digest: Digest::new(),
        }
    }

    fn hear_game(&mut self, game: &[Move]) {
        for m in game {
            self.digest
                .add_bytes(words(&format_args!("{m:?}")).as_str().as_bytes());
        }
        self.digest.add(u64::MAX);
    }

    fn hear_games(&mut self, games: &Games) {
        for i in 0..games.len() {
            if let Some(game) = games.game(i) {
                self.hear_game(game);
            }
        }
    }
}

impl SearchProgress for Heard {
    fn reached(&mut self, plies: u8, left: u64) {
        self.digest.add(u64::from(plies));
        self.digest.add(left);
    }

    fn met(&mut self, game: &[Move]) {
        self.hear_game(game);
    }
}

impl LedProgress for Heard {
    fn reached(&mut self, foreign: u8, plies: u8, left: u64) {
        self.digest.add(u64::from(foreign));
        self.digest.add(u64::from(plies));
        self.digest.add(left);
    }
}

// What some searches answered, a bar between two of them; and all that they told.
#[derive(Drop)]
struct Batch {
    said: Said,
    heard: Heard,
}

impl Batch {
    fn new() -> Batch {
        Batch {
            said: Said::new(),
            heard: Heard::new(),
        }
    }

    fn add(&mut self, said: &str) {
        let _ = write!(self.said, "{said} | ");
    }

    // The answers with the digest behind them.
    fn row(&self) -> Said {
        words(&format_args!("{}{:016x}", self.said.as_str(), self.heard.digest.value()))
    }
}

// The beginning that stands in a row by its number, from 0.
fn begun_in(rt: &impl Abort, row: &str) -> &'static str {
    let at = number(rt, field(row, 0));
    BEGUN.split('\n').nth(at as usize).expect(rt, row)
}

// A number below a bound by chance.
fn drawn(state: &mut u64, bound: u64) -> u64 {
    *state = next(*state);
    (*state >> 33).checked_rem(bound).unwrap_or(0)
}

// A game by chance, and where it ends.
#[derive(Drop)]
struct Walk {
    game: Vec<Move>,
    end: Position,
}

// The position after the moves of a game, which are added to those that were played.
fn play_begun(rt: &impl Abort, begun: &[Move], walk: &mut Walk) {
    for m in begun {
        walk.end = walk.end.play(*m).expect(rt, "legal");
        walk.game.push(*m).expect(rt, "memory");
    }
}

// A limit by chance: this number of nodes, or fewer.
fn limit_of(nodes: u64, state: &mut u64) -> u64 {
    if drawn(state, 2) == 0 {
        nodes
    } else {
        drawn(state, nodes)
    }
}

// Mostly none, else one or two.
fn few_more(state: &mut u64) -> u8 {
    drawn(state, 6).min(5).saturating_sub(3) as u8
}

// A game that begins with these moves, and has `plies` plies more, or fewer where none is legal.
fn drawn_game<R: Abort + AllocGlobal>(rt: &R, begun: &str, plies: u64, state: &mut u64) -> Walk {
    let mut walk = Walk {
        game: Vec::new(rt.alloc()),
        end: Position::array(),
    };
    if !begun.is_empty() {
        play_begun(rt, games_of(rt, begun).game(0).expect(rt, begun), &mut walk);
    }
    for _ in 0..plies {
        *state = next(*state);
        if let Some(m) = chosen(rt, rt.alloc(), &walk.end, *state >> 33) {
            play_begun(rt, &[m], &mut walk);
        }
    }
    walk
}
