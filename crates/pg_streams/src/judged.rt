//! How far a list of problems is judged, on the terminal.

use crate::allowed::{Allowed, write_front, write_games, write_trees};
use crate::line::{Line, Terminal, WIDTH};
use crate::progress::scaled;
use arrayvec::ArrayString;
use std::fmt::Write;
use std::io::Eprint;
use std::time::Clock;

// In how many turns of a search the clock is asked once.
const TURNS: u32 = 1024;

/// Shows which of the problems is judged, how many there are, how long that one is judged, the share of the limit, the
/// search at work, the length at work and the stated one, how many nodes it has visited, and how many games it has met.
#[derive(Drop)]
pub struct JudgeLine<'a, R> {
    line: Line<'a, R>,
    number: usize,
    count: usize,
    /// The plies that are stated.
    plies: u8,
    /// What the search at work is called.
    called: &'static str,
    /// The nodes of the search at work, and the time of the problem.
    allowed: Allowed,
    turns: u32,
    games: u64,
}

impl<'a, R: Clock + Eprint> JudgeLine<'a, R> {
    /// Of the problem with this number, from 1, of a count, and with so many plies, which has so many milliseconds, if
    /// they are limited.
    pub fn new(
        rt: &'a R,
        terminal: &'a Terminal,
        place: [usize; 2],
        plies: u8,
        milliseconds: Option<u64>,
    ) -> JudgeLine<'a, R> {
        let [number, count] = place;
        JudgeLine {
            line: Line::new(rt, terminal),
            number,
            count,
            plies,
            called: "",
            allowed: Allowed {
                nodes: 0,
                milliseconds,
            },
            turns: 0,
            games: 0,
        }
    }

    /// A search begins, which is called so, of `limit` nodes at most.
    pub fn begin(&mut self, called: &'static str, limit: u64) {
        self.called = called;
        self.allowed.nodes = limit;
        self.games = 0;
    }

    /// The search has met a game.
    pub fn meet(&mut self) {
        self.games = self.games.saturating_add(1);
    }

    /// The search is at work on this length, and may visit `left` nodes more.
    pub fn reach(&mut self, plies: u8, left: u64) {
        if !self.line.is_on() {
            return;
        }
        self.turns = self.turns.wrapping_add(1);
        if self.turns % TURNS == 0 && self.line.is_due() {
            let nodes = self.allowed.nodes.saturating_sub(left);
            let line = judge_line(
                [self.number, self.count],
                self.called,
                self.line.passed,
                self.allowed,
                [plies, self.plies],
                [nodes, self.games],
            );
            self.line.show(line.as_str());
        }
    }

    /// Takes the line away.
    pub fn end(&mut self) {
        self.line.end();
    }
}

/// The line of a judge, after so many milliseconds: the number of the problem and how many there are, if more than one;
/// the time, the share of the limit that is nearer, the search, the plies at work and the stated ones as lengths, the
/// nodes, and the games that were met.
pub fn judge_line(
    place: [usize; 2],
    called: &str,
    passed: u64,
    allowed: Allowed,
    trees: [u8; 2],
    counts: [u64; 2],
) -> ArrayString<WIDTH> {
    let mut line = ArrayString::new();
    let [number, count] = place;
    let [nodes, games] = counts;
    if count > 1 {
        let _ = write!(line, "{number} of {count}: ");
    }
    write_front(&mut line, passed, nodes, allowed);
    let _ = write!(line, "{called} ");
    write_trees(&mut line, trees);
    let (number, unit) = scaled(nodes);
    let _ = write!(line, ", {number}{unit} nodes");
    write_games(&mut line, games);
    line
}
