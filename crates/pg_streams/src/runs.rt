//! How far a long count or search is, on the terminal.

use crate::allowed::{Allowed, write_front, write_games, write_trees};
use crate::line::{Line, Terminal, WIDTH};
use crate::progress::scaled;
use crate::trees::Trees;
use arrayvec::ArrayString;
use pg_moves::CountProgress;
use pg_position::Move;
use pg_searcher::SearchProgress;
use std::fmt::Write;
use std::io::Eprint;
use std::time::Clock;

// In how many turns of a search the clock is asked once.
const TURNS: u32 = 1024;

/// Shows how many games are counted.
#[derive(Drop)]
pub struct CountLine<'a, R> {
    line: Line<'a, R>,
    games: u64,
}

impl<'a, R: Clock + Eprint> CountLine<'a, R> {
    /// With no game counted.
    pub fn new(rt: &'a R, terminal: &'a Terminal) -> CountLine<'a, R> {
        CountLine {
            line: Line::new(rt, terminal),
            games: 0,
        }
    }

    /// Takes the line away.
    pub fn end(&mut self) {
        self.line.end();
    }
}

/// The line of a count.
pub fn count_line(games: u64) -> ArrayString<WIDTH> {
    let mut line = ArrayString::new();
    let (number, unit) = scaled(games);
    let _ = write!(line, "{number}{unit} games");
    line
}

impl<R: Clock + Eprint> CountProgress for CountLine<'_, R> {
    fn counted(&mut self, games: u64) {
        self.games = self.games.saturating_add(games);
        if self.line.is_due() {
            self.line.show(count_line(self.games).as_str());
        }
    }
}

/// Shows how long a search is at work, its share of its limit, the length of the tree at work and the stated one, how
/// many nodes were visited and how many that tree may come to, and how many games were met.
#[derive(Drop)]
pub struct SearchLine<'a, R> {
    line: Line<'a, R>,
    /// The plies that are stated.
    plies: u8,
    allowed: Allowed,
    turns: u32,
    trees: Trees,
    games: u64,
}

impl<'a, R: Clock + Eprint> SearchLine<'a, R> {
    /// Of a search for games of so many plies, which is allowed so much and begins now.
    pub fn new(
        rt: &'a R,
        terminal: &'a Terminal,
        plies: u8,
        allowed: Allowed,
    ) -> SearchLine<'a, R> {
        SearchLine {
            line: Line::new(rt, terminal),
            plies,
            allowed,
            turns: 0,
            trees: Trees::new(),
            games: 0,
        }
    }

    /// Takes the line away.
    pub fn end(&mut self) {
        self.line.end();
    }
}

/// The line of a search, after so many milliseconds: the time, the share of the limit that is nearer, the plies of the
/// tree at work and the stated ones as lengths, the nodes of all trees, how many the tree at work may come to, where
/// that is told, and the games that were met.
pub fn search_line(
    passed: u64,
    allowed: Allowed,
    trees: [u8; 2],
    nodes: u64,
    expected: Option<u64>,
    games: u64,
) -> ArrayString<WIDTH> {
    let mut line = ArrayString::new();
    write_front(&mut line, passed, nodes, allowed);
    let _ = line.write_str("tree ");
    write_trees(&mut line, trees);
    let (number, unit) = scaled(nodes);
    let _ = write!(line, ", {number}{unit} nodes");
    if let Some(expected) = expected {
        let (number, unit) = scaled(expected);
        let _ = write!(line, " of ~{number}{unit}");
    }
    write_games(&mut line, games);
    line
}

impl<R: Clock + Eprint> SearchProgress for SearchLine<'_, R> {
    fn reached(&mut self, plies: u8, left: u64) {
        if !self.line.is_on() {
            return;
        }
        let nodes = self.allowed.nodes.saturating_sub(left);
        self.trees.reach(plies, nodes);
        self.turns = self.turns.wrapping_add(1);
        if self.turns % TURNS == 0 && self.line.is_due() {
            let line = search_line(
                self.line.passed,
                self.allowed,
                [plies, self.plies],
                nodes,
                self.trees.expected(),
                self.games,
            );
            self.line.show(line.as_str());
        }
    }

    fn met(&mut self, _game: &[Move]) {
        self.games = self.games.saturating_add(1);
    }
}
