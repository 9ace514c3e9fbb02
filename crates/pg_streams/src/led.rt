//! How far a search that a list leads is, on the terminal.

use crate::allowed::{Allowed, write_front, write_trees};
use crate::line::{Line, Terminal, WIDTH};
use crate::progress::scaled;
use arrayvec::ArrayString;
use pg_searcher::LedProgress;
use std::fmt::Write;
use std::io::Eprint;
use std::time::Clock;

// In how many turns of a search the clock is asked once.
const TURNS: u32 = 1024;

/// Shows how long a led search is at work, its share of its limit, the length at work and the stated one, how many
/// foreign moves it allows, and how many nodes it has visited.
#[derive(Drop)]
pub struct LedLine<'a, R> {
    line: Line<'a, R>,
    /// The plies that are stated.
    plies: u8,
    allowed: Allowed,
    turns: u32,
}

impl<'a, R: Clock + Eprint> LedLine<'a, R> {
    /// Of a search beside games of so many plies, which is allowed so much and begins now.
    pub fn new(rt: &'a R, terminal: &'a Terminal, plies: u8, allowed: Allowed) -> LedLine<'a, R> {
        LedLine {
            line: Line::new(rt, terminal),
            plies,
            allowed,
            turns: 0,
        }
    }

    /// Takes the line away.
    pub fn end(&mut self) {
        self.line.end();
    }
}

/// The line of a led search, after so many milliseconds: the time, the share of the limit that is nearer, the plies at
/// work and the stated ones as lengths, the foreign moves behind a plus, and the nodes.
pub fn led_line(
    passed: u64,
    allowed: Allowed,
    trees: [u8; 2],
    foreign: u8,
    nodes: u64,
) -> ArrayString<WIDTH> {
    let mut line = ArrayString::new();
    write_front(&mut line, passed, nodes, allowed);
    let _ = line.write_str("tree ");
    write_trees(&mut line, trees);
    let (number, unit) = scaled(nodes);
    let _ = write!(line, ", +{foreign} foreign, {number}{unit} nodes");
    line
}

impl<R: Clock + Eprint> LedProgress for LedLine<'_, R> {
    fn reached(&mut self, foreign: u8, plies: u8, left: u64) {
        if !self.line.is_on() {
            return;
        }
        self.turns = self.turns.wrapping_add(1);
        if self.turns % TURNS == 0 && self.line.is_due() {
            let nodes = self.allowed.nodes.saturating_sub(left);
            let trees = [plies, self.plies];
            let line = led_line(self.line.passed, self.allowed, trees, foreign, nodes);
            self.line.show(line.as_str());
        }
    }
}
