//! How far a search is, as all lines of searches begin: the time that has passed, and the share of its limit.

use crate::line::WIDTH;
use crate::progress::share;
use arrayvec::ArrayString;
use pg_fen::Length;
use std::fmt::Write;

// The most hours that are shown.
const HOURS: u64 = 9999;

/// What a search is allowed: so many nodes, and so many milliseconds, if its time is limited.
#[derive(Clone, Copy, Debug, PartialEq, Eq)]
pub struct Allowed {
    pub nodes: u64,
    pub milliseconds: Option<u64>,
}

// The share of the limit that is nearer, in hundredths, after so many milliseconds and nodes, and the words for it.
fn nearer(passed: u64, nodes: u64, allowed: Allowed) -> (u64, &'static str) {
    let of_nodes = share(nodes, allowed.nodes);
    let of_time = match allowed.milliseconds {
        Some(milliseconds) => share(passed, milliseconds),
        None => return (of_nodes, "nodes"),
    };
    if of_time < of_nodes {
        (of_nodes, "nodes")
    } else {
        (of_time, "time")
    }
}

// Writes a time: minutes and seconds, as `1:23`; from an hour on hours and minutes, as `2h05`.
fn write_time(line: &mut ArrayString<WIDTH>, milliseconds: u64) {
    let seconds = milliseconds / 1000;
    let minutes = seconds / 60;
    if minutes < 60 {
        let _ = write!(line, "{minutes}:{:02}", seconds % 60);
    } else {
        let _ = write!(line, "{}h{:02}", (minutes / 60).min(HOURS), minutes % 60);
    }
}

// Writes the time that has passed and the share of the limit, as `1:23 8% of nodes, ` or `1:23 28% of time, `.
pub(crate) fn write_front(
    line: &mut ArrayString<WIDTH>,
    passed: u64,
    nodes: u64,
    allowed: Allowed,
) {
    write_time(line, passed);
    let (share, what) = nearer(passed, nodes, allowed);
    let _ = write!(line, " {share}% of {what}, ");
}

// Writes the length of the tree at work and the stated one, in plies, as `14.5 of 17.0`.
pub(crate) fn write_trees(line: &mut ArrayString<WIDTH>, trees: [u8; 2]) {
    let [work, stated] = trees;
    if let Some(length) = Length::from_plies(work) {
        let _ = write!(line, "{}", length.write().as_str());
    }
    if let Some(length) = Length::from_plies(stated) {
        let _ = write!(line, " of {}", length.write().as_str());
    }
}

// Writes how many games were met, as `, 2 games`.
pub(crate) fn write_games(line: &mut ArrayString<WIDTH>, games: u64) {
    let behind = if games == 1 { "game" } else { "games" };
    let _ = write!(line, ", {games} {behind}");
}
