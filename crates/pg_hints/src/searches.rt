//! What a search that has no answer came to.

use crate::Hint;
use arrayvec::ArrayString;
use pg_fen::Length;
use std::fmt::Write;

// A number of plies as a length in moves; nothing beyond the longest length.
fn moves_of(plies: u8) -> ArrayString<4> {
    match Length::from_plies(plies) {
        Some(length) => length.write(),
        None => ArrayString::new(),
    }
}

/// How far a search came that met its limit: the nodes, and the length of the tree at work of the stated one.
pub fn on_limit(nodes: u64, tree: u8, plies: u8) -> Hint {
    let mut hint = Hint::new();
    let (tree, whole) = (moves_of(tree), moves_of(plies));
    let word = if nodes == 1 { "node" } else { "nodes" };
    let _ = write!(
        hint,
        "{nodes} {word}, tree {} of {}",
        tree.as_str(),
        whole.as_str()
    );
    hint
}

/// What the games show that a search met.
pub fn on_known(games: usize) -> Hint {
    let mut hint = Hint::new();
    let _ = match games {
        0 => write!(hint, "no game known"),
        1 => write!(hint, "1 game known"),
        _ => write!(hint, "{games} games known: not sound"),
    };
    hint
}

/// The length to ask for, where one of `plies` plies is meant.
pub fn on_length(plies: u8) -> Hint {
    let mut hint = Hint::new();
    let _ = write!(hint, "try the length {}", moves_of(plies).as_str());
    hint
}
