//! What is said of an expanded node.

use crate::names::{put_all, put_things};
use crate::numbers::Node;
use crate::sentences::{Sentence, first_of_four};
use crate::tally::Tally;
use std::fmt::Write;

// How many moves of so many do something, as in `7 of 28 moves lead on`.
fn write_share(count: u16, moves: u16, one: &str, more: &str, text: &mut Sentence) {
    let word = if moves == 1 { "move" } else { "moves" };
    let _ = match count {
        0 => write!(text, "none of {moves} {word} {one}"),
        1 => write!(text, "1 of {moves} {word} {one}"),
        _ => write!(text, "{count} of {moves} {word} {more}"),
    };
}

// How many children are cut so, after those that are cut otherwise.
fn write_cut(count: u16, name: &str, before: u16, text: &mut Sentence) {
    if count == 0 {
        return;
    }
    let sign = if before == 0 { "; cut" } else { "," };
    let _ = write!(text, "{sign} {count} {name}");
}

// How many children are cut in each way.
fn write_cuts(tally: &Tally, text: &mut Sentence) {
    let kinds = [
        (tally.captures, "by captures"),
        (tally.promotions, "by promotions"),
        (tally.files, "by pawn files"),
        (tally.travel, "by travel"),
        (tally.journeys, "by journeys"),
        (tally.tolls, "by tolls"),
        (tally.others, "by other bounds"),
        (tally.references, "by reference"),
    ];
    let mut before = 0u16;
    for (count, name) in kinds {
        write_cut(count, name, before, text);
        before = before.saturating_add(count);
    }
}

// How many children were played out without a game, and how many games are below.
fn write_games(tally: &Tally, text: &mut Sentence) {
    if tally.played_out > 0 {
        let played_out = tally.played_out;
        let _ = write!(text, "; {played_out} played out");
    }
    put_all(text, &["; "]);
    put_things(text, tally.games, "game", "games");
    put_all(text, &[" below"]);
}

/// Writes what is said of an expanded node with so many plies left into a sentence that is empty: of its moves, and of
/// the games below; with one ply left, where no move ends on the diagram, the reason is written where one is given.
pub fn put_expanded(left: u8, tally: &Tally, reason: &Option<Sentence>, text: &mut Sentence) {
    if tally.moves == 0 {
        return put_all(text, &["no move is legal"]);
    }
    if left > 1 {
        write_share(tally.lead, tally.moves, "leads on", "lead on", text);
        write_cuts(tally, text);
        return write_games(tally, text);
    }
    let (one, more) = ("ends on the diagram", "end on the diagram");
    write_share(tally.lead, tally.moves, one, more, text);
    if let Some(reason) = reason {
        put_all(text, &[": ", reason.as_str()]);
    }
}

/// What is said of an expanded node: of its moves, and of the games below; with one ply left, where no move ends on the
/// diagram, why the first bound excludes that does. No clause speaks of the words.
pub fn expanded(node: &Node, tally: &Tally) -> Sentence {
    let mut text = Sentence::new();
    let reason = if node.left == 1 && tally.lead == 0 {
        match first_of_four(node) {
            Some(grounds) => Some(grounds.text),
            None => None,
        }
    } else {
        None
    };
    put_expanded(node.left, tally, &reason, &mut text);
    text
}

/// What is said of an expanded node whose moves are not told: how many games are below.
pub fn untold(games: u64) -> Sentence {
    let mut text = Sentence::new();
    put_all(&mut text, &["expanded, with "]);
    put_things(&mut text, games, "game", "games");
    put_all(&mut text, &[" below"]);
    text
}
